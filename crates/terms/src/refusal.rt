// Why a request is turned away: one of the papers' reasons, each with its number, and the place at fault.
ghost use Rattle.std.specs.Prelude.{◌≡◌};
ghost use Rattle.terms.specs.Numbers.{reason_number};

#[derive(Clone, Copy, PartialEq, Eq)]
pub enum Reason {
    NoJob = 10,
    Length = 11,
    Heading = 12,
    Counts = 13,
    Variable = 14,
    Choices = 15,
    Product = 16,
    Record = 17,
    Monotony = 18,
    PlanLength = 21,
    Mark = 22,
    Percentage = 23,
    Budget = 24,
    Buffer = 25,
    Root = 26,
    Scale = 27,
    BelowPercentage = 31,
    NoCandidate = 32,
}

// A reason, and a word of the file or an index of the plan.
#[derive(Clone, Copy, PartialEq, Eq)]
pub struct Refusal {
    pub reason: Reason,
    pub place: usize,
}

impl From<Reason> for u8 {
    ghost from_gives = { λ reason number. number ≡ reason_number reason };

    #[tactic(auto, unfolding(crate::specs::Numbers::reason_number))]
    fn from(reason: Reason) -> u8 {
        reason as u8
    }
}

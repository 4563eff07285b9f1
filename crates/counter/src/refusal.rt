// The checks, by the papers' numbers. The last is none of the planner's: there are more settlings than the counter tries.
#[derive(Clone, Copy, PartialEq, Eq)]
pub enum Check {
    Length = 11,
    Heading = 12,
    Counts = 13,
    Variable = 14,
    Choices = 15,
    Product = 16,
    Record = 17,
    Monotone = 18,
    PlanLength = 21,
    Mark = 22,
    Percent = 23,
    Kits = 24,
    Buffer = 25,
    Root = 26,
    Scale = 27,
    Passing = 31,
    Candidate = 32,
    Settlings = 99,
}

// Why a request is not answered: the check that it fails, and the place of the fault where there is one.
#[derive(Clone, Copy, PartialEq, Eq)]
pub struct Refusal {
    pub check: Check,
    pub place: Option<u64>,
}

impl Check {
    // The refusal by this check, at no place.
    pub fn refusal(self) -> Refusal {
        Refusal {
            check: self,
            place: None,
        }
    }

    // Refuses unless what is checked holds.
    pub fn require(self, holds: bool) -> Result<(), Refusal> {
        if holds { Ok(()) } else { Err(self.refusal()) }
    }

    // Refuses at the place of a fault, if there is one.
    pub fn refuse_at(self, fault: Option<u64>) -> Result<(), Refusal> {
        match fault {
            Some(_) => Err(Refusal {
                check: self,
                place: fault,
            }),
            None => Ok(()),
        }
    }
}

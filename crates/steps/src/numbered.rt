// Checks by number, whatever it is: what the checks before have found stands, and else the next check finds what it does.
ghost use Rattle.std.specs.Prelude.{◌≡◌};
ghost use Rattle.steps.specs.Steps.{and_then, and_within};

// A check's number, and a word of the file or an index of the plan.
#[derive(Clone, Copy, PartialEq, Eq)]
pub struct Numbered {
    pub number: u8,
    pub place: usize,
}

// One check more.
#[tactic(auto, unfolding(crate::specs::Steps::and_then))]
pub fn and_then(
    found: Result<(), Numbered>,
    number: u8,
    fault: Option<usize>,
) -> Result<(), Numbered>
    ensures { result ≡ and_then found number fault }
{
    match found {
        Err(r) => Err(r),
        Ok(()) => match fault {
            Some(place) => Err(Numbered { number, place }),
            None => Ok(()),
        },
    }
}

// One check more, of a number that has a limit.
#[tactic(auto, unfolding(crate::specs::Steps::and_within))]
pub fn and_within(
    found: Result<(), Numbered>,
    number: u8,
    bounded: Result<u64, usize>,
) -> Result<u64, Numbered>
    ensures { result ≡ and_within found number bounded }
{
    match found {
        Err(before) => Err(before),
        Ok(()) => match bounded {
            Ok(value) => Ok(value),
            Err(place) => Err(Numbered { number, place }),
        },
    }
}

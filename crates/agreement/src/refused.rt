// A refusal as the papers have it: the number of the check, and the place of the fault, 0 where there is none.
#[derive(Clone, Copy, PartialEq, Eq)]
pub struct Refused {
    pub number: usize,
    pub place: usize,
}

impl From<counter::Refusal> for Refused {
    fn from(of: counter::Refusal) -> Refused {
        Refused {
            number: of.check as usize,
            place: of.place.unwrap_or(0) as usize,
        }
    }
}

impl From<terms::Refusal> for Refused {
    fn from(of: terms::Refusal) -> Refused {
        Refused {
            number: usize::from(u8::from(of.reason)),
            place: of.place,
        }
    }
}

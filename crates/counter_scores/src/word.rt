// A word of a table, by its kind and fields.
#[derive(Clone, Copy)]
pub struct Word {
    pub kind: Option<Kind>,
    pub p: u64,
    pub q: u64,
    pub r: u64,
}

// The kinds of the words of a table.
#[derive(Clone, Copy, PartialEq, Eq)]
pub enum Kind {
    Heading,
    Choice,
    Chance,
    Record,
    Root,
}

// A number that no kind has.
#[derive(Clone, Copy)]
pub struct UnknownKind(pub u32);

impl TryFrom<u32> for Kind {
    type Error = UnknownKind;

    fn try_from(number: u32) -> Result<Kind, UnknownKind> {
        match number {
            1 => Ok(Kind::Heading),
            2 => Ok(Kind::Choice),
            3 => Ok(Kind::Chance),
            4 => Ok(Kind::Record),
            6 => Ok(Kind::Root),
            _ => Err(UnknownKind(number)),
        }
    }
}

impl Word {
    pub fn is(self, kind: Kind) -> bool {
        self.kind == Some(kind)
    }
}

impl From<u32> for Word {
    fn from(raw: u32) -> Word {
        Word {
            kind: Kind::try_from(raw >> 28).ok(),
            p: u64::from((raw >> 22) % 64),
            q: u64::from((raw >> 11) % 2048),
            r: u64::from(raw % 2048),
        }
    }
}

// The words of a table file.
ghost use Rattle.std.specs.Prelude.{◌≡◌, ◌/◌, ◌%◌, eqb};
ghost use Rattle.made_files.specs.Words.{kind_number};

// The kinds that the words of a table have.
#[derive(Clone, Copy, PartialEq, Eq)]
pub enum Kind {
    Heading = 1,
    Choice = 2,
    Chance = 3,
    Record = 4,
    Root = 6,
}

// The four fields of a word, whose kind is any number. What p, q and r are: V, N and R of a heading; a position, Q and R of a choice;
// a position, a and b of a chance; a position, hi and lo of a record; 0, a reward and a node of a root word.
#[derive(Clone, Copy, PartialEq, Eq)]
pub struct Word {
    pub kind: usize,
    pub p: usize,
    pub q: usize,
    pub r: usize,
}

impl Word {
    pub fn new(kind: Kind, p: usize, q: usize, r: usize) -> Word
        ensures kind { result.kind ≡ kind_number kind }
        ensures fields { (result.p ≡ p) × (result.q ≡ q) × (result.r ≡ r) }
    {
        Word {
            kind: kind as usize,
            p,
            q,
            r,
        }
    }

    // The fields of a number, of which the lower 32 bits count.
    pub fn of(number: usize) -> Word
        ensures kind { result.kind ≡ number / 268435456 % 16 }
        ensures p { result.p ≡ number / 4194304 % 64 }
        ensures q { result.q ≡ number / 2048 % 2048 }
        ensures r { result.r ≡ number % 2048 }
    {
        Word {
            kind: (number >> 28) % 16,
            p: (number >> 22) % 64,
            q: (number >> 11) % 2048,
            r: number % 2048,
        }
    }

    // The number of the fields, each cut to its width.
    pub fn number(&self) -> u32 {
        let upper = ((self.kind % 16) << 28) + ((self.p % 64) << 22);
        (upper + ((self.q % 2048) << 11) + self.r % 2048) as u32
    }

    // Whether the word is of a kind.
    pub fn is(&self, kind: Kind) -> bool
        ensures { result ≡ eqb self.now.kind (kind_number kind) }
    {
        self.kind == kind as usize
    }
}

impl From<u32> for Word {
    fn from(number: u32) -> Word {
        Word::of(number as usize)
    }
}

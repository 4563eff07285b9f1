// A plan by value: a mark for each choice, with the values of the marks and the limit of their number.
ghost use Rattle.std.specs.Prelude.{◌≡◌, ◌++◌, ◌-◌, min, length, take, replicate};

// The marks of the first `count` choices; the unused ones are 0.
#[derive(Clone, Copy)]
pub struct Plan {
    pub marks: [u8; 20],
    pub count: usize,
}

impl Plan {
    pub const OPEN: u8 = 0;

    pub const TAKEN: u8 = 1;

    pub const LEFT: u8 = 2;
    // The mark at a chance, among the marks by position: no plan has it.
    pub const CHANCE: u8 = 3;
    // The most choices that a table has.
    pub const MOST: usize = 20;

    // The plan of `count` choices, at most 20, with every line open.
    pub fn fully_open(count: usize) -> Plan
        ensures marks { result.marks ≡ replicate 20 0 }
        ensures count { result.count ≡ min count 20 }
    {
        Plan {
            marks: [Plan::OPEN; 20],
            count: count.min(Plan::MOST),
        }
    }

    // The plan of `count` choices, at most 20, with every line taken.
    pub fn fully_taken(count: usize) -> Plan
        ensures marks { result.marks ≡ replicate (min count 20) 1 ++ replicate (20 - min count 20) 0 }
        ensures count { result.count ≡ min count 20 }
    {
        let n = count.min(Plan::MOST);
        let mut marks = [Plan::OPEN; 20];
        marks[..n].fill(Plan::TAKEN);
        Plan { marks, count: n }
    }

    // The plan that a list of marks hands in, of which at most the first 20 count.
    pub fn of_marks(bytes: &[u8]) -> Plan
        ensures marks { result.marks ≡ take (min (length bytes.now) 20) bytes.now ++ replicate (20 - min (length bytes.now) 20) 0 }
        ensures count { result.count ≡ min (length bytes.now) 20 }
    {
        let n = bytes.len().min(Plan::MOST);
        let mut marks = [Plan::OPEN; 20];
        marks[..n].copy_from_slice(&bytes[..n]);
        Plan { marks, count: n }
    }
}

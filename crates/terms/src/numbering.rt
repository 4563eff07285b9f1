// The three numberings of one diagram. A number of one kind becomes one of another only by a function named here.
ghost use Rattle.std.specs.Prelude.{◌≡◌, ◌+◌, ◌<◌};

// A choice number: the choices are numbered from 0 by position.
#[derive(Clone, Copy, PartialEq, Eq, PartialOrd, Ord)]
pub struct Choice(u8);

// A variable position, from 0. The two ends stand at the position after the last variable.
#[derive(Clone, Copy, PartialEq, Eq, PartialOrd, Ord)]
pub struct Position(u8);

// A node number: 0 and 1 are the ends false and true, and record k, from 0, is node k + 2.
#[derive(Clone, Copy, PartialEq, Eq, PartialOrd, Ord)]
pub struct Node(u8);

impl Choice {
    pub fn new(number: u8) -> Choice
        ensures { result.0 ≡ number }
    {
        Choice(number)
    }

    pub fn number(self) -> usize
        ensures { result ≡ self.0 }
    {
        usize::from(self.0)
    }
}

impl Position {
    pub fn new(number: u8) -> Position
        ensures { result.0 ≡ number }
    {
        Position(number)
    }

    pub fn number(self) -> usize
        ensures { result ≡ self.0 }
    {
        usize::from(self.0)
    }

    // The word of the variable that stands here.
    pub fn word(self) -> usize
        ensures { result ≡ 1 + self.0 }
    {
        1 + usize::from(self.0)
    }
}

impl Node {
    pub fn new(number: u8) -> Node
        ensures { result.0 ≡ number }
    {
        Node(number)
    }

    pub fn number(self) -> usize
        ensures { result ≡ self.0 }
    {
        usize::from(self.0)
    }

    // The number as a byte, to be stored.
    pub fn byte(self) -> u8
        ensures { result ≡ self.0 }
    {
        self.0
    }

    // The node of record k. Whoever calls has k below the number of records, which is at most 254.
    pub fn of_record(k: usize) -> Node
        requires { k < 254 }
        ensures { result.0 ≡ k + 2 }
    {
        Node((k + 2) as u8)
    }
}

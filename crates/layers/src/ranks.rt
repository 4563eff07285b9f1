// The ranks of nodes. The nodes stand in order of position, and a node's number in this order, from 0, is its rank.
ghost use Rattle.std.specs.Prelude.{◌≡◌};

// A rank.
#[derive(Clone, Copy)]
pub struct Rank(usize);

// The ranks of an open line's layer: where the layer begins, where the line's own nodes begin, and where they end.
#[derive(Clone, Copy)]
pub struct Layer {
    pub first: Rank,
    pub own: Rank,
    pub next: Rank,
}

impl Rank {
    pub fn new(number: usize) -> Rank
        ensures { result.0 ≡ number }
    {
        Rank(number)
    }

    pub fn number(self) -> usize
        ensures { result ≡ self.0 }
    {
        self.0
    }
}

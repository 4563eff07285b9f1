use counter_scores::{Set, Table};

// A full plan, with its score and its kits.
#[derive(Clone, Copy)]
pub struct Candidate {
    pub score: u64,
    pub cost: u64,
    pub full: Set,
}

impl Candidate {
    pub fn of(table: &Table, full: Set) -> Candidate {
        Candidate {
            score: table.score_of(full),
            cost: table.cost_of(full),
            full,
        }
    }

    // The one of the two that ranks first.
    pub fn first(self, other: Candidate) -> Candidate {
        if other.ranks_before(self) {
            other
        } else {
            self
        }
    }

    // Higher score; then fewer kits; then the lowest line in which they differ.
    fn ranks_before(self, other: Candidate) -> bool {
        if self.score != other.score {
            return other.score < self.score;
        }
        if self.cost != other.cost {
            return self.cost < other.cost;
        }
        self.takes_first(other)
    }

    // Whether it takes the lowest line in which the two differ.
    fn takes_first(self, other: Candidate) -> bool {
        let differing = self.full.symmetric_difference(other.full);
        (0..20)
            .find(|c| differing.contains(*c))
            .is_some_and(|c| self.full.contains(c))
    }
}

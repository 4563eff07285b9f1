use std::ops::Range;

// A set of numbers below 64, as the bits of one number.
#[derive(Clone, Copy, PartialEq, Eq)]
pub struct Set(pub u64);

impl Set {
    pub const EMPTY: Set = Set(0);

    // The set of i alone.
    pub fn only(i: u64) -> Set {
        if i < 64 { Set(1 << i) } else { Set::EMPTY }
    }

    // The numbers below n.
    pub fn below(n: u64) -> Set {
        Set(Set::only(n).0.saturating_sub(1))
    }

    // The sets of numbers below n, by their bits.
    pub fn every(n: u64) -> Range<u64> {
        0..Set::only(n).0
    }

    pub fn contains(self, i: u64) -> bool {
        i < 64 && (self.0 >> i) % 2 == 1
    }

    pub fn union(self, other: Set) -> Set {
        Set(self.0 | other.0)
    }

    // The set with i in it.
    pub fn with(self, i: u64) -> Set {
        self.union(Set::only(i))
    }

    pub fn intersection(self, other: Set) -> Set {
        Set(self.0 & other.0)
    }

    // The numbers that are in one of the two sets alone.
    pub fn symmetric_difference(self, other: Set) -> Set {
        Set(self.0 ^ other.0)
    }

    pub fn is_superset(self, other: Set) -> bool {
        self.intersection(other) == other
    }

    pub fn is_disjoint(self, other: Set) -> bool {
        self.intersection(other) == Set::EMPTY
    }

    // How many numbers are in the set.
    pub fn len(self) -> u64 {
        u64::from(self.0.count_ones())
    }
}

// Plans, by the sets of the choice numbers that they take and leave: the top, the drops, what every
// passing completion takes, and the best candidate, by trying all full plans.
use crate::candidate::Candidate;
use counter_scores::{Set, Table};

// A plan on a table: the lines that it takes and those that it leaves.
#[derive(Clone, Copy)]
pub struct Plan<'a> {
    pub table: &'a Table,
    pub taken: Set,
    pub left: Set,
}

// What a candidate keeps to: the kits at hand, and the percent to pass.
#[derive(Clone, Copy)]
pub struct Limits {
    pub kits: u32,
    pub percent: u32,
}

impl<'a> Plan<'a> {
    // The plan with these marks: 1 taken, 2 left.
    pub fn of(table: &'a Table, marks: &[u8]) -> Plan<'a> {
        let mut plan = Plan {
            table,
            taken: Set::EMPTY,
            left: Set::EMPTY,
        };
        for (c, mark) in (0..20).zip(marks) {
            match *mark {
                1 => plan = plan.taking(Set::only(c)),
                2 => plan = plan.leaving(Set::only(c)),
                _ => {}
            }
        }
        plan
    }

    // The plan that takes these lines and leaves the others.
    pub fn full(table: &'a Table, taken: Set) -> Plan<'a> {
        Plan {
            table,
            taken,
            left: table.others(taken),
        }
    }

    pub fn taking(self, lines: Set) -> Plan<'a> {
        Plan {
            taken: self.taken.union(lines),
            ..self
        }
    }

    pub fn leaving(self, lines: Set) -> Plan<'a> {
        Plan {
            left: self.left.union(lines),
            ..self
        }
    }

    // The lines that it neither takes nor leaves.
    fn open(self) -> Set {
        self.table.others(self.taken.union(self.left))
    }

    // The mark of choice c.
    fn mark(self, c: u64) -> u8 {
        if self.taken.contains(c) {
            1
        } else if self.left.contains(c) {
            2
        } else {
            0
        }
    }

    pub fn write(self, out: &mut [u8]) {
        for (c, mark) in (0..20).zip(out) {
            *mark = self.mark(c);
        }
    }

    // The lowest open line.
    pub fn lowest_open(self) -> Option<u64> {
        let open = self.open();
        (0..self.table.choices()).find(|c| open.contains(*c))
    }

    // The score with all open lines taken.
    pub fn top(self) -> u64 {
        self.table.score_of(self.table.others(self.left))
    }

    // The top less the score with c left and the other open lines taken; 0 for a line not open.
    pub fn drop_of(self, c: u64) -> u64 {
        if self.open().contains(c) {
            self.top().saturating_sub(self.leaving(Set::only(c)).top())
        } else {
            0
        }
    }

    pub fn write_drops(self, drops: &mut [u64]) {
        for (c, drop) in (0..self.table.choices()).zip(drops) {
            *drop = self.drop_of(c);
        }
    }

    // Whether a full plan keeps every mark of the plan.
    fn is_completed_by(self, full: Set) -> bool {
        full.is_superset(self.taken) && full.is_disjoint(self.left)
    }

    // The lines that a passing completion leaves, if there is one.
    fn left_by_passing(self, percent: u32) -> Option<Set> {
        let table = self.table;
        Set::every(table.choices())
            .map(Set)
            .filter(|full| self.is_completed_by(*full))
            .filter(|full| table.passes(table.score_of(*full), percent))
            .map(|full| table.others(full))
            .reduce(Set::union)
    }

    // The open lines that every passing completion takes, if there is one.
    pub fn forced(self, percent: u32) -> Option<Set> {
        let left = self.left_by_passing(percent)?;
        Some(self.open().intersection(self.table.others(left)))
    }

    // The completion that ranks first of those within the limits.
    pub fn best(self, limits: Limits) -> Option<Candidate> {
        let table = self.table;
        Set::every(table.choices())
            .map(Set)
            .filter(|full| self.is_completed_by(*full))
            .filter(|full| table.cost_of(*full) <= u64::from(limits.kits))
            .map(|full| Candidate::of(table, full))
            .filter(|candidate| table.passes(candidate.score, limits.percent))
            .reduce(Candidate::first)
    }
}

// The score of a full plan, by every settling of the chances, for each root afresh. A full plan is the set of the choice
// numbers that it takes; a settling is the set of the positions whose choice is taken or whose
// chance holds.
use crate::set::Set;
use crate::table::Table;
use crate::word::Kind;

impl Table {
    // Whether the walk from a node ends in true.
    pub fn walk(&self, start: u64, settling: Set) -> bool {
        let mut node = start;
        for _ in 0..60 {
            if node < 2 {
                return node == 1;
            }
            node = self.child(node, settling);
        }
        node == 1
    }

    fn child(&self, node: u64, settling: Set) -> u64 {
        let word = self.record(node);
        if settling.contains(word.p) {
            word.q
        } else {
            word.r
        }
    }

    // The settling that a full plan and the set of the chance numbers that hold make.
    fn settle(&self, full: Set, holding: Set) -> Set {
        let mut settling = Set::EMPTY;
        let mut choices: u64 = 0;
        let mut chances: u64 = 0;
        for v in self.positions() {
            let (taken, number) = if self.is_choice(v) {
                (full, &mut choices)
            } else {
                (holding, &mut chances)
            };
            if taken.contains(*number) {
                settling = settling.with(v);
            }
            *number = number.saturating_add(1);
        }
        settling
    }

    // What the variable at position v gives to the product: a where it holds and b - a where it does
    // not; 1 for a choice.
    fn share(&self, v: u64, settling: Set) -> u64 {
        let word = self.variable(v);
        if word.is(Kind::Choice) {
            1
        } else if settling.contains(v) {
            word.q
        } else {
            word.r.saturating_sub(word.q)
        }
    }

    fn product(&self, settling: Set) -> u64 {
        self.positions()
            .map(|v| self.share(v, settling))
            .fold(1, u64::saturating_mul)
    }

    // The sum, over the roots, of the reward times the root's score.
    pub fn score_of(&self, full: Set) -> u64 {
        (0..self.roots())
            .map(|i| self.root_at(i))
            .map(|root| root.reward.saturating_mul(self.root_score(full, root.node)))
            .fold(0, u64::saturating_add)
    }

    fn root_score(&self, full: Set, root: u64) -> u64 {
        let chances = self.variables().saturating_sub(self.choices());
        Set::every(chances)
            .map(|holding| self.settle(full, Set(holding)))
            .filter(|settling| self.walk(root, *settling))
            .map(|settling| self.product(settling))
            .fold(0, u64::saturating_add)
    }

    // Whether a score passes a percent: 100 times it is not less than the percent times B.
    pub fn passes(&self, score: u64, percent: u32) -> bool {
        u64::from(percent).saturating_mul(self.scale()) <= score.saturating_mul(100)
    }
}

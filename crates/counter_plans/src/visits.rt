// The visits of the search, by the visit rule as it is written, with each score counted afresh.
use crate::candidate::Candidate;
use crate::plan::{Limits, Plan};
use counter_scores::Set;

// The search so far: the best plan, if one is held, and the visits made.
#[derive(Clone, Copy)]
struct Search {
    limits: Limits,
    best: Option<Candidate>,
    visits: u64,
}

impl<'a> Plan<'a> {
    pub fn visits(self, limits: Limits) -> u64 {
        let mut search = Search {
            limits,
            best: None,
            visits: 0,
        };
        search.visit(self, 20);
        search.visits
    }
}

impl Search {
    // One visit and those after it, with at most `room` lines open.
    fn visit(&mut self, plan: Plan<'_>, room: u64) {
        self.visits = self.visits.saturating_add(1);
        if self.goes_back(plan) {
            return;
        }
        let Some(d) = plan.lowest_open() else {
            self.hold(Candidate::of(plan.table, plan.taken));
            return;
        };
        if room == 0 {
            return;
        }
        self.visit(plan.taking(Set::only(d)), room - 1);
        if self.goes_left(plan, d) {
            self.visit(plan.leaving(Set::only(d)), room - 1);
        }
    }

    // Holds the one that ranks first of the best plan and another.
    fn hold(&mut self, other: Candidate) {
        self.best = Some(self.best.map_or(other, |best| best.first(other)));
    }

    // Whether a visit goes back: the lines taken cost more than the kits, or the top does not serve.
    fn goes_back(&self, plan: Plan<'_>) -> bool {
        u64::from(self.limits.kits) < plan.table.cost_of(plan.taken)
            || !self.serves(plan, plan.top())
    }

    // Whether d is to be left too: the top less d's drop serves.
    fn goes_left(&self, plan: Plan<'_>, d: u64) -> bool {
        self.serves(plan, plan.top().saturating_sub(plan.drop_of(d)))
    }

    // Whether a score passes and is not less than that of the best plan, if one is held.
    fn serves(&self, plan: Plan<'_>, score: u64) -> bool {
        plan.table.passes(score, self.limits.percent)
            && self.best.is_none_or(|best| best.score <= score)
    }
}

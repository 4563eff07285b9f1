// What a search holds: the best plan so far, and how many visits there have been.
#![tactic(auto)]

ghost use Rattle.std.specs.Prelude.{◌≡◌, not, ◌||◌, ◌<◌, ◌^◌, eqb, leb};
ghost use Rattle.diagram.specs.Ranking.{takes_first};
ghost use Rattle.incumbent.specs.Held.{none_held, visit_added, ranks_over_held, kept};

use passing::passes;
use terms::Plan;

// The cutoff, which is the least bound that is worth a visit; the room of the best plan held, which is 0 where none is held, and its
// marks; and the visits. A plan's room is the kits that it leaves and one more, and 0 where it costs more than the budget.
#[derive(Clone, Copy)]
pub struct Incumbent {
    pub cutoff: u64,
    pub room: u64,
    pub marks: [u8; 20],
    pub visits: u64,
}

impl Incumbent {
    // What a search begins with, where a score passes that is not less than this one.
    pub fn none_held(least: u64) -> Incumbent
        ensures { result ≡ none_held least }
    {
        Incumbent {
            cutoff: least,
            room: 0,
            marks: [0; 20],
            visits: 0,
        }
    }

    // One visit more. There is room: `visit` shows that a search makes at most 2^21 visits.
    pub fn count(&mut self)
        requires { self.old.visits < 2 ^ 63 }
        ensures { self.new ≡ visit_added self.old }
    {
        self.visits += 1;
    }

    // Whether a visit goes back: the plan costs more than the budget, or its bound is less than any that is worth a visit.
    pub fn goes_back(&self, room: u64, bound: u64) -> bool
        ensures { result ≡ (eqb room 0 || not (leb self.now.cutoff bound)) }
    {
        room == 0 || self.is_beaten(bound)
    }

    // Whether a bound is less than any that is worth a visit: it does not pass, or it is less than the score of the plan held, which
    // passes, so that one test is enough.
    pub fn is_beaten(&self, bound: u64) -> bool
        ensures { result ≡ not (leb self.now.cutoff bound) }
    {
        !passes(self.cutoff, bound)
    }

    // The finished plan becomes the best held if it ranks before it, as it does where none is held.
    pub fn keep(&mut self, marks: &[u8; 20], room: u64, bound: u64)
        ensures { self.new ≡ kept bound room marks.now self.old }
    {
        if self.ranks_after(marks, room, bound) {
            self.cutoff = bound;
            self.room = room;
            self.marks = *marks;
        }
    }

    // Whether a finished plan ranks before the one held: higher score, then lower cost, which is more room, then the one that takes
    // the first line where they differ.
    fn ranks_after(&self, marks: &[u8; 20], room: u64, bound: u64) -> bool
        ensures { result ≡ ranks_over_held bound room marks.now self.now }
    {
        if bound != self.cutoff {
            return self.cutoff < bound;
        }
        if room != self.room {
            return self.room < room;
        }
        takes_first(marks, &self.marks)
    }
}

// Whether the first of two plans takes the first line where they differ.
fn takes_first(marks: &[u8; 20], best: &[u8; 20]) -> bool
    ensures { result ≡ takes_first marks.now best.now }
{
    for (mark, held) in marks.iter().zip(best) {
        if mark != held {
            return *mark == Plan::TAKEN;
        }
    }
    false
}

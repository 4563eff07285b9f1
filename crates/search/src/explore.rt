// The search of an accepted table from a legal plan: table and open lines are laid out, then the plan is visited.
ghost use Rattle.std.specs.Prelude.{◌≡◌, ℕ, ◌≤◌};
ghost use Rattle.diagram.specs.Plans.{LeastPassing};
ghost use Rattle.decoding.specs.Decoding.{table_in, Sound};
ghost use Rattle.valuing.specs.Valued.{Legal};
ghost use Rattle.layout.specs.Layout.{LaidOut};
ghost use Rattle.search.specs.Searched.{SearchedWithin};

use cost::cost_of;
use decoding::Decoded;
use incumbent::Incumbent;
use layers::ROOT_CELL;
use layout::{Layout, arrange};
use lines::Lines;
use terms::Plan;
use visiting::{State, visit};

// What limits a search: the kits that each line takes, the kits that there are, and the least score that passes.
#[derive(Clone, Copy)]
pub struct Limits {
    pub kits: [u16; 20],
    pub budget: u32,
    pub least: u64,
}

// What is held and counted after the search of an accepted table from a plan that the checks 21 and 22 let through. Apart from `search`,
// so that the room for a layout is cleared only for a request that they let through. `search` has the least score that passes from
// `least_passing`.
pub(crate) fn explore_plan(table: &Decoded, plan: &[u8], limits: Limits) -> Incumbent
    requires sound { Sound table.now }
    requires plan { Legal table.now plan.now }
    requires least { (limits.budget ≤ 10020) × ((percent : ℕ) × LeastPassing (table_in table.now) percent limits.least) }
    ensures { SearchedWithin (table_in table.now) plan.now limits result }
{
    explore(table, arrange(table, plan), plan, limits)
}

// The same over the layout of the table from the plan, as `explore_plan` hands it in: by value, since one that was lent lay on the stack
// twice, and not inlined, like `arrange`, so that the room of the one is not on the stack beside the other's.
#[inline(never)]
pub fn explore(table: &Decoded, layout: Layout, plan: &[u8], limits: Limits) -> Incumbent
    requires sound { Sound table.now }
    requires plan { Legal table.now plan.now }
    requires least { (limits.budget ≤ 10020) × ((percent : ℕ) × LeastPassing (table_in table.now) percent limits.least) }
    requires layout { LaidOut (table_in table.now) plan.now layout }
    ensures { SearchedWithin (table_in table.now) plan.now limits result }
{
    let start = Plan::of_marks(plan);
    let lines = Lines::of_plan(start, &table.choice_positions, &layout.ends, &limits.kits);
    let marks = start.marks;
    let mut state = State {
        cells: [0; 512],
        marks,
        held: Incumbent::none_held(limits.least),
    };
    state.cells[ROOT_CELL] = 1;
    // the kits that the plan leaves and one more, and 0 where it costs more than the budget
    let room = (u64::from(limits.budget) + 1).saturating_sub(cost_of(plan, &limits.kits));
    visit(&layout, lines.as_slice(), &mut state, room, layout.bound);
    state.held
}

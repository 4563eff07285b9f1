// The visits of document 01's rule, by recursion over the open lines.
ghost use Rattle.visiting.specs.Visit.{Fitting, Leaves};

use incumbent::Incumbent;
use layers::{enter_layer, leave_line};
use layout::Layout;
use lines::{Line, mark_line};
use terms::Plan;

// What the visits of a search change: the path weights that the nodes hand on, the marks of the plan visited, and what is held.
#[derive(Clone, Copy)]
pub struct State {
    pub cells: [u64; 512],
    pub marks: [u8; 20],
    pub held: Incumbent,
}

// Visits a plan with these open lines, the lowest first, such room and such a bound, whose marks are handed in, and leaves what is held
// and counted then; the marks are as before. The cells have the path weights of the nodes before the first line's layer; `explore`
// hands in the first plan. Where the kits of a line leave no room, the plan with it taken is only counted: its visit goes back, and there
// is no need of a call.
pub fn visit(layout: &Layout, lines: &[Line], state: &mut State, room: u64, bound: u64)
    requires { Fitting layout.now lines.now state.old room bound }
    ensures { Leaves layout.now lines.now state.old room bound state.new }
{
    state.held.count();
    if state.held.goes_back(room, bound) {
        return;
    }
    let Some((line, rest)) = lines.split_first() else {
        state.held.keep(&state.marks, room, bound);
        return;
    };
    let drop = enter_layer(&layout.arcs, &layout.losses, &mut state.cells, line.layer);
    mark_line(line, &mut state.marks, Plan::TAKEN);
    if room <= line.kits {
        state.held.count();
    } else {
        visit(layout, rest, state, room - line.kits, bound);
    }
    if !state.held.is_beaten(bound - drop) {
        leave_line(&mut state.cells, line.layer);
        mark_line(line, &mut state.marks, Plan::LEFT);
        visit(layout, rest, state, room, bound - drop);
    }
    mark_line(line, &mut state.marks, Plan::OPEN);
}

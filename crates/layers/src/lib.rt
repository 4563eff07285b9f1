// A visit's walk over a layer. While a line is the lowest open one, the values of the nodes from its position on do not change, and
// only path weights do. So a visit hands path weights on from one open line to the next, over the nodes between the two.
#![tactic(auto)]

mod arcs;
mod cells;
mod ranks;
mod walk;

pub use arcs::LaidArcs;
pub use cells::{HIGH_CELLS, LOW_CELLS, ROOT_CELL};
pub use ranks::{Layer, Rank};
pub use walk::{enter_layer, leave_line};

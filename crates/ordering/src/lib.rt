// Lists of numbers in arrays, the nodes of a table in order of position, and the arcs into them.
#![tactic(auto)]

mod chains;
mod numbers;
mod order;

pub use chains::Joined;
pub use numbers::{HIGH_ARCS, LOW_ARCS, LOW_OFFSET, ROOT_ARCS};
pub use order::{order_arcs, order_records};

// The weights of a table's arcs, and what comes to its roots: what is computed once for a table, whatever the plan.
#![tactic(auto)]

mod arcs;
mod roots;
mod weights;

pub use roots::Roots;
pub use weights::lay_out;

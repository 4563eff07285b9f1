// What a table and a plan come to: the marks and the arcs in force, the values of the nodes by one pass up the records, the plan's
// bound, and what leaving a line loses.
#![tactic(auto)]

mod bound;
mod force;
mod loss;
mod pass;

pub use bound::{PlanValue, value_plan};
pub use force::{in_force, mark_at};
pub use loss::{loss_of, losses};

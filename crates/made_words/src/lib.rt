// The variable words and the root words of a table for tests.
#![tactic(auto)]

mod roots;
mod variables;

pub use roots::{add_roots, wrong};
pub use variables::{line_or_event, variable, wide_variable};

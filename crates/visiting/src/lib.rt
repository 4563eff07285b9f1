// The visits of a search, each of one plan: what document 01's rule does with it.
#![tactic(auto)]

mod visits;

pub use visits::{State, visit};

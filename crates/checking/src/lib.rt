// The faults of a table file's heading and variable words: a function for each of the checks 11 to 16, which looks for the first
// place where the check finds the file wrong, and hands on the number that a limit is about.
#![tactic(auto)]

mod variables;
mod words;

pub use variables::{choices, exceeds, product, variable_fault};
pub use words::{count_fault, heading_fault, length_fault};

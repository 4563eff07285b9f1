// The faults of a table file's record and root words: a function for each of the checks 17, 26 and 27, which looks for the first
// place where the check finds the file wrong; that of check 27 hands on B.
#![tactic(auto)]

mod records;
mod roots;

pub use records::record_fault;
pub use roots::{root_fault, scale};

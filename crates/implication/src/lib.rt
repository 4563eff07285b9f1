// Check 18 over a decoded table.
#![tactic(auto)]

mod monotone;
mod worklist;

pub use monotone::monotone_fault;

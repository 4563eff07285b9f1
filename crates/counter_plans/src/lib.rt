// Plans: the top, the drops, the forced lines, the best candidate and the visits, by every full plan: a part of the second planner
// (`counter`).
#![tactic(auto)]

mod candidate;
mod plan;
mod visits;

pub use candidate::Candidate;
pub use plan::{Limits, Plan};

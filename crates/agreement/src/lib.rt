// How many answers of two planners agree, and what is printed of it.
#![tactic(auto)]

mod refused;
mod service;
mod tally;

pub use refused::Refused;
pub use service::Service;
pub use tally::{Counts, Tally};

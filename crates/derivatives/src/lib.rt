// The top and the drops of a plan, by one pass up and one pass down the records.
#![tactic(auto)]

mod down;
mod drops;
mod two_pass;

pub use two_pass::{Sweep, two_passes};

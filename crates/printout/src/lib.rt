// What the program `plan` prints for the bytes that it reads, as a `Text` by value.
#![tactic(auto)]

mod found;
mod job;

pub use job::{print, print_read};
pub use writing::Text;

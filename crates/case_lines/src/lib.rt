// A line of the input of the program `cases`, taken byte by byte: the file and the plan go to lent buffers, the numbers to the line itself.
#![tactic(auto)]

mod buffers;
mod line;

pub use buffers::Buffers;
pub use line::Line;

// The open lines of a search, the lowest first: their numbers, their kits and the ranks of their layers.
#![tactic(auto)]

mod lay;
mod open;

pub use lay::{Line, Lines, mark_line};
pub use open::{OpenLines, open_lines};

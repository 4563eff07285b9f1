// Table files and plans in the making, for tests, from numbers that look random.
#![tactic(auto)]

mod draws;
mod file;
mod marks;
mod numbers;
mod words;

pub use draws::{draw, fork, once_in};
pub use file::File;
pub use marks::Marks;
pub use numbers::{kits, lent, percentage, ratio};
pub use words::{Kind, Word};

// The words of a table, and the score of a full plan, by every settling of the chances: a part of the second planner (`counter`).
#![tactic(auto)]

mod scores;
mod set;
mod table;
mod word;

pub use set::Set;
pub use table::Table;
pub use word::{Kind, Word};

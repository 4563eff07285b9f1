// A table decoded from its file: every part in an array by its own numbering, so that nobody reads the bytes again.
#![tactic(auto)]

mod choices;
mod heading;
mod records;
mod roots;
mod table;
mod variables;

pub use heading::{record_count, root_word_count, variable_count};
pub use records::{child_of, position_of, store};
pub use roots::{Root, root_at, root_count};
pub use table::{Decoded, decode, empty};
pub use variables::{is_choice, is_choice_at};

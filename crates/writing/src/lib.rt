// Text written into a buffer from an index on, and a text in the making: words and numbers in decimal, one after the other.
#![tactic(auto)]

mod decimal;
mod text;
mod words;

pub use decimal::put_decimal;
pub use text::Text;
pub use words::put_word;

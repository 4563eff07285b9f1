// The variables' words, and their kind.
ghost use Rattle.std.specs.Prelude.{◌≡◌, ◌+◌, ◌<◌, get_or};
ghost use Rattle.diagram.specs.Words.{word_at};
ghost use Rattle.diagram.specs.Table.{sequence, variable_count, variable_of, is_choice};
ghost use Rattle.decoding.specs.Decoding.{pad_to};

use crate::heading::variable_count;
use terms::{Kind, Position, has_kind, word_at};

// Whether the variable at a position of a file is a choice.
pub fn is_choice(file: &[u8], at: Position) -> bool
    ensures { result ≡ is_choice (variable_of (word_at file.now (1 + at.0))) }
{
    has_kind(word_at(file, at.word()), Kind::Choice)
}

// Whether the variable at a position is a choice, by the words of a decoded table. Its positions are below 64.
pub fn is_choice_at(words: &[u32; 64], at: Position) -> bool
    requires { at.0 < 64 }
    ensures { result ≡ is_choice (variable_of (get_or words.now at.0 0)) }
{
    has_kind(words[at.number()], Kind::Choice)
}

// The variables' words by position; the cells after the last variable are 0.
pub fn words_of(file: &[u8]) -> [u32; 64]
    ensures { result ≡ pad_to 64 (sequence (word_at file.now) 1 (variable_count file.now)) }
{
    let v = variable_count(file);
    let mut words = [0; 64];
    for p in 0..v {
        words[usize::from(p)] = word_at(file, Position::new(p).word());
    }
    words
}

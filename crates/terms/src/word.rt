// A word of a table file, its kind and its fields.
ghost use Rattle.std.specs.Prelude.{◌≡◌, eqb};
ghost use Rattle.diagram.specs.Words.{word_at};
ghost use Rattle.diagram.specs.Words as words;
ghost use Rattle.terms.specs.Numbers.{kind_number};

use crate::bits::kind as top;

// The kinds of words, each with the papers' number.
#[derive(Clone, Copy, PartialEq, Eq)]
pub enum Kind {
    Heading = 1,
    Choice = 2,
    Chance = 3,
    Record = 4,
    Job = 5,
    Root = 6,
}

// Word i of a file, or 0 past its last whole word.
#[tactic(auto, unfolding(diagram::specs::Words::word_at))]
pub fn word_at(file: &[u8], i: usize) -> u32
    ensures { result ≡ word_at file.now i }
{
    if i < file.len() / 4 {
        let at = 4 * i;
        u32::from_be_bytes([file[at], file[at + 1], file[at + 2], file[at + 3]])
    } else {
        0
    }
}

// Whether a word is of a kind.
#[tactic(auto, unfolding(crate::specs::Numbers::kind_number))]
pub fn has_kind(w: u32, kind: Kind) -> bool
    ensures { result ≡ eqb (words.kind w) (kind_number kind) }
{
    top(w) == kind as u32
}

pub fn field_p(w: u32) -> u32
    ensures { result ≡ words.field_p w }
{
    w / 4194304 % 64
}

pub fn field_q(w: u32) -> u32
    ensures { result ≡ words.field_q w }
{
    w / 2048 % 2048
}

pub fn field_r(w: u32) -> u32
    ensures { result ≡ words.field_r w }
{
    w % 2048
}

// The numbers of a heading.
ghost use Rattle.std.specs.Prelude.{◌≡◌, ◌<◌};
ghost use Rattle.diagram.specs.Table.{variable_count, record_count, root_count};

use terms::{field_p, field_q, field_r, word_at};

// V, the number of variables: P of the heading.
pub fn variable_count(file: &[u8]) -> u8
    ensures count { result ≡ variable_count file.now }
    ensures small { result < 64 }
{
    field_p(word_at(file, 0)) as u8
}

// N, the number of records: Q of the heading.
pub fn record_count(file: &[u8]) -> usize
    ensures count { result ≡ record_count file.now }
    ensures small { result < 2048 }
{
    field_q(word_at(file, 0)) as usize
}

// The number of root words: R of the heading.
pub fn root_word_count(file: &[u8]) -> usize
    ensures count { result ≡ root_count file.now }
    ensures small { result < 2048 }
{
    field_r(word_at(file, 0)) as usize
}

// The choices of a table by number: the position and the kits of each.
ghost use Rattle.std.specs.Prelude.{◌≡◌, ◌+◌, ◌≤◌};
ghost use Rattle.diagram.specs.Words.{word_at, field_r};
ghost use Rattle.diagram.specs.Table.{table_of, choice_count};
ghost use Rattle.decoding.specs.Decoding.{pad_to, choice_positions};

use crate::heading::variable_count;
use crate::variables::is_choice;
use terms::{Position, field_r, word_at};

// How many choices there are, and by number the position and the kits of each; the cells after the last choice are 0.
#[derive(Clone, Copy)]
pub struct Choices {
    pub count: usize,
    pub positions: [u8; 20],
    pub kits: [u16; 20],
}

// The choices of a file. It has at most 20, as check 15 leaves it.
pub fn choices_of(file: &[u8]) -> Choices
    requires { choice_count (table_of file.now).variables ≤ 20 }
    ensures count { result.count ≡ choice_count (table_of file.now).variables }
    ensures positions { result.positions ≡ pad_to 20 (choice_positions (table_of file.now).variables) }
    ensures kits { result.kits ≡ pad_to 20 (table_of file.now).kits }
{
    let v = variable_count(file);
    let mut positions = [0; 20];
    let mut kits = [0; 20];
    let mut count = 0;
    for p in 0..v {
        let at = Position::new(p);
        if is_choice(file, at) {
            positions[count] = p;
            kits[count] = kits_at(file, at);
            count += 1;
        }
    }
    Choices {
        count,
        positions,
        kits,
    }
}

// The kits of the line at a position: one more than its word's R.
fn kits_at(file: &[u8], at: Position) -> u16
    ensures { result ≡ field_r (word_at file.now (1 + at.0)) + 1 }
{
    field_r(word_at(file, at.word())) as u16 + 1
}

// A decoded table.
ghost use Rattle.std.specs.Prelude.{◌≡◌, ◌≤◌};
ghost use Rattle.std.proofs.Math.Option.{none};
ghost use Rattle.diagram.specs.Table as table;
ghost use Rattle.diagram.specs.Words.{word_at};
ghost use Rattle.diagram.specs.Table.{sequence, variable_count, table_of, choice_count};
ghost use Rattle.diagram.specs.Checks.{root_fault};
ghost use Rattle.decoding.specs.Nodes.{Shaped};
ghost use Rattle.decoding.specs.Decoding.{pad_to, table_in, Held, empty_table};

use crate::choices::{Choices, choices_of};
use crate::heading::{record_count, variable_count};
use crate::records::{Columns, records_of};
use crate::roots::{RootEntries, roots_of};
use crate::variables::words_of;

// A table by value: V, N, the number of choices and B; by position the variables' words; by choice number its position and kits; by
// node number its position and its two children, the ends first; the number of roots, and by root its node and reward. Cells that
// are not used are 0.
#[derive(Clone, Copy)]
pub struct Decoded {
    pub variables: u8,
    pub records: usize,
    pub choices: usize,
    pub scale: u64,
    pub words: [u32; 64],
    pub choice_positions: [u8; 20],
    pub kits: [u16; 20],
    pub positions: [u8; 256],
    pub high: [u8; 256],
    pub low: [u8; 256],
    pub roots: usize,
    pub nodes: [u8; 16],
    pub rewards: [u64; 16],
}

// Decodes a file that the checks 12, 15, 17 and 26 let through, and whose B is `scale`. Not inlined, so that its columns are on the
// stack no longer than it lasts.
#[inline(never)]
pub fn decode(file: &[u8], scale: u64) -> Decoded
    requires shaped { Shaped file.now × (root_fault file.now ≡ none) × (choice_count (table_of file.now).variables ≤ 20) }
    requires scale { scale ≡ table.scale (table_of file.now) }
    ensures table { table_in result ≡ table_of file.now }
    ensures held { Held result }
    ensures words { result.words ≡ pad_to 64 (sequence (word_at file.now) 1 (variable_count file.now)) }
{
    let Choices {
        count: choices,
        positions: choice_positions,
        kits,
    } = choices_of(file);
    let Columns {
        positions,
        high,
        low,
    } = records_of(file);
    let RootEntries {
        count: roots,
        nodes,
        rewards,
    } = roots_of(file);
    let words = words_of(file);
    Decoded {
        variables: variable_count(file),
        records: record_count(file),
        choices,
        scale,
        words,
        choice_positions,
        kits,
        positions,
        high,
        low,
        roots,
        nodes,
        rewards,
    }
}

// The table of no file: zeros everywhere.
#[tactic(auto, unfolding(crate::specs::Decoding::empty_table))]
pub fn empty() -> Decoded
    ensures { result ≡ empty_table }
{
    Decoded {
        variables: 0,
        records: 0,
        choices: 0,
        scale: 0,
        words: [0; 64],
        choice_positions: [0; 20],
        kits: [0; 20],
        positions: [0; 256],
        high: [0; 256],
        low: [0; 256],
        roots: 0,
        nodes: [0; 16],
        rewards: [0; 16],
    }
}

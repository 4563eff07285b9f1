// Check 17: the record words. The positions of the records passed are kept, since a record's children come before it.
ghost use Rattle.std.specs.Prelude.{◌≡◌, ◌<◌};
ghost use Rattle.std.proofs.Math.Option.{none};
ghost use Rattle.diagram.specs.Checks.{heading_fault, record_fault};
ghost use Rattle.steps.specs.Steps.{fault_of};
ghost use Rattle.checking_records.specs.Positioning.{child_by, record_word_by};

use decoding::{position_of, record_count, store, variable_count};
use terms::{Kind, Node, Position, field_p, field_q, field_r, has_kind, word_at};

// Check 17. That the heading is right, check 12 has shown.
pub fn record_fault(file: &[u8]) -> Option<usize>
    requires { heading_fault file.now ≡ none }
    ensures { result ≡ fault_of (record_fault file.now) }
{
    let v = variable_count(file);
    let end = Position::new(v);
    let mut positions = [v; 256];
    for k in 0..record_count(file) {
        let w = word_at(file, end.word() + k);
        if !is_record_word(&positions, end, k, w) {
            return Some(end.word() + k);
        }
        store(&mut positions, k, field_p(w));
    }
    None
}

// Whether a word is that of record k, by the positions of the nodes before it.
#[tactic(auto, unfolding(terms::specs::Numbers::kind_number, crate::specs::Positioning::record_word_by))]
fn is_record_word(positions: &[u8; 256], end: Position, k: usize, w: u32) -> bool
    requires { k < 254 }
    ensures { result ≡ record_word_by end.0 positions.now k w }
{
    let at = Position::new(field_p(w) as u8);
    has_kind(w, Kind::Record)
        && at < end
        && is_child(positions, k, at, field_q(w))
        && is_child(positions, k, at, field_r(w))
}

// Whether a field of record k, which stands at a position, names a child of it, by the positions of the nodes before it.
#[tactic(auto, unfolding(crate::specs::Positioning::child_by))]
fn is_child(positions: &[u8; 256], k: usize, at: Position, child: u32) -> bool
    requires { k < 254 }
    ensures { result ≡ child_by positions.now k at.0 child }
{
    (child as usize) < k + 2 && at < position_of(positions, Node::new(child as u8))
}

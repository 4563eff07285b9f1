// The checks 11 to 13: the file's length and its heading.
ghost use Rattle.std.specs.Prelude.{◌≡◌};
ghost use Rattle.diagram.specs.Checks.{length_fault, is_heading, heading_fault, count_fault};
ghost use Rattle.steps.specs.Steps.{fault_of};

use decoding::{record_count, root_word_count, variable_count};
use terms::{
    Kind, MOST_BYTES, MOST_RECORDS, MOST_ROOTS, MOST_VARIABLES, field_p, field_q, field_r,
    has_kind, word_at,
};

// Check 11.
#[tactic(auto, unfolding(steps::specs::Steps::fault_of, diagram::specs::Checks::length_fault, diagram::specs::Checks::place_zero))]
pub fn length_fault(file: &[u8]) -> Option<usize>
    ensures { result ≡ fault_of (length_fault file.now) }
{
    let n = file.len();
    (n < 4 || MOST_BYTES < n || n % 4 != 0).then_some(0)
}

// Check 12.
#[tactic(auto, unfolding(steps::specs::Steps::fault_of, diagram::specs::Checks::heading_fault, diagram::specs::Checks::place_zero))]
pub fn heading_fault(file: &[u8]) -> Option<usize>
    ensures { result ≡ fault_of (heading_fault file.now) }
{
    (!is_heading(word_at(file, 0))).then_some(0)
}

#[tactic(auto, unfolding(terms::specs::Numbers::kind_number, diagram::specs::Checks::is_heading))]
fn is_heading(w: u32) -> bool
    ensures { result ≡ is_heading w }
{
    has_kind(w, Kind::Heading)
        && (1..=MOST_VARIABLES).contains(&field_p(w))
        && (1..=MOST_RECORDS).contains(&field_q(w))
        && field_r(w) <= MOST_ROOTS
}

// Check 13.
#[tactic(auto, unfolding(steps::specs::Steps::fault_of, diagram::specs::Checks::count_fault, diagram::specs::Checks::place_zero))]
pub fn count_fault(file: &[u8]) -> Option<usize>
    ensures { result ≡ fault_of (count_fault file.now) }
{
    let v = usize::from(variable_count(file));
    let words = 1 + v + record_count(file) + root_word_count(file);
    (file.len() != 4 * words).then_some(0)
}

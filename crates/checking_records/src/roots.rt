// The checks 26 and 27: the root words, and B.
ghost use Rattle.std.specs.Prelude.{◌≡◌, ◌<◌};
ghost use Rattle.diagram.specs.Table.{table_of, total_reward};
ghost use Rattle.diagram.specs.Checks.{is_root_word, root_fault, reward_fault};
ghost use Rattle.steps.specs.Steps.{fault_of, bounded_by};
ghost use Rattle.checking.specs.Limited.{product_of, file_scale, RootsRight};

use checking::exceeds;
use decoding::{record_count, root_at, root_count, root_word_count, variable_count};
use terms::{Kind, MOST_REWARD, field_p, field_q, field_r, has_kind, word_at};

// Check 26.
pub fn root_fault(file: &[u8]) -> Option<usize>
    ensures { result ≡ fault_of (root_fault file.now) }
{
    let n = record_count(file);
    let first = 1 + usize::from(variable_count(file)) + n;
    for r in 0..root_word_count(file) {
        if !is_root_word(n, word_at(file, first + r)) {
            return Some(first + r);
        }
    }
    None
}

// Whether a word is a root's, in a file of n records.
#[tactic(auto, unfolding(terms::specs::Numbers::kind_number, diagram::specs::Checks::is_root_word))]
fn is_root_word(n: usize, w: u32) -> bool
    requires { n < 2048 }
    ensures { result ≡ is_root_word n w }
{
    has_kind(w, Kind::Root)
        && field_p(w) == 0
        && (1..=MOST_REWARD).contains(&field_q(w))
        && (2..=n + 1).contains(&(field_r(w) as usize))
}

// Check 27: B, from the product of b, or the place 0. It is tested before it is made. The checks 12 and 26 have passed, and
// check 16 has found the product.
pub fn scale(file: &[u8], product: u64) -> Result<u64, usize>
    requires passed { RootsRight file.now }
    requires product { product ≡ product_of file.now }
    ensures { result ≡ bounded_by (reward_fault file.now) (file_scale file.now) }
{
    let reward = total_reward(file);
    if exceeds(reward, product) {
        return Err(0);
    }
    Ok(reward * product)
}

// The total reward. The checks 12 and 26 have passed.
fn total_reward(file: &[u8]) -> u64
    requires { RootsRight file.now }
    ensures { result ≡ total_reward (table_of file.now).roots }
{
    let mut total = 0;
    for i in 0..root_count(file) {
        total += root_at(file, i).reward;
    }
    total
}

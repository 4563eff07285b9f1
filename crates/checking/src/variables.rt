// The checks 14 to 16: the variable words, the number of choices and the product of b.
ghost use Rattle.std.specs.Prelude.{◌≡◌, ◌*◌, ◌^◌, ltb};
ghost use Rattle.diagram.specs.Checks.{is_variable_word, variable_fault, choice_fault, scale_fault};
ghost use Rattle.steps.specs.Steps.{fault_of, bounded_by};
ghost use Rattle.checking.specs.Limited.{choices_of, product_of};

use decoding::{is_choice, variable_count};
use terms::{
    Kind, MOST_MORE_KITS, MOST_PARTS, MOST_SCALE, Plan, Position, field_p, field_q, field_r,
    has_kind, word_at,
};

// Check 14.
pub fn variable_fault(file: &[u8]) -> Option<usize>
    ensures { result ≡ fault_of (variable_fault file.now) }
{
    for p in 0..variable_count(file) {
        let at = Position::new(p);
        if !is_variable_word(at, word_at(file, at.word())) {
            return Some(at.word());
        }
    }
    None
}

#[tactic(auto, unfolding(terms::specs::Numbers::kind_number, diagram::specs::Checks::is_variable_word))]
fn is_variable_word(at: Position, w: u32) -> bool
    ensures { result ≡ is_variable_word at.0 w }
{
    let a = field_q(w);
    let b = field_r(w);
    field_p(w) as usize == at.number()
        && (has_kind(w, Kind::Choice) && a == 0 && b <= MOST_MORE_KITS
            || has_kind(w, Kind::Chance) && (1..=MOST_PARTS).contains(&b) && a <= b)
}

// Check 15: the number of choices, or the word where they are first too many.
pub fn choices(file: &[u8]) -> Result<u64, usize>
    ensures { result ≡ bounded_by (choice_fault file.now) (choices_of file.now) }
{
    let mut count = 0;
    for p in 0..variable_count(file) {
        let at = Position::new(p);
        if is_choice(file, at) {
            if count == Plan::MOST as u64 {
                return Err(at.word());
            }
            count += 1;
        }
    }
    Ok(count)
}

// Check 16: the product of b, or the word where it is first too large. Each product is tested before it is made.
pub fn product(file: &[u8]) -> Result<u64, usize>
    ensures { result ≡ bounded_by (scale_fault file.now) (product_of file.now) }
{
    let mut product = 1;
    for p in 0..variable_count(file) {
        let at = Position::new(p);
        if !is_choice(file, at) {
            let b = u64::from(field_r(word_at(file, at.word())));
            if exceeds(product, b) {
                return Err(at.word());
            }
            product *= b;
        }
    }
    Ok(product)
}

// Whether a product of two numbers is above 2^56, found without making it.
pub fn exceeds(x: u64, b: u64) -> bool
    ensures { result ≡ ltb (2 ^ 56) (x * b) }
{
    b != 0 && MOST_SCALE / b < x
}

// The checks 11 to 17, 26 and 27, which come before the records are copied. Each part of the list of checks is a function, which
// promises what its segment finds.
ghost use Rattle.std.specs.Prelude.{◌≡◌};
ghost use Rattle.std.proofs.Math.Option.{none};
ghost use Rattle.diagram.specs.Checks.{heading_fault, heading_checks, variable_checks, scale_checks, record_checks, reward_checks};
ghost use Rattle.steps.specs.Steps.{outcome_by, finding, measuring};
ghost use Rattle.checking.specs.Limited.{choices_of, product_of, file_scale, RootsRight};
ghost use Rattle.reading.specs.Answer.{shape_checks};

use checking::{choices, count_fault, heading_fault, length_fault, product, variable_fault};
use checking_records::{record_fault, root_fault, scale};
use steps::{refuse_above, refuse_at};
use terms::{Reason, Refusal};

// All of them, and B.
#[tactic(auto, using(crate::proofs::Shaping::parts), unfolding(steps::specs::Steps::outcome_by))]
pub fn read_shape(file: &[u8]) -> Result<u64, Refusal>
    ensures { outcome_by (λ x. x) result ≡ measuring shape_checks file.now (file_scale file.now) }
{
    check_heading(file)?;
    check_variables(file)?;
    let product = check_product(file)?;
    check_records(file)?;
    check_reward(file, product)
}

// 11 to 13.
#[tactic(auto, using(steps::proofs::Stepping::found), unfolding(diagram::specs::Services::checked, terms::specs::Numbers::reason_number, steps::specs::Steps::outcome_by))]
fn check_heading(file: &[u8]) -> Result<(), Refusal>
    ensures { outcome_by (λ _. tt) result ≡ finding heading_checks file.now }
{
    refuse_at(Reason::Length, length_fault(file))?;
    refuse_at(Reason::Heading, heading_fault(file))?;
    refuse_at(Reason::Counts, count_fault(file))
}

// 14 and 15, and the number of choices.
#[tactic(auto, using(steps::proofs::Stepping::found), unfolding(diagram::specs::Services::checked, terms::specs::Numbers::reason_number, steps::specs::Steps::outcome_by))]
fn check_variables(file: &[u8]) -> Result<u64, Refusal>
    ensures { outcome_by (λ x. x) result ≡ measuring variable_checks file.now (choices_of file.now) }
{
    refuse_at(Reason::Variable, variable_fault(file))?;
    refuse_above(Reason::Choices, choices(file))
}

// 16, and the product of b.
#[tactic(auto, using(steps::proofs::Stepping::found), unfolding(diagram::specs::Services::checked, terms::specs::Numbers::reason_number, steps::specs::Steps::outcome_by))]
fn check_product(file: &[u8]) -> Result<u64, Refusal>
    ensures { outcome_by (λ x. x) result ≡ measuring scale_checks file.now (product_of file.now) }
{
    refuse_above(Reason::Product, product(file))
}

// 17 and 26. The heading is right, as the check 12 leaves it.
#[tactic(auto, using(steps::proofs::Stepping::found), unfolding(diagram::specs::Services::checked, terms::specs::Numbers::reason_number, steps::specs::Steps::outcome_by))]
fn check_records(file: &[u8]) -> Result<(), Refusal>
    requires { heading_fault file.now ≡ none }
    ensures { outcome_by (λ _. tt) result ≡ finding record_checks file.now }
{
    refuse_at(Reason::Record, record_fault(file))?;
    refuse_at(Reason::Root, root_fault(file))
}

// 27, and B. The heading and the root words are right, as the checks 12 and 26 leave them, and the product is that of b.
#[tactic(auto, using(steps::proofs::Stepping::found), unfolding(diagram::specs::Services::checked, terms::specs::Numbers::reason_number, steps::specs::Steps::outcome_by))]
fn check_reward(file: &[u8], product: u64) -> Result<u64, Refusal>
    requires { RootsRight file.now × (product ≡ product_of file.now) }
    ensures { outcome_by (λ x. x) result ≡ measuring reward_checks file.now (file_scale file.now) }
{
    refuse_above(Reason::Scale, scale(file, product))
}

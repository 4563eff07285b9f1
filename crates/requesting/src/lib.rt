// The checks of a request: those of the file, and those of what comes with it, 21 to 25, as steps over the number of choices.
#![tactic(auto)]

mod plans;

ghost use Rattle.std.specs.Prelude.{◌≡◌};
ghost use Rattle.steps.specs.Steps.{outcome_by};
ghost use Rattle.reading.specs.Answer.{Reads};
ghost use Rattle.requesting.specs.Request.{request_outcome, request_finding, plan_finding, full_plan_finding, unequal_fault, above_fault};

use decoding::Decoded;
use plans::{full_plan_fault, mark_fault};
use reading::read_table;
use steps::refuse_at;
use terms::{MOST_BUDGET, MOST_PERCENT, Reason, Refusal};

// The checks of a file, and then 21 to 25. A service without kits or percent hands in 0 for them.
pub fn accept(
    file: &[u8],
    plan: &[u8],
    budget: u32,
    percent: u32,
    size: usize,
) -> Result<Decoded, Refusal>
    ensures { Reads file.now (request_outcome file.now plan.now budget percent size) result }
{
    let table = read_table(file)?;
    check_request(plan, budget, percent, size, table.choices)?;
    Ok(table)
}

// 21 to 25, of what comes with a file that has a number of choices.
#[tactic(auto, using(crate::proofs::Checking::parts, steps::proofs::Stepping::found), unfolding(terms::specs::Numbers::reason_number, steps::specs::Steps::outcome_by))]
fn check_request(
    plan: &[u8],
    budget: u32,
    percent: u32,
    size: usize,
    choices: usize,
) -> Result<(), Refusal>
    ensures { outcome_by (λ _. tt) result ≡ request_finding plan.now budget percent size choices }
{
    check_plan(plan, choices)?;
    refuse_at(Reason::Percentage, above(MOST_PERCENT, percent))?;
    refuse_at(Reason::Budget, above(MOST_BUDGET, budget))?;
    refuse_at(Reason::Buffer, unequal(size, choices))
}

// 21 and 22.
#[tactic(auto, using(steps::proofs::Stepping::found), unfolding(diagram::specs::Services::checked, terms::specs::Numbers::reason_number, steps::specs::Steps::outcome_by, crate::specs::Request::plan_finding))]
fn check_plan(plan: &[u8], choices: usize) -> Result<(), Refusal>
    ensures { outcome_by (λ _. tt) result ≡ plan_finding plan.now choices }
{
    refuse_at(Reason::PlanLength, unequal(plan.len(), choices))?;
    refuse_at(Reason::Mark, mark_fault(plan))
}

// 21 and 22 of the score, whose plan has to be full.
#[tactic(auto, using(steps::proofs::Stepping::found), unfolding(diagram::specs::Services::checked, terms::specs::Numbers::reason_number, steps::specs::Steps::outcome_by, crate::specs::Request::full_plan_finding))]
pub fn check_full_plan(plan: &[u8], choices: usize) -> Result<(), Refusal>
    ensures { outcome_by (λ _. tt) result ≡ full_plan_finding plan.now choices }
{
    refuse_at(Reason::PlanLength, unequal(plan.len(), choices))?;
    refuse_at(Reason::Mark, full_plan_fault(plan))
}

// A fault where two numbers differ.
#[tactic(auto, unfolding(steps::specs::Steps::fault_of, diagram::specs::Checks::place_zero))]
fn unequal(x: usize, y: usize) -> Option<usize>
    ensures { result ≡ unequal_fault x y }
{
    (x != y).then_some(0)
}

// A fault where a number is above its limit.
#[tactic(auto, unfolding(steps::specs::Steps::fault_of, diagram::specs::Checks::place_zero))]
fn above(limit: u32, x: u32) -> Option<usize>
    ensures { result ≡ above_fault limit x }
{
    (limit < x).then_some(0)
}

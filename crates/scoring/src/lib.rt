// The score of a full plan: the weighted count of the settlings that lead to true, summed over the roots with their rewards, by one
// pass up the records.
#![tactic(auto)]

mod bound;

ghost use Rattle.std.specs.Prelude.{◌≡◌};
ghost use Rattle.diagram.specs.Services.{score_outcome};
ghost use Rattle.scoring.specs.Answer.{outcome_of};

use bound::upper_bound;
use reading::read_table;
use requesting::check_full_plan;
use terms::Refusal;

// The score of a full plan, or the first reason for turning the request away.
pub fn score(file: &[u8], plan: &[u8]) -> Result<u64, Refusal>
    ensures { outcome_of result ≡ score_outcome file.now plan.now }
{
    let table = read_table(file)?;
    match check_full_plan(plan, table.choices) {
        Ok(()) => Ok(upper_bound(&table, plan)),
        Err(refused) => Err(refused),
    }
}

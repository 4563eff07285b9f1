// The filter, which one sweep decides: the lines that a percentage forces.
#![tactic(auto)]

mod forced;

ghost use Rattle.std.specs.Prelude.{◌≡◌, length};
ghost use Rattle.diagram.specs.Services.{filter_outcome, filter_buffer};
ghost use Rattle.filtering.specs.Answer.{filter_of};

use derivatives::two_passes;
use forced::force;
use passing::{least_passing, passes};
use requesting::accept;
use terms::{Reason, Refusal};

// How many lines the percentage forces, with the plan that takes them written to the buffer, or the first reason for turning
// the request away, which leaves the buffer as it was.
pub fn filter(file: &[u8], plan: &[u8], percent: u32, out: &mut [u8]) -> Result<usize, Refusal>
    ensures answer { filter_of result out.new ≡ filter_outcome file.now plan.now percent (length out.old) }
    ensures buffer { out.new ≡ filter_buffer file.now plan.now percent out.old }
{
    let table = accept(file, plan, 0, percent, out.len())?;
    let swept = two_passes(&table, plan);
    let least = least_passing(percent, table.scale);
    if !passes(least, swept.bound) {
        return Err(Refusal {
            reason: Reason::BelowPercentage,
            place: 0,
        });
    }
    Ok(force(plan, least, swept.bound, &swept.drops, out))
}

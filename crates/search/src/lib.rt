// The search: the first candidate in the ranking, found by the visits of document 01's rule.
#![tactic(auto)]

mod answer;
mod explore;

ghost use Rattle.std.specs.Prelude.{◌≡◌, suc, ◌+◌, ◌≤◌, ◌^◌, length};
ghost use Rattle.diagram.specs.Plans.{open_count};
ghost use Rattle.diagram.specs.Services.{search_outcome, search_buffer};
ghost use Rattle.search.specs.Answer.{search_of, visits_of};

pub use answer::Finding;
use explore::{Limits, explore_plan};
use passing::least_passing;
use requesting::accept;
use terms::{Reason, Refusal};

// The score of the first candidate and the visits, with its marks written to the buffer, or the first reason for turning the
// request away, which leaves the buffer as it was. With n open lines there are at most 2^(n+1) - 1 visits.
pub fn search(
    file: &[u8],
    plan: &[u8],
    budget: u32,
    percent: u32,
    out: &mut [u8],
) -> Result<Finding, Refusal>
    ensures answer { search_of result out.new ≡ search_outcome file.now plan.now budget percent (length out.old) }
    ensures buffer { out.new ≡ search_buffer file.now plan.now budget percent out.old }
    ensures visits { visits_of result + 1 ≤ 2 ^ suc (open_count plan.now) }
{
    let n = out.len();
    let table = accept(file, plan, budget, percent, n)?;
    let limits = Limits {
        kits: table.kits,
        budget,
        least: least_passing(percent, table.scale),
    };
    let held = explore_plan(&table, plan, limits);
    if held.room == 0 {
        return Err(Refusal {
            reason: Reason::NoCandidate,
            place: 0,
        });
    }
    out.copy_from_slice(&held.marks[..n]);
    Ok(Finding {
        score: held.cutoff,
        visits: held.visits,
    })
}

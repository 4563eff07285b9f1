// Requests on a file: each opens it and asks a service of the opened table. Parameters and answers hold no opened table, so
// that the prover covers a caller.
#![tactic(auto)]

ghost use Rattle.std.specs.Prelude.{◌≡◌, suc, ◌+◌, ◌≤◌, ◌^◌, length};
ghost use Rattle.diagram.specs.Plans.{open_count};
ghost use Rattle.diagram.specs.Services.{read_outcome, score_outcome, sweep_outcome, sweep_buffer, filter_outcome, filter_buffer, search_outcome, search_buffer};
ghost use Rattle.reading.specs.Answer as reading;
ghost use Rattle.scoring.specs.Answer.{outcome_of};
ghost use Rattle.filtering.specs.Answer.{filter_of};
ghost use Rattle.sweep.specs.Answer.{sweep_of};
ghost use Rattle.search.specs.Answer.{search_of, visits_of};

use opened::{filter, open, score, search, sweep};
use reading::Summary;
use search::Finding;
use terms::Refusal;

// What the opened table says of itself: V, N, the number of choices and B, or why it is turned away.
pub fn open_and_read<'a>(file: &'a [u8]) -> Result<Summary, Refusal>
    ensures { reading.outcome_of result ≡ read_outcome file.now }
{
    let t = open(file);
    t.found
}

// The score of a full plan on the opened table.
pub fn open_and_score<'a, 'p>(file: &'a [u8], plan: &'p [u8]) -> Result<u64, Refusal>
    ensures { outcome_of result ≡ score_outcome file.now plan.now }
{
    let t = open(file);
    score(t, plan)
}

// The sweep on the opened table.
pub fn open_and_sweep<'a, 'p, 'd>(
    file: &'a [u8],
    plan: &'p [u8],
    drops: &'d mut [u64],
) -> Result<u64, Refusal>
    ensures answer { sweep_of result drops.new ≡ sweep_outcome file.now plan.now (length drops.old) }
    ensures buffer { drops.new ≡ sweep_buffer file.now plan.now drops.old }
{
    let t = open(file);
    sweep(t, plan, drops)
}

// The filter on the opened table.
pub fn open_and_filter<'a, 'p, 'o>(
    file: &'a [u8],
    plan: &'p [u8],
    percent: u32,
    out: &'o mut [u8],
) -> Result<usize, Refusal>
    ensures answer { filter_of result out.new ≡ filter_outcome file.now plan.now percent (length out.old) }
    ensures buffer { out.new ≡ filter_buffer file.now plan.now percent out.old }
{
    let t = open(file);
    filter(t, plan, percent, out)
}

// The search on the opened table.
pub fn open_and_search<'a, 'p, 'o>(
    file: &'a [u8],
    plan: &'p [u8],
    budget: u32,
    percent: u32,
    out: &'o mut [u8],
) -> Result<Finding, Refusal>
    ensures answer { search_of result out.new ≡ search_outcome file.now plan.now budget percent (length out.old) }
    ensures buffer { out.new ≡ search_buffer file.now plan.now budget percent out.old }
    ensures visits { visits_of result + 1 ≤ 2 ^ suc (open_count plan.now) }
{
    let t = open(file);
    search(t, plan, budget, percent, out)
}

// An opened table: a struct that refers to the handed-in bytes and copies none of them, and each service on it. A service hands
// the bytes to the function of the same name over slices, which makes every check itself.
#![tactic(auto)]

mod table;

ghost use Rattle.std.specs.Prelude.{◌≡◌, suc, ◌+◌, ◌≤◌, ◌^◌, length};
ghost use Rattle.diagram.specs.Plans.{open_count};
ghost use Rattle.diagram.specs.Services.{read_outcome, score_outcome, sweep_outcome, sweep_buffer, filter_outcome, filter_buffer, search_outcome, search_buffer};
ghost use Rattle.reading.specs.Answer as reading;
ghost use Rattle.scoring.specs.Answer.{outcome_of};
ghost use Rattle.filtering.specs.Answer.{filter_of};
ghost use Rattle.sweep.specs.Answer.{sweep_of};
ghost use Rattle.search.specs.Answer.{search_of, visits_of};

use reading::read;
use search::Finding;
pub use table::Table;
use terms::Refusal;

// Opens a table: the bytes as they were handed in, with V, N, the number of choices and B, or with the first reason for turning
// them away.
pub fn open<'a>(bytes: &'a [u8]) -> Table<'a>
    ensures answer { reading.outcome_of result.found ≡ read_outcome bytes.now }
    ensures bytes { result.bytes ≡ bytes.entry }
{
    Table {
        bytes,
        found: read(bytes),
    }
}

// The score of a full plan, or the first reason for turning the request away.
pub fn score<'a, 'p>(t: Table<'a>, plan: &'p [u8]) -> Result<u64, Refusal>
    ensures { outcome_of result ≡ score_outcome t.entry.bytes.now plan.now }
{
    scoring::score(t.bytes, plan)
}

// The top of a plan, with the drop of each choice written to the buffer, or the first reason for turning the request away,
// which leaves the buffer as it was.
pub fn sweep<'a, 'p, 'd>(t: Table<'a>, plan: &'p [u8], drops: &'d mut [u64]) -> Result<u64, Refusal>
    ensures answer { sweep_of result drops.new ≡ sweep_outcome t.entry.bytes.now plan.now (length drops.old) }
    ensures buffer { drops.new ≡ sweep_buffer t.entry.bytes.now plan.now drops.old }
{
    sweep::sweep(t.bytes, plan, drops)
}

// How many lines the percentage forces, with the plan that takes them written to the buffer, or the first reason for turning
// the request away, which leaves the buffer as it was.
pub fn filter<'a, 'p, 'o>(
    t: Table<'a>,
    plan: &'p [u8],
    percent: u32,
    out: &'o mut [u8],
) -> Result<usize, Refusal>
    ensures answer { filter_of result out.new ≡ filter_outcome t.entry.bytes.now plan.now percent (length out.old) }
    ensures buffer { out.new ≡ filter_buffer t.entry.bytes.now plan.now percent out.old }
{
    filtering::filter(t.bytes, plan, percent, out)
}

// The score of the first candidate and the visits, with its marks written to the buffer, or the first reason for turning the
// request away, which leaves the buffer as it was. With n open lines there are at most 2^(n+1) - 1 visits.
pub fn search<'a, 'p, 'o>(
    t: Table<'a>,
    plan: &'p [u8],
    budget: u32,
    percent: u32,
    out: &'o mut [u8],
) -> Result<Finding, Refusal>
    ensures answer { search_of result out.new ≡ search_outcome t.entry.bytes.now plan.now budget percent (length out.old) }
    ensures buffer { out.new ≡ search_buffer t.entry.bytes.now plan.now budget percent out.old }
    ensures visits { visits_of result + 1 ≤ 2 ^ suc (open_count plan.now) }
{
    search::search(t.bytes, plan, budget, percent, out)
}

// A second planner, written apart from the first: with `counter_scores` and `counter_plans`, on
// which it stands, it shares no code, definition or proof with the planner's crates, and serves
// only to be compared with the planner in tests. What the planner finds by passes over the records
// and by branch and bound, it finds by trying every settling of the variables and every full plan.
//
// Every function is proved safe and ending; none has a contract. A table that passes check 27 and
// has more than 16 variables is answered by 99, which is no number of the planner.
#![tactic(auto)]

mod checks;
mod refusal;

use checks::{check_buffer, check_kits, check_percent, checked_plan, checked_table};
use counter_plans::{Limits, Plan};
pub use refusal::{Check, Refusal};

// V, N, the number of choices and B.
#[derive(Clone, Copy, PartialEq, Eq)]
pub struct Reading {
    pub variables: u64,
    pub records: u64,
    pub choices: u64,
    pub scale: u64,
}

// The score of the best candidate, and the visits of the search.
#[derive(Clone, Copy, PartialEq, Eq)]
pub struct Found {
    pub score: u64,
    pub visits: u64,
}

pub fn read(file: &[u8]) -> Result<Reading, Refusal> {
    let table = checked_table(file)?;
    Ok(Reading {
        variables: table.variables(),
        records: table.records(),
        choices: table.choices(),
        scale: table.scale(),
    })
}

// The score of a full plan.
pub fn score(file: &[u8], marks: &[u8]) -> Result<u64, Refusal> {
    let table = checked_table(file)?;
    let plan = checked_plan(&table, marks, 1)?;
    Ok(table.score_of(plan.taken))
}

// The top. The drops are written.
pub fn sweep(file: &[u8], marks: &[u8], drops: &mut [u64]) -> Result<u64, Refusal> {
    let table = checked_table(file)?;
    let plan = checked_plan(&table, marks, 0)?;
    check_buffer(drops.len(), marks)?;
    plan.write_drops(drops);
    Ok(plan.top())
}

// The number of forced lines. The plan is written with these taken.
pub fn filter(file: &[u8], marks: &[u8], percent: u32, out: &mut [u8]) -> Result<u64, Refusal> {
    let table = checked_table(file)?;
    let plan = checked_plan(&table, marks, 0)?;
    check_percent(percent)?;
    check_buffer(out.len(), marks)?;
    let forced = plan.forced(percent).ok_or(Check::Passing.refusal())?;
    plan.taking(forced).write(out);
    Ok(forced.len())
}

// The best candidate is written.
pub fn search(
    file: &[u8],
    marks: &[u8],
    kits: u32,
    percent: u32,
    out: &mut [u8],
) -> Result<Found, Refusal> {
    let table = checked_table(file)?;
    let plan = checked_plan(&table, marks, 0)?;
    check_percent(percent)?;
    check_kits(kits)?;
    check_buffer(out.len(), marks)?;
    let limits = Limits { kits, percent };
    let best = plan.best(limits).ok_or(Check::Candidate.refusal())?;
    Plan::full(&table, best.full).write(out);
    Ok(Found {
        score: best.score,
        visits: plan.visits(limits),
    })
}

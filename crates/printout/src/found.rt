// The plan that a job asks for, or the first reason for turning the job away.
ghost use Rattle.std.specs.Prelude.{◌≡◌, ◌≤◌, IfOk};
ghost use Rattle.diagram.specs.Table.{table_of};
ghost use Rattle.diagram.specs.Printout.{search_text, job_outcome, job_kits};
ghost use Rattle.printout.specs.Found.{answer_text, job_text};

use cost::cost_of;
use reading::read_table;
use search::search;
use terms::{Kind, Plan, Reason, Refusal, field_p, field_q, field_r, has_kind, word_at};
use text::Numbers;

// A plan, and the numbers that are printed of it.
#[derive(Clone, Copy)]
pub struct Found {
    pub shown: Numbers,
    pub plan: Plan,
}

// What is found for a job word and a table.
pub(crate) fn find(input: &[u8]) -> Result<Found, Refusal>
    ensures text { answer_text result ≡ job_text input.now }
    ensures few { IfOk result (λ f. f.plan.count ≤ 20) }
{
    let job = word_at(input, 0);
    if !has_kind(job, Kind::Job) {
        return Err(Refusal {
            reason: Reason::NoJob,
            place: 0,
        });
    }
    find_first(&input[4..], job_kits(job), field_r(job))
}

// The kits of a job word: at most 131,071.
fn job_kits(job: u32) -> u32
    ensures { result ≡ job_kits job }
{
    field_p(job) + 64 * field_q(job)
}

// What is found for a table, kits and a percentage: the search from the fully open plan.
fn find_first(file: &[u8], budget: u32, percent: u32) -> Result<Found, Refusal>
    ensures text { answer_text result ≡ search_text (table_of file.now) (job_outcome file.now budget percent) }
    ensures few { IfOk result (λ f. f.plan.count ≤ 20) }
{
    let table = read_table(file)?;
    let open = Plan::fully_open(table.choices);
    let n = open.count;
    let mut marks = [Plan::OPEN; 20];
    let found = search(file, &open.marks[..n], budget, percent, &mut marks[..n])?;
    let shown = Numbers {
        choices: table.choices,
        scale: table.scale,
        cost: cost_of(&marks[..n], &table.kits),
        score: found.score,
        visits: found.visits,
    };
    let plan = Plan { marks, count: n };
    Ok(Found { shown, plan })
}

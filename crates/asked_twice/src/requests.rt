// The requests on a file.
use agreement::Tally;
use answered_twice::{Asked, filter_twice, read_twice, score_twice, search_twice, sweep_twice};
use made_files::{File, Marks, fork, kits, lent, percentage, ratio};

// Reads a file once, and tries the other services on it, `rounds` times with other numbers.
pub fn on_file(tally: &mut Tally, seed: usize, rounds: usize, made: &File) {
    read_twice(tally, seed, made.as_slice());
    for k in 0..rounds {
        round(tally, seed, fork(fork(seed, 5), k), made);
    }
}

// One plan for the sweep, the filter and the search, and the same completed for the score. The kits are about what the latter costs.
fn round(tally: &mut Tally, table: usize, seed: usize, made: &File) {
    let choices = made.choices();
    let file = made.as_slice();
    let drawn = Marks::drawn(fork(seed, 1), choices);
    let completed = drawn.completed(fork(seed, 2));
    let (plan, full) = (drawn.as_slice(), completed.as_slice());
    let percent = percent_of(file, full).unwrap_or(50);
    let asked = Asked {
        table,
        size: lent(seed, choices),
        kits: kits(seed, choices, made.cost(completed)),
        percent: percentage(seed, percent),
    };
    score_twice(tally, table, file, full);
    sweep_twice(tally, asked, file, plan);
    filter_twice(tally, asked, file, plan);
    search_twice(tally, asked, file, plan);
}

// The percentage of B that the score of a plan is, cut to a whole number, where the planner finds both.
fn percent_of(file: &[u8], full: &[u8]) -> Option<u32> {
    let summary = reading::read(file).ok()?;
    let score = scoring::score(file, full).ok()?;
    Some(ratio(score, summary.scale))
}

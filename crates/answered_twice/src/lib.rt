// A request answered by the planner and by the counter, and what comes of it.
#![tactic(auto)]

use agreement::{Refused, Service, Tally};
use counter::{Found, Reading};
use reading::Summary;
use search::Finding;

// What comes with a file and a plan: the table's number, the size of the lent buffer, the kits and the percentage.
#[derive(Clone, Copy)]
pub struct Asked {
    pub table: usize,
    pub size: usize,
    pub kits: u32,
    pub percent: u32,
}

pub fn read_twice(tally: &mut Tally, table: usize, file: &[u8]) {
    let ours = reading::read(file).map(summary).map_err(Refused::from);
    let theirs = counter::read(file).map_err(Refused::from);
    tally.count(Service::Read, table, ours, theirs, true);
}

pub fn score_twice(tally: &mut Tally, table: usize, file: &[u8], plan: &[u8]) {
    let ours = scoring::score(file, plan).map_err(Refused::from);
    let theirs = counter::score(file, plan).map_err(Refused::from);
    tally.count(Service::Score, table, ours, theirs, true);
}

pub fn sweep_twice(tally: &mut Tally, asked: Asked, file: &[u8], plan: &[u8]) {
    lend_twice(
        tally,
        Service::Sweep,
        asked,
        [u64::MAX; 24],
        |drops| sweep::sweep(file, plan, drops).map_err(Refused::from),
        |drops| counter::sweep(file, plan, drops).map_err(Refused::from),
    );
}

pub fn filter_twice(tally: &mut Tally, asked: Asked, file: &[u8], plan: &[u8]) {
    let percent = asked.percent;
    lend_twice(
        tally,
        Service::Filter,
        asked,
        [7; 32],
        |out| filtering::filter(file, plan, percent, out)
            .map(|n| n as u64)
            .map_err(Refused::from),
        |out| counter::filter(file, plan, percent, out).map_err(Refused::from),
    );
}

pub fn search_twice(tally: &mut Tally, asked: Asked, file: &[u8], plan: &[u8]) {
    let Asked { kits, percent, .. } = asked;
    lend_twice(
        tally,
        Service::Search,
        asked,
        [7; 32],
        |out| search::search(file, plan, kits, percent, out)
            .map(finding)
            .map_err(Refused::from),
        |out| counter::search(file, plan, kits, percent, out).map_err(Refused::from),
    );
}

// Lends each planner a buffer of its own, and counts what the two answer and write.
fn lend_twice<B, T, F, G, const N: usize>(
    tally: &mut Tally,
    service: Service,
    asked: Asked,
    buffer: [B; N],
    ours: F,
    theirs: G,
)
where
    B: PartialEq + Copy,
    T: PartialEq + Copy,
    F: FnOnce(&mut [B]) -> Result<T, Refused>,
    G: FnOnce(&mut [B]) -> Result<T, Refused>,
    requires ours { F.IsAlwaysCallable ours }
    requires theirs { G.IsAlwaysCallable theirs }
{
    let n = asked.size.min(N);
    let mut mine = buffer;
    let mut other = buffer;
    let first = ours(&mut mine[..n]);
    let second = theirs(&mut other[..n]);
    tally.count(service, asked.table, first, second, mine == other);
}

fn summary(of: Summary) -> Reading {
    Reading {
        variables: of.variables as u64,
        records: of.records as u64,
        choices: of.choices as u64,
        scale: of.scale,
    }
}

fn finding(of: Finding) -> Found {
    Found {
        score: of.score,
        visits: of.visits,
    }
}

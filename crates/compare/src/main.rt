// Runs the planner's services and those of the crate `counter`, which tries every settling, on the same requests, and counts how
// many of their answers are the same.
//
// Every table comes from a seed, its number. What is printed is a line for each service and for each number of a refusal, and at
// the end whether all agree.
#![tactic(auto)]

use agreement::Tally;
use asked_twice::on_file;
use made_damage::damaged;
use made_files::{draw, fork};
use made_tables::{ladder, table, wide};
use std::io;

const TABLES: usize = 10000;

fn main(rt: HostRuntime) -> io::Result<()> {
    let mut tally = Tally::default();
    for seed in 0..TABLES {
        on_table(&mut tally, seed);
    }
    print!(rt; "{tally}")
}

// Makes the table of a seed, and tries every service on it.
fn on_table(tally: &mut Tally, seed: usize) {
    match draw(seed, 1, 8) {
        0 => on_file(tally, seed, 1, &wide(fork(seed, 2))),
        1..=3 => on_file(
            tally,
            seed,
            1,
            &damaged(table(fork(seed, 3)), fork(seed, 4)),
        ),
        4 => on_file(tally, seed, 4, &ladder(fork(seed, 6))),
        _ => on_file(tally, seed, 4, &table(fork(seed, 3))),
    }
}

// Reads a job word and a table from standard input, at most 1,329 bytes, and prints the plan or the refusal.
#![tactic(auto)]

use std::io;

fn main(rt: HostRuntime) -> io::Result<()> {
    console::run(&rt)
}

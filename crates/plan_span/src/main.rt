// The program `plan`, run on a job of 1,000 kits, and a table of 60 variables and 254 records whose lines take 201 to 501 (tests/make_limits.py).
#![tactic(auto)]

use std::io;

fn main(rt: HostRuntime) -> io::Result<()> {
    console::run(&rt)
}

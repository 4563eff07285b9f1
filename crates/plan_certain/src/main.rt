// The program `plan`, run on a job that asks for 100 percent of a link made of certain events (tests/make_limits.py).
#![tactic(auto)]

use std::io;

fn main(rt: HostRuntime) -> io::Result<()> {
    console::run(&rt)
}

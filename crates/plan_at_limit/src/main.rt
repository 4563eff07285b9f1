// The program `plan`, run on the longest input that is answered: 1,328 bytes, 16 root words among them (tests/make_limits.py).
#![tactic(auto)]

use std::io;

fn main(rt: HostRuntime) -> io::Result<()> {
    console::run(&rt)
}

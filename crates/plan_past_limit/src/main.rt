// The program `plan`, run on an input that is too long: 1,364 bytes, of which the first 1,328 are a job that would be answered
// (tests/make_limits.py). Then it prints how many bytes `plan` has left unread.
#![tactic(auto)]

use full_reads::read_full;
use std::io;

fn main(rt: HostRuntime) -> io::Result<()> {
    console::run(&rt)?;
    let mut rest = [0u8; 64];
    let n = read_full(&mut rt.reader(), &mut rest)?;
    print!(rt; "{n}")
}

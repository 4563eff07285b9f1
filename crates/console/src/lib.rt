// What the program `plan` does: it reads a job word and a table from standard input, at most 1,329 bytes, and prints the plan
// or the refusal. `plan` and the programs named after it are this function, each run on an input of its own. No contract can say
// what is read and written; all that stands between is `printout::print_read`.
#![tactic(auto)]

use full_reads::read_full;
use std::io;

pub fn run(rt: &(impl Input + Print)) -> io::Result<()> {
    let mut input = [0u8; 1329];
    let n = read_full(&mut rt.reader(), &mut input)?;
    let text = printout::print_read(&input, n);
    rt.write_all(text.as_bytes())
}

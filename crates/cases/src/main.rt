// Runs the services on the cases of standard input, a line each, and writes what they answer.
//
// A line is a label, a colon, a letter for the service (r reads, s scores, w sweeps, f filters, p plans by the search, j runs
// a job of the program), the file's bytes in hexadecimal, after a bar the plan's marks, a digit each, and after another bar
// the size of the lent buffer and, each after a comma, the percentage and the kits; spaces count for nothing. The label is
// written back, then the answer, and then the lent buffer, in which every place is 7 to begin with; of a job what it prints.
// A line without a colon is written back as it is. With an upper-case letter (R, S, W, F, P) the file is opened, and the
// service asked of the opened table.
#![tactic(auto)]

use case_lines::{Buffers, Line};
use case_runs::run;
use full_reads::read_full;
use std::io;

fn main(rt: HostRuntime) -> io::Result<()> {
    let mut chunk = [0u8; 4096];
    let mut line = Line::new();
    let mut buffers = Buffers::new();
    for _ in 0..100000 {
        let n = read_full(&mut rt.reader(), &mut chunk)?;
        if n == 0 {
            break;
        }
        feed(&rt, &mut line, &mut buffers, &chunk[..n])?;
    }
    Ok(())
}

// Takes some bytes of the input.
fn feed(rt: &impl Print, line: &mut Line, buffers: &mut Buffers, bytes: &[u8]) -> io::Result<()> {
    for b in bytes {
        step(rt, line, buffers, *b)?;
    }
    Ok(())
}

// Takes one byte of the input. The end of a line runs its case.
fn step(rt: &impl Print, line: &mut Line, buffers: &mut Buffers, b: u8) -> io::Result<()> {
    if line.in_label() {
        show(rt, b)?;
    } else if b == b'\n' {
        return end(rt, line, buffers);
    }
    line.push(b, buffers);
    Ok(())
}

// Writes a byte of the label back.
fn show(rt: &impl Print, b: u8) -> io::Result<()> {
    rt.write_all(&[b])
}

// Runs the case of a line, and begins the next.
fn end(rt: &impl Print, line: &mut Line, buffers: &mut Buffers) -> io::Result<()> {
    run(rt, *line, buffers.file(), buffers.plan())?;
    *line = Line::new();
    buffers.clear();
    Ok(())
}

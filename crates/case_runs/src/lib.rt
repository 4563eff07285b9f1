// The services asked for a line of the program `cases`, each on the buffer that the line lends.
#![tactic(auto)]

use case_answers::Answer::{Forced, Found, Score, Table, Top};
use case_answers::{Answer, show, show_each};
use case_lines::Line;
use filtering::filter;
use opened_requests::{
    open_and_filter, open_and_read, open_and_score, open_and_search, open_and_sweep,
};
use reading::read;
use scoring::score;
use search::search;
use std::fmt::Display;
use std::io;
use sweep::sweep;
use terms::Refusal;

// Runs a service, and writes what it answers.
pub fn run(rt: &impl Print, line: Line, file: &[u8], plan: &[u8]) -> io::Result<()> {
    let kits = line.kits;
    let percent = line.percent;
    match line.service {
        b'r' => show(rt, read(file).map(Table))?,
        b's' => show(rt, score(file, plan).map(Score))?,
        b'w' => lend_drops(rt, line, |out| sweep(file, plan, out).map(Top))?,
        b'f' => lend_plan(rt, line, |out| filter(file, plan, percent, out).map(Forced))?,
        b'p' => lend_plan(
            rt,
            line,
            |out| search(file, plan, kits, percent, out).map(Found),
        )?,
        b'j' => run_job(rt, file)?,
        b'R' => show(rt, open_and_read(file).map(Table))?,
        b'S' => show(rt, open_and_score(file, plan).map(Score))?,
        b'W' => lend_drops(rt, line, |out| open_and_sweep(file, plan, out).map(Top))?,
        b'F' => lend_plan(
            rt,
            line,
            |out| open_and_filter(file, plan, percent, out).map(Forced),
        )?,
        b'P' => lend_plan(
            rt,
            line,
            |out| open_and_search(file, plan, kits, percent, out).map(Found),
        )?,
        _ => print!(rt; " no such service")?,
    }
    println!(rt)
}

// Lends a buffer for drops, of the size that a line says.
fn lend_drops<F: FnOnce(&mut [u64]) -> Result<Answer, Refusal>>(
    rt: &impl Print,
    line: Line,
    ask: F,
) -> io::Result<()>
    requires { F.IsAlwaysCallable ask }
{
    lend(rt, &mut [7; 24], line.size, "drops", ask)
}

// Lends a buffer for marks, of the size that a line says.
fn lend_plan<F: FnOnce(&mut [u8]) -> Result<Answer, Refusal>>(
    rt: &impl Print,
    line: Line,
    ask: F,
) -> io::Result<()>
    requires { F.IsAlwaysCallable ask }
{
    lend(rt, &mut [7; 24], line.size, "plan", ask)
}

// Lends the front of a room, at most all of it, and writes what is answered and what is left in it.
fn lend<T: Display, F: FnOnce(&mut [T]) -> Result<Answer, Refusal>>(
    rt: &impl Print,
    room: &mut [T],
    size: u32,
    name: &str,
    ask: F,
) -> io::Result<()>
    requires { F.IsAlwaysCallable ask }
{
    let n = room.len().min(size as usize);
    let lent = &mut room[..n];
    let answer = ask(lent);
    show(rt, answer)?;
    print!(rt; ", {name}")?;
    show_each(rt, lent)
}

// Runs the program's own function on an input, and writes what it prints on lines of its own.
fn run_job(rt: &impl Print, input: &[u8]) -> io::Result<()> {
    println!(rt)?;
    let text = printout::print(input);
    rt.write_all(text.as_bytes())
}

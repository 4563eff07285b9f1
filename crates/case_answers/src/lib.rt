// What the services answer, written to standard output for the program `cases`.
#![tactic(auto)]

use reading::Summary;
use search::Finding;
use std::{fmt, io};
use terms::Refusal;

// What a service answers: V, N, the number of choices and B of a table; a score; a top; how many lines are forced; what a search finds.
#[derive(Clone, Copy)]
pub enum Answer {
    Table(Summary),
    Score(u64),
    Top(u64),
    Forced(usize),
    Found(Finding),
}

impl fmt::Display for Answer {
    fn fmt<W: fmt::Write>(&self, f: &mut fmt::Formatter<W>) -> fmt::Result {
        match self {
            Answer::Table(t) => write!(
                f,
                "table {} {} {} {}",
                t.variables, t.records, t.choices, t.scale
            ),
            Answer::Score(score) => write!(f, "score {score}"),
            Answer::Top(top) => write!(f, "top {top}"),
            Answer::Forced(count) => write!(f, "forced {count}"),
            Answer::Found(found) => write!(f, "score {} visits {}", found.score, found.visits),
        }
    }
}

// Values, each after a space.
pub fn show_each<T: fmt::Display>(rt: &impl Print, xs: &[T]) -> io::Result<()> {
    for x in xs {
        print!(rt; " {x}")?;
    }
    Ok(())
}

// An answer, or the reason and the place of a refusal.
pub fn show(rt: &impl Print, answer: Result<Answer, Refusal>) -> io::Result<()> {
    match answer {
        Ok(answer) => print!(rt; " {answer}"),
        Err(r) => print!(rt; " refused {} {}", u8::from(r.reason), r.place),
    }
}

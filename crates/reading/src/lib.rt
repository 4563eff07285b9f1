// Reading a table file: the checks 11 to 18, 26 and 27, in the papers' order, each over the whole file before the next.
#![tactic(auto)]

mod answer;
mod shape;

ghost use Rattle.std.specs.Prelude.{◌≡◌};
ghost use Rattle.diagram.specs.Services.{read_outcome};
ghost use Rattle.reading.specs.Answer.{outcome_of, Reads};

pub use answer::Summary;
use decoding::{Decoded, decode};
use implication::monotone_fault;
use shape::read_shape;
use steps::refuse_at;
use terms::{Reason, Refusal};

// Reads a table: V, N, the number of choices and B, or the first reason in the papers' order for turning the file away.
pub fn read(file: &[u8]) -> Result<Summary, Refusal>
    ensures { outcome_of result ≡ read_outcome file.now }
{
    let table = read_table(file)?;
    Ok(Summary::of(&table))
}

// Reads a table and hands it out decoded, or the first reason for turning the file away.
pub fn read_table(file: &[u8]) -> Result<Decoded, Refusal>
    ensures { Reads file.now (read_outcome file.now) result }
{
    let scale = read_shape(file)?;
    let table = decode(file, scale);
    refuse_at(Reason::Monotony, monotone_fault(&table))?;
    Ok(table)
}

// From the bytes that the program reads to the text that it prints: a job word, then a table.
ghost use Rattle.std.specs.Prelude.{◌≡◌, ◌++◌, ◌-◌, ◌≤◌, length, take, replicate};
ghost use Rattle.diagram.specs.Printout.{printout};
ghost use Rattle.printout.specs.Found.{job_text};
ghost use Rattle.writing.specs.Wrote.{Appends, empty};

use crate::found::find;
use text::{append_plan, append_refusal};
use writing::Text;

// The most bytes that are read.
const MOST_READ: usize = 1329;

// What is printed for an input, of which at most 1,329 bytes are read: a job word, then a table.
pub fn print(input: &[u8]) -> Text
    ensures text { result.bytes ≡ printout input.now ++ replicate (1024 - result.count) 0 }
    ensures count { (result.count ≡ length (printout input.now)) × (result.count ≤ 1024) }
{
    let mut text = Text::new();
    let n = input.len().min(MOST_READ);
    put_job(&mut text, &input[..n]);
    text
}

// What is printed where the first n bytes of the program's array have been read. An n above 1,329 counts as 1,329.
pub fn print_read(input: &[u8; 1329], n: usize) -> Text
    ensures text { result.bytes ≡ printout (take n input.now) ++ replicate (1024 - result.count) 0 }
    ensures count { (result.count ≡ length (printout (take n input.now))) × (result.count ≤ 1024) }
{
    print(&input[..n.min(MOST_READ)])
}

// Appends what is printed for the bytes that are read, to a text that is empty yet.
fn put_job(text: &mut Text, input: &[u8])
    requires { text.old ≡ empty }
    ensures { Appends empty (job_text input.now) text.new }
{
    match find(input) {
        Ok(found) => append_plan(text, found.shown, &found.plan.marks[..found.plan.count]),
        Err(refusal) => append_refusal(text, refusal),
    }
}

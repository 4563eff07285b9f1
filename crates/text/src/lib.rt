// The lines of the printout, each appended to a text, and the two printouts written into a buffer; whoever calls has the room that it
// asks for.
#![tactic(auto)]

ghost use Rattle.std.specs.Prelude.{ℕ, ◌+◌, ◌*◌, ◌≤◌, length};
ghost use Rattle.diagram.specs.Printout.{refusal_text, mark_lines};
ghost use Rattle.terms.specs.Numbers.{reason_number};
ghost use Rattle.writing.specs.Wrote.{Wrote, Appends};
ghost use Rattle.text.specs.Lines.{table_text, found_text, mark_text, full_text};

use terms::{Plan, Refusal};
use writing::{Text, put_decimal, put_word};

// The numbers of a plan's printout: how many choices there are and B, and the plan's cost, its score and the visits.
#[derive(Clone, Copy)]
pub struct Numbers {
    pub choices: usize,
    pub scale: u64,
    pub cost: u64,
    pub score: u64,
    pub visits: u64,
}

// Writes the line of a refusal at the front of a buffer, and answers its length. Of any number, also one that no reason has. Whoever
// calls has 50 bytes.
pub fn put_refusal(out: &mut [u8], number: u8, place: usize) -> usize
    requires { 50 ≤ length out.old }
    ensures { Wrote out.old 0 out.new result (refusal_text number place) }
{
    let a = put_word(out, 0, b"refused ");
    let b = put_decimal(out, a, number as u64);
    let c = put_word(out, b, b" ");
    let d = put_decimal(out, c, place as u64);
    put_word(out, d, b"\n")
}

// Writes a plan's printout at the front of a buffer, and answers its length. Whoever calls has 700 bytes and the plan of an accepted
// table, of at most 20 lines.
pub fn put_plan(out: &mut [u8], shown: Numbers, plan: &[u8]) -> usize
    requires { (length plan.now ≤ 20) × (700 ≤ length out.old) }
    ensures { Wrote out.old 0 out.new result (full_text shown.choices shown.scale shown.cost shown.score shown.visits plan.now) }
{
    let mut text = Text::new();
    append_plan(&mut text, shown, plan);
    put_word(out, 0, text.as_bytes())
}

// Appends the line of a refusal. `put_job` of `printout` has an empty text.
pub fn append_refusal(text: &mut Text, refusal: Refusal)
    requires { text.old.count + 50 ≤ 1024 }
    ensures { Appends text.old (refusal_text (reason_number refusal.reason) refusal.place) text.new }
{
    text.word(b"refused ");
    text.number(u64::from(u8::from(refusal.reason)));
    text.word(b" ");
    text.number(refusal.place as u64);
    text.word(b"\n");
}

// Appends the three parts of a plan's printout. `put_job` of `printout` hands in the plan of an accepted table, of at most 20 lines.
pub fn append_plan(text: &mut Text, shown: Numbers, plan: &[u8])
    requires { (length plan.now ≤ 20) × (text.old.count + 700 ≤ 1024) }
    ensures appends { Appends text.old (full_text shown.choices shown.scale shown.cost shown.score shown.visits plan.now) text.new }
    ensures count { text.new.count ≤ text.old.count + 670 }
{
    put_table(text, shown);
    put_found(text, shown);
    put_marks(text, plan);
}

// Appends the line of the table's numbers.
fn put_table(text: &mut Text, shown: Numbers)
    requires { text.old.count + 60 ≤ 1024 }
    ensures appends { Appends text.old (table_text shown.choices shown.scale) text.new }
    ensures count { text.new.count ≤ text.old.count + 60 }
{
    text.word(b"choices ");
    text.number(shown.choices as u64);
    text.word(b" scale ");
    text.number(shown.scale);
    text.word(b"\n");
}

// Appends the line of the plan's cost, its score and the visits.
fn put_found(text: &mut Text, shown: Numbers)
    requires { text.old.count + 90 ≤ 1024 }
    ensures appends { Appends text.old (found_text shown.cost shown.score shown.visits) text.new }
    ensures count { text.new.count ≤ text.old.count + 90 }
{
    text.word(b"kits ");
    text.number(shown.cost);
    text.word(b" score ");
    text.number(shown.score);
    text.word(b" visits ");
    text.number(shown.visits);
    text.word(b"\n");
}

// Appends a line for each choice: its number and its mark.
fn put_marks(text: &mut Text, plan: &[u8])
    requires { (length plan.now ≤ 20) × (text.old.count + 26 * length plan.now ≤ 1024) }
    ensures appends { Appends text.old (mark_lines 0 plan.now) text.new }
    ensures count { text.new.count ≤ text.old.count + 26 * length plan.now }
{
    for (choice, mark) in plan.iter().enumerate() {
        put_mark(text, choice, *mark);
    }
}

// Appends the line of one choice.
fn put_mark(text: &mut Text, choice: usize, mark: u8)
    requires { text.old.count + 26 ≤ 1024 }
    ensures appends { Appends text.old (mark_text choice mark) text.new }
    ensures count { text.new.count ≤ text.old.count + 26 }
{
    text.number(choice as u64);
    text.word(if mark == Plan::TAKEN {
        b" take"
    } else {
        b" left"
    });
    text.word(b"\n");
}

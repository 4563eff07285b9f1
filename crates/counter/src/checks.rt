// The checks, in their order: those of the table, the plan, the percent, the kits and the lent buffer.
use crate::refusal::{Check, Refusal};
use counter_plans::Plan;
use counter_scores::{Kind, Set, Table, Word};

// The most that B may be, 2^56.
const LIMIT: u64 = 72057594037927936;

// 23.
pub fn check_percent(percent: u32) -> Result<(), Refusal> {
    Check::Percent.require(percent <= 100)
}

// 24.
pub fn check_kits(kits: u32) -> Result<(), Refusal> {
    Check::Kits.require(kits <= 10020)
}

// 25: the buffer is as long as the plan.
pub fn check_buffer(lent: usize, marks: &[u8]) -> Result<(), Refusal> {
    Check::Buffer.require(lent == marks.len())
}

// The plan that passes 21, and 22: no mark is below `least` or above 2. The score's least mark is 1, and that of the others 0.
pub fn checked_plan<'a>(table: &'a Table, marks: &[u8], least: u8) -> Result<Plan<'a>, Refusal> {
    Check::PlanLength.require(marks.len() as u64 == table.choices())?;
    let wrong = marks.iter().position(|mark| !(least..=2).contains(mark));
    Check::Mark.refuse_at(wrong.map(|c| c as u64))?;
    Ok(Plan::of(table, marks))
}

// The table of a file that passes 11 to 17, 26, 27 and 18, and 99 before 18 where there are more settlings than are tried.
pub fn checked_table(file: &[u8]) -> Result<Table, Refusal> {
    let length = file.len();
    let table = Table::decode(file);
    Check::Length.require((4..=1324).contains(&length) && length % 4 == 0)?;
    Check::Heading.require(right_heading(table.word_at(0)))?;
    let end = table.root_place(table.root_words());
    Check::Counts.require(length as u64 == end.saturating_mul(4))?;
    check_variables(&table)?;
    check_records(&table)?;
    check_roots(&table)?;
    Check::Scale.require(table.scale() <= LIMIT)?;
    Check::Settlings.require(table.variables() <= 16)?;
    check_monotone(&table)?;
    Ok(table)
}

fn right_heading(word: Word) -> bool {
    word.is(Kind::Heading)
        && (1..=60).contains(&word.p)
        && (1..=254).contains(&word.q)
        && word.r <= 16
}

// At the places 1 to V, 14: a word is wrong. 15 and 16: with it there are too many choices, or the product is too large.
fn check_variables(table: &Table) -> Result<(), Refusal> {
    let places = || 1..table.variables().saturating_add(1);
    Check::Variable.refuse_at(places().find(|at| !right_variable(table.word_at(*at), *at)))?;
    Check::Choices.refuse_at(places().find(|at| 20 < table.choices_below(*at)))?;
    Check::Product.refuse_at(places().find(|at| LIMIT < table.scale_below(*at)))
}

// Whether a word is that of the variable at a place, whose position is one less.
fn right_variable(word: Word, place: u64) -> bool {
    word.p.saturating_add(1) == place
        && match word.kind {
            Some(Kind::Choice) => word.q == 0 && word.r <= 500,
            Some(Kind::Chance) => (1..=1000).contains(&word.r) && word.q <= word.r,
            _ => false,
        }
}

// 17: a word is wrong.
fn check_records(table: &Table) -> Result<(), Refusal> {
    let wrong = table.nodes().find(|node| !right_record(table, *node));
    Check::Record.refuse_at(wrong.map(|node| table.place_of(node)))
}

fn right_record(table: &Table, node: u64) -> bool {
    let word = table.record(node);
    word.is(Kind::Record)
        && word.p < table.variables()
        && right_child(table, node, word.q)
        && right_child(table, node, word.r)
}

// Whether a record may have the child: the child's number is smaller, and where it is a record, its position is larger.
fn right_child(table: &Table, node: u64, child: u64) -> bool {
    child < node && (child < 2 || table.record(node).p < table.record(child).p)
}

// 26: a word is wrong.
fn check_roots(table: &Table) -> Result<(), Refusal> {
    let wrong = (0..table.root_words())
        .map(|i| table.root_place(i))
        .find(|place| !right_root(table, *place));
    Check::Root.refuse_at(wrong)
}

fn right_root(table: &Table, place: u64) -> bool {
    let word = table.word_at(place);
    let last = table.records().saturating_add(1);
    word.is(Kind::Root) && word.p == 0 && (1..=64).contains(&word.q) && (2..=last).contains(&word.r)
}

// 18: a record is a choice, and not monotone.
fn check_monotone(table: &Table) -> Result<(), Refusal> {
    let falling = table.nodes().find(|node| falls(table, table.record(*node)));
    Check::Monotone.refuse_at(falling.map(|node| table.place_of(node)))
}

// Whether a record is a choice, and some settling of all variables leads from lo to true and from hi to false.
fn falls(table: &Table, word: Word) -> bool {
    table.is_choice(word.p)
        && Set::every(table.variables()).map(Set).any(|settling| table.walk(word.r, settling)
            && !table.walk(word.q, settling))
}

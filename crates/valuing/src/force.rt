// The marks by position, and the arcs that are in force under them.
ghost use Rattle.std.specs.Prelude.{◌≡◌, ℕ, ◌≤◌, ◌<◌, cond, eqb, length, get_or};
ghost use Rattle.diagram.specs.Table.{choice_count};
ghost use Rattle.decoding.specs.Decoding.{variables_in};
ghost use Rattle.valuing.specs.Passes as passes;
ghost use Rattle.valuing.specs.Passes.{taken_marks, arcs_in_force};

use decoding::{is_choice_at, position_of};
use ordering::{HIGH_ARCS, LOW_ARCS};
use terms::{Node, Plan, Position};

// The mark at each position of the first v variables, `CHANCE` at a chance and after the last variable. The plan has one
// byte a choice, as check 21 asks.
pub fn marks_by_position(words: &[u32; 64], v: u8, plan: &[u8]) -> [u8; 64]
    requires { (v < 64) × (length plan.now ≡ choice_count (variables_in words.now v)) }
    ensures { result ≡ passes.marks_by_position (variables_in words.now v) plan.now }
{
    let mut marks = [Plan::CHANCE; 64];
    let mut choice = 0;
    for p in 0..v {
        if is_choice_at(words, Position::new(p)) {
            marks[usize::from(p)] = plan[choice];
            choice += 1;
        }
    }
    marks
}

// Marks by position, with open lines taken.
pub fn take_open(marks: &[u8; 64]) -> [u8; 64]
    ensures { result ≡ taken_marks marks.now }
{
    let mut taken = *marks;
    for mark in &mut taken {
        if *mark == Plan::OPEN {
            *mark = Plan::TAKEN;
        }
    }
    taken
}

// The weights of the arcs in force of the first n records, by the arcs' numbers: 0 for the hi arc of a line that is left, and for the
// lo arc of one that is taken. The positions are a table's, as `decode` leaves them, and so below 64.
pub fn in_force(
    n: usize,
    positions: &[u8; 256],
    marks: &[u8; 64],
    arcs: &[u64; 544],
    weights: &mut [u64; 544],
)
    requires { (n ≤ 254) × ((k : ℕ) → get_or positions.now k 0 < 64) }
    ensures { weights.new ≡ arcs_in_force positions.now marks.now arcs.now n weights.old }
{
    for k in 0..n {
        let mark = mark_at(marks, position_of(positions, Node::of_record(k)));
        weights[k + HIGH_ARCS] = weight_under(mark, Plan::LEFT, arcs[k + HIGH_ARCS]);
        weights[k + LOW_ARCS] = weight_under(mark, Plan::TAKEN, arcs[k + LOW_ARCS]);
    }
}

// The mark at a position, which is a table's, as `decode` leaves it, and so below 64.
pub fn mark_at(marks: &[u8; 64], at: Position) -> u8
    requires { at.0 < 64 }
    ensures { result ≡ get_or marks.now at.0 0 }
{
    marks[at.number()]
}

// The weight of an arc under a mark: 0 where the mark is the one that closes it.
fn weight_under(mark: u8, closing: u8, arc: u64) -> u64
    ensures { result ≡ cond (eqb mark closing) 0 arc }
{
    if mark == closing { 0 } else { arc }
}

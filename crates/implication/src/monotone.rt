// Check 18: at every choice record the low child implies the high one, under every assignment of the variables.
// A pair of nodes implies where both pairs that it leads to at the smaller position of the two do. So each choice record's pair
// is put on a stack, the pair on top is taken off and the two that it leads to are put on, unless they are known to imply at once
// or have been met, until the stack is empty, and a record is at fault where the pair of true and false is met. A pair leads to
// pairs at later positions, so that the stack has at most two pairs more than the table has variables.
ghost use Rattle.std.specs.Prelude.{◌≡◌, ◌+◌, ◌<◌, get_or};
ghost use Rattle.decoding.specs.Decoding.{table_in};
ghost use Rattle.implication.specs.Nodes.{Checkable, monotone_fault_in, asked_node, next, to_do, put_back, top_of, Started, Kept};
ghost use Rattle.steps.specs.Steps.{fault_of};

use crate::worklist::{Pair, Worklist};
use decoding::{Decoded, child_of, is_choice_at, position_of};
use terms::{Node, Position};

// Check 18, of a decoded table whose records are formed, as check 17 leaves them. Not inlined, so that its pairs are on the stack no
// longer than it lasts.
#[inline(never)]
pub fn monotone_fault(t: &Decoded) -> Option<usize>
    requires { Checkable t.now }
    ensures { result ≡ fault_of (monotone_fault_in (table_in t.now)) }
{
    let end = Position::new(t.variables);
    let mut work = Worklist::new();
    for k in 0..t.records {
        let low = asked_node(t, &t.low, k);
        let high = asked_node(t, &t.high, k);
        work.meet(low, high);
        drain(&mut work, t);
        if work.has_met(Node::new(1), Node::new(0)) {
            return Some(end.word() + k);
        }
    }
    None
}

// The node that check 18 asks about at record k, the low or the high one by the children lent: the record's child where its variable
// is a choice, and else false, which implies itself.
fn asked_node(t: &Decoded, children: &[u8; 256], k: usize) -> Node
    requires { (k < 254) × (get_or t.now.positions (k + 2) 0 < 64) }
    ensures { result.0 ≡ asked_node t.now.words t.now.positions children.now k }
{
    let node = Node::of_record(k);
    if is_choice_at(&t.words, position_of(&t.positions, node)) {
        child_of(children, node)
    } else {
        Node::new(0)
    }
}

// Expands every pair of the stack, and those that are met on the way, until the stack is empty.
fn drain(work: &mut Worklist, t: &Decoded)
    requires { Started t.now work.old }
    ensures kept { Kept t.now work.old work.new }
    ensures empty { work.new.depth ≡ 0 }
{
    while let Some(top) = work.pop() {
        expand(work, t, top);
    }
}

// Meets the two pairs that the pair just taken off leads to.
fn expand(work: &mut Worklist, t: &Decoded, top: Pair)
    requires started { Started t.now (put_back work.old) }
    requires top { top ≡ top_of work.old }
    ensures stack { Kept t.now (put_back work.old) work.new }
    ensures left { to_do work.new ≡ to_do work.old }
{
    let m = top.first;
    let n = top.second;
    let high_m = step(&t.positions, &t.high, m, n);
    let high_n = step(&t.positions, &t.high, n, m);
    let low_m = step(&t.positions, &t.low, m, n);
    let low_n = step(&t.positions, &t.low, n, m);
    work.meet(high_m, high_n);
    work.meet(low_m, low_n);
}

// Where m of the pair m, n leads to: its child, unless n stands at a smaller position. The child is read in any case, so that
// there is no branch.
fn step(positions: &[u8; 256], children: &[u8; 256], m: Node, n: Node) -> Node
    ensures { result.0 ≡ next positions.now children.now m.0 n.0 }
{
    let child = child_of(children, m);
    if position_of(positions, m) <= position_of(positions, n) {
        child
    } else {
        m
    }
}

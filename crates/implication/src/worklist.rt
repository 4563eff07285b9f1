// The pairs of nodes that check 18 comes to.
ghost use Rattle.std.specs.Prelude.{◌≡◌, length, replicate, eqb, MatchOption};
ghost use Rattle.implication.specs.Nodes.{is_known, cell, Room, Adds, put_back, top_of};

use terms::Node;

// Two nodes, of which the first may imply the second.
#[derive(Clone, Copy)]
pub struct Pair {
    pub first: Node,
    pub second: Node,
}

// The pairs that have been met, as bits, 256 for each first node, and those of them that are still to be expanded, on a stack.
#[derive(Drop)]
pub struct Worklist {
    pub met: [u64; 1024],
    pub stack: [Pair; 64],
    pub depth: usize,
}

impl Worklist {
    // Nothing has been met.
    pub(crate) fn new() -> Worklist
        ensures met { result.met ≡ replicate 1024 0 }
        ensures stack { length result.stack ≡ 64 }
        ensures depth { result.depth ≡ 0 }
    {
        let ends = Pair {
            first: Node::new(0),
            second: Node::new(0),
        };
        Worklist {
            met: [0; 1024],
            stack: [ends; 64],
            depth: 0,
        }
    }

    // Takes the pair on top off the stack, if there is one.
    pub(crate) fn pop(&mut self) -> Option<Pair>
        requires { Room self.old }
        ensures { MatchOption result ((self.old.depth ≡ 0) × (self.new ≡ self.old)) (λ p. (self.old ≡ put_back self.new) × (p ≡ top_of self.new)) }
    {
        if self.depth == 0 {
            return None;
        }
        self.depth -= 1;
        Some(self.stack[self.depth])
    }

    // Puts a pair on top of the stack, unless it is known to imply or has been met before.
    pub(crate) fn meet(&mut self, m: Node, n: Node)
        requires { Room self.old }
        ensures { Adds self.old self.new m.0 n.0 }
    {
        if self.has_met(m, n) {
            return;
        }
        self.stack[self.depth] = Pair {
            first: m,
            second: n,
        };
        self.depth += 1;
        self.met[m.number() * 4 + n.number() / 64] |= 1 << (n.number() % 64);
    }

    // Whether a pair is known to imply at once or its bit says that it has been met.
    pub(crate) fn has_met(&self, m: Node, n: Node) -> bool
        ensures { result ≡ eqb (cell self.now.met m.0 n.0) 1 }
    {
        is_known(m, n) || (self.met[m.number() * 4 + n.number() / 64] >> (n.number() % 64)) % 2 == 1
    }
}

// Whether a pair is known to imply at once: false implies every node, every node implies true, and each itself.
#[tactic(auto, unfolding(crate::specs::Nodes::is_known))]
fn is_known(m: Node, n: Node) -> bool
    ensures { result ≡ is_known m.0 n.0 }
{
    m.number() == 0 || n.number() == 1 || m == n
}

// A plan's bound, the score with all open lines taken, and what it is computed from.
ghost use Rattle.std.specs.Prelude.{◌≡◌, ◌≤◌, ◌^◌};
ghost use Rattle.decoding.specs.Decoding.{Sound};
ghost use Rattle.valuing.specs.Passes.{root_sum};
ghost use Rattle.valuing.specs.Valued.{Legal, Blank, Valued};

use crate::force::{in_force, marks_by_position, take_open};
use crate::pass::{pass_up, value_of};
use decoding::Decoded;
use terms::Node;
use weighing::{Roots, lay_out};

// The weights of a table's arcs and its roots, a plan's marks by position, and with all open lines taken the weights of the arcs in
// force, the values of the nodes, and the plan's bound.
#[derive(Clone, Copy)]
pub struct PlanValue {
    pub arcs: [u64; 544],
    pub weights: [u64; 544],
    pub values: [u64; 256],
    pub marks: [u8; 64],
    pub roots: Roots,
    pub bound: u64,
}

impl PlanValue {
    // Zeros, for `value_plan` to fill.
    pub const ZEROS: PlanValue = PlanValue {
        arcs: [0; 544],
        weights: [0; 544],
        values: [0; 256],
        marks: [0; 64],
        roots: Roots {
            count: 0,
            nodes: [0; 16],
            weights: [0; 16],
        },
        bound: 0,
    };
}

// Values an accepted table and a plan that checks 21 and 22 let through, into zeros.
pub fn value_plan(table: &Decoded, plan: &[u8], valued: &mut PlanValue)
    requires sound { Sound table.now }
    requires plan { Legal table.now plan.now }
    requires zeros { Blank valued.old }
    ensures { Valued table.now plan.now valued.new }
{
    valued.roots = lay_out(table, &mut valued.arcs);
    valued.marks = marks_by_position(&table.words, table.variables, plan);
    let taken = take_open(&valued.marks);
    in_force(
        table.records,
        &table.positions,
        &taken,
        &valued.arcs,
        &mut valued.weights,
    );
    pass_up(
        table.records,
        &table.high,
        &table.low,
        &valued.weights,
        &mut valued.values,
    );
    valued.bound = root_sum(&valued.roots, &valued.values);
}

// The sum, over the roots, of what comes to a root times its node's value. It fits, and there are at most 16 roots: `value_plan`
// hands in those of an accepted table and the values under a plan, and the sum is a score, no more than B.
pub fn root_sum(roots: &Roots, values: &[u64; 256]) -> u64
    requires { (roots.now.count ≤ 16) × (root_sum roots.now values.now roots.now.count ≤ 2 ^ 56) }
    ensures { result ≡ root_sum roots.now values.now roots.now.count }
{
    let mut sum = 0;
    for i in 0..roots.count {
        sum += roots.weights[i] * value_of(values, Node::new(roots.nodes[i]));
    }
    sum
}

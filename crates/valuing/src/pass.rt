// The pass up the records: the value of every node.
ghost use Rattle.std.specs.Prelude.{◌≡◌, ◌≤◌, ◌<◌, ◌^◌, get_or};
ghost use Rattle.arrays.specs.Arrays.{over};
ghost use Rattle.valuing.specs.Passes.{arcs_of, Fits, pass_up, node_value};

use decoding::child_of;
use ordering::LOW_OFFSET;
use terms::Node;

// The values of the ends and of the first n records' nodes, each from its children's by two products and a sum. That every
// value fits, the weights in force of a table show: no value is above the product of b from its node's position on, which is at most
// 2^56.
pub fn pass_up(
    n: usize,
    high: &[u8; 256],
    low: &[u8; 256],
    weights: &[u64; 544],
    values: &mut [u64; 256],
)
    requires { (n ≤ 254) × Fits (arcs_of high.now low.now weights.now) n }
    ensures { values.new ≡ over (pass_up (arcs_of high.now low.now weights.now) n) values.old }
{
    values[0] = 0;
    values[1] = 1;
    for k in 0..n {
        values[k + 2] = node_value(high, low, weights, values, Node::of_record(k));
    }
}

// The value of a node from those of its children.
fn node_value(
    high: &[u8; 256],
    low: &[u8; 256],
    weights: &[u64; 544],
    values: &[u64; 256],
    node: Node,
) -> u64
    requires { node_value (arcs_of high.now low.now weights.now) node.0 values.now ≤ 2 ^ 56 }
    ensures { result ≡ node_value (arcs_of high.now low.now weights.now) node.0 values.now }
{
    let n = node.number();
    let h = child_of(high, node).number();
    let l = child_of(low, node).number();
    weights[n] * values[h] + weights[n + LOW_OFFSET] * values[l]
}

// The value of a node.
pub fn value_of(values: &[u64; 256], node: Node) -> u64
    ensures { result ≡ get_or values.now node.0 0 }
{
    values[node.number()]
}

// What leaving its line loses of each node's value.
ghost use Rattle.std.specs.Prelude.{◌≡◌, ℕ, ◌+◌, ◌≤◌, ◌<◌};
ghost use Rattle.valuing.specs.Passes.{loss_of, LossFits, losses_of};

use crate::pass::value_of;
use decoding::child_of;
use ordering::LOW_OFFSET;
use terms::Node;

// The losses of the first n records' nodes. The values are those of a monotone table under a full plan, and so no loss is below
// zero.
pub fn losses(n: usize, low: &[u8; 256], arcs: &[u64; 544], values: &[u64; 256]) -> [u64; 256]
    requires { (n ≤ 254) × ((k : ℕ) → k < n → LossFits low.now arcs.now values.now (k + 2)) }
    ensures { result ≡ losses_of low.now arcs.now values.now n }
{
    let mut losses = [0; 256];
    for k in 0..n {
        losses[k + 2] = loss_of(low, arcs, values, Node::of_record(k));
    }
    losses
}

// What leaving its line loses of a node's value: all but what comes by the lo arc. The arcs have the table's own weights, not those in
// force.
pub fn loss_of(low: &[u8; 256], arcs: &[u64; 544], values: &[u64; 256], node: Node) -> u64
    requires { LossFits low.now arcs.now values.now node.0 }
    ensures { result ≡ loss_of low.now arcs.now values.now node.0 }
{
    let m = node.number();
    let child = child_of(low, node);
    let left = arcs[m + LOW_OFFSET] * value_of(values, child);
    values[m] - left
}

// The pass down the records: the path weight of every node.
ghost use Rattle.std.specs.Prelude.{◌≡◌, ℕ, ◌+◌, ◌≤◌, ◌<◌, ◌^◌, get_or};
ghost use Rattle.valuing.specs.Passes.{arcs_of};
ghost use Rattle.derivatives.specs.Down as down;
ghost use Rattle.derivatives.specs.Down.{added, entered_by, RootFits, hand_on, HandsOn, Budget};

use decoding::child_of;
use ordering::LOW_OFFSET;
use terms::Node;
use weighing::Roots;

// Hands the path weights of the first n records' nodes on to their children, the last one first, along the arcs in force. Those to
// begin with may be any that stay within their budget. `two_passes` begins with what comes to an accepted table's roots: times the
// product of b from each node's position on it comes to B, which is at most 2^56.
pub fn pass_down(
    n: usize,
    high: &[u8; 256],
    low: &[u8; 256],
    weights: &[u64; 544],
    paths: &mut [u64; 256],
)
    requires { (n ≤ 254) × ((scales : ℕ → ℕ) × Budget (arcs_of high.now low.now weights.now) n scales paths.old) }
    ensures { paths.new ≡ down.pass_down (arcs_of high.now low.now weights.now) n paths.old }
{
    for k in (0..n).rev() {
        hand_on(high, low, weights, paths, Node::of_record(k));
    }
}

// Adds what comes to the roots to the path weights of their nodes. The sums fit: `two_passes` hands in zeros and the roots of an
// accepted table, which bring at most B.
pub fn enter(roots: &Roots, paths: &mut [u64; 256])
    requires { (roots.now.count ≤ 16) × ((i : ℕ) → i < roots.now.count → RootFits roots.now paths.old i) }
    ensures { paths.new ≡ entered_by roots.now roots.now.count paths.old }
{
    for i in 0..roots.count {
        add(paths, Node::new(roots.nodes[i]), roots.weights[i]);
    }
}

// Hands a node's path weight on to its two children. What they are handed fits.
fn hand_on(
    high: &[u8; 256],
    low: &[u8; 256],
    weights: &[u64; 544],
    paths: &mut [u64; 256],
    node: Node,
)
    requires { HandsOn (arcs_of high.now low.now weights.now) node.0 paths.old }
    ensures { paths.new ≡ hand_on (arcs_of high.now low.now weights.now) node.0 paths.old }
{
    let m = node.number();
    let w = paths[m];
    add(paths, child_of(high, node), w * weights[m]);
    add(paths, child_of(low, node), w * weights[m + LOW_OFFSET]);
}

// Adds to the path weight of a node. The sum fits.
fn add(paths: &mut [u64; 256], node: Node, x: u64)
    requires { get_or paths.old node.0 0 + x < 2 ^ 64 }
    ensures { paths.new ≡ added paths.old node.0 x }
{
    paths[node.number()] += x;
}

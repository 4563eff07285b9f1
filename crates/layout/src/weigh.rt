// The weights of the roots' arcs, the cells that arcs start from, and the losses of the nodes by rank.
ghost use Rattle.std.specs.Prelude.{◌≡◌, ℕ, ◌≤◌, ◌<◌, length, get_or};
ghost use Rattle.layout.specs.Weighed.{brought_by, NodesWithin, node_cells, arc_cells, Picked, by_rank};

use layers::{HIGH_CELLS, LOW_CELLS, LaidArcs, ROOT_CELL, Rank};
use ordering::{Joined, LOW_OFFSET, ROOT_ARCS};
use terms::Node;
use weighing::Roots;

// The cell that an arc starts from where it is no node's.
const ROOT_SOURCE: u16 = ROOT_CELL as u16;

// The weights of the roots' arcs, each what comes to the root. There are at most 16: `lay_arcs` hands in an accepted table's.
pub fn weigh_roots(roots: &Roots, weights: &mut [u64; 544])
    requires { roots.now.count ≤ 16 }
    ensures { weights.new ≡ brought_by roots.now weights.old }
{
    let end = ROOT_ARCS + roots.count;
    weights[ROOT_ARCS..end].copy_from_slice(&roots.weights[..roots.count]);
}

// The cells of the arcs of the first n nodes of the order, by the arcs' numbers; every other number has the cell of the roots'
// arcs. `lay_arcs` hands in the order of an accepted table's nodes, as `order_records` leaves it.
pub fn number_cells(n: usize, order: &[u16; 1040]) -> [u16; 544]
    requires { (n ≤ 254) × NodesWithin n order.now }
    ensures { result ≡ arc_cells order.now n }
{
    let mut cells = [ROOT_SOURCE; 544];
    for i in 0..n {
        let rank = Rank::new(i);
        let node = node_at(order, rank);
        number_node(&mut cells, node, rank);
    }
    cells
}

// Writes the cells of the arcs of the node at a rank.
fn number_node(cells: &mut [u16; 544], node: Node, rank: Rank)
    requires { rank.0 < 254 }
    ensures { cells.new ≡ node_cells cells.old node.0 rank.0 }
{
    let m = node.number();
    let i = rank.number();
    cells[m] = (i + HIGH_CELLS) as u16;
    cells[m + LOW_OFFSET] = (i + LOW_CELLS) as u16;
}

// For each arc of a list the cell that it starts from and its weight, beside where the arcs into each of n nodes begin. The list has
// arcs' numbers alone, as `order_arcs` leaves it.
pub fn pick_arcs(n: usize, listed: &Joined, cells: &[u16; 544], weights: &[u64; 544]) -> LaidArcs
    requires { (n ≤ 254) × (get_or listed.now.starts n 0 ≤ 1040) × ((j : ℕ) → get_or listed.now.list j 0 < 544) }
    ensures { Picked n listed.now cells.now weights.now result }
{
    let mut made = LaidArcs {
        starts: listed.starts,
        sources: [0u16; 1040],
        arcs: [0u64; 1040],
    };
    let count = usize::from(listed.starts[n]);
    for j in 0..count {
        let a = usize::from(listed.list[j]);
        made.sources[j] = cells[a];
        made.arcs[j] = weights[a];
    }
    made
}

// By rank the losses of the first n nodes of the order, from those by node; zeros after. `arrange` hands in the order of an
// accepted table's nodes, as `order_records` leaves it.
pub fn losses_by_rank(n: usize, order: &[u16; 1040], losses: &[u64; 256]) -> [u64; 256]
    requires { (n ≤ 254) × NodesWithin n order.now }
    ensures { result ≡ by_rank order.now losses.now n }
{
    let mut by_rank = [0u64; 256];
    for i in 0..n {
        let m = node_at(order, Rank::new(i)).number();
        by_rank[i] = losses[m];
    }
    by_rank
}

// The node at a rank. Whoever calls has a rank of the order.
fn node_at(order: &[u16; 1040], rank: Rank) -> Node
    requires { (rank.0 < 1040) × (get_or order.now rank.0 0 < 256) }
    ensures { result.0 ≡ get_or order.now rank.0 0 }
{
    let i = rank.number();
    Node::new(order[i] as u8)
}

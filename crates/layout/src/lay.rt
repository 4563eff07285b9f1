// The arcs of a table laid out for a search.
ghost use Rattle.std.specs.Prelude.{ℕ, ◌≤◌, ◌<◌, length, get_or};
ghost use Rattle.ordering.specs.Chains.{joined};
ghost use Rattle.layout.specs.Weighed.{arcs_at_rank, NodesWithin, LaidTable};

use crate::weigh::{number_cells, pick_arcs, weigh_roots};
use decoding::Decoded;
use layers::LaidArcs;
use ordering::order_arcs;
use valuing::{PlanValue, in_force};

// Lays out the arcs into the nodes of the order: where each node's begin, and for each arc the cell that it starts from and its
// weight, 0 where the marks close the arc. `arrange` hands in an accepted table, with its nodes as `order_records` puts them in
// order.
pub fn lay_arcs(table: &Decoded, valued: &PlanValue, order: &[u16; 1040]) -> LaidArcs
    requires nodes { (table.now.records ≤ 254) × (valued.now.roots.count ≤ 16) × NodesWithin table.now.records order.now }
    requires positions { (k : ℕ) → get_or table.now.positions k 0 < 64 }
    requires room { length (joined (arcs_at_rank table.now valued.now.roots order.now) table.now.records) ≤ 1040 }
    ensures { LaidTable table.now valued.now.roots valued.now.arcs valued.now.marks order.now result }
{
    let listed = order_arcs(
        table.records,
        &table.high,
        &table.low,
        valued.roots.count,
        &table.nodes,
        order,
    );
    let mut weights = [0u64; 544];
    in_force(
        table.records,
        &table.positions,
        &valued.marks,
        &valued.arcs,
        &mut weights,
    );
    weigh_roots(&valued.roots, &mut weights);
    let cells = number_cells(table.records, order);
    pick_arcs(table.records, &listed, &cells, &weights)
}

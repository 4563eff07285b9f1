// The weights of a table's arcs and roots, laid out once for all plans.
ghost use Rattle.std.specs.Prelude.{◌≡◌};
ghost use Rattle.decoding.specs.Decoding.{table_in, Sound};
ghost use Rattle.weighing.specs.Weights.{table_arcs, roots_of};

use crate::arcs::{arc_weight, products, shares_by_position};
use crate::roots::{Roots, root_weights};
use decoding::Decoded;
use ordering::{HIGH_ARCS, LOW_ARCS};
use terms::Node;

// Writes the weights of the arcs of an accepted table's records, by the arcs' numbers, and answers the roots.
pub fn lay_out(table: &Decoded, arcs: &mut [u64; 544]) -> Roots
    requires { Sound table.now }
    ensures arcs { arcs.new ≡ table_arcs (table_in table.now) table.now.records arcs.old }
    ensures roots { result ≡ roots_of (table_in table.now) }
{
    let products = products(&table.words, table.variables);
    let shares = shares_by_position(&table.words, table.variables);
    for k in 0..table.records {
        let node = Node::of_record(k);
        arcs[k + HIGH_ARCS] = arc_weight(
            &products,
            &shares.high,
            &table.positions,
            &table.high,
            node,
        );
        arcs[k + LOW_ARCS] = arc_weight(&products, &shares.low, &table.positions, &table.low, node);
    }
    let weights = root_weights(table, &products);
    let nodes = table.nodes;
    Roots {
        count: table.roots,
        nodes,
        weights,
    }
}

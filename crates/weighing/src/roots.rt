// What comes to the roots of a table.
ghost use Rattle.std.specs.Prelude.{◌≡◌, ℕ, ◌/◌, ◌≤◌, ◌<◌, get_or};
ghost use Rattle.weighing.specs.Weights.{root_weights_by, RootWeighable};

use decoding::{Decoded, position_of};
use terms::{Node, Position};

// The roots of a table: how many they are, and the node of each and what comes to it, its reward times the product of b before the
// node; zeros after the last one.
#[derive(Clone, Copy)]
pub struct Roots {
    pub count: usize,
    pub nodes: [u8; 16],
    pub weights: [u64; 16],
}

// What comes to the roots of a table, by the products of b, and zeros after. `lay_out` has an accepted table.
pub fn root_weights(table: &Decoded, products: &[u64; 64]) -> [u64; 16]
    requires few { table.now.roots ≤ 16 }
    requires weighable { (i : ℕ) → i < table.now.roots → RootWeighable table.now.nodes table.now.rewards table.now.positions products.now i }
    ensures { result ≡ root_weights_by table.now.nodes table.now.rewards table.now.positions products.now table.now.roots }
{
    let mut weights = [0; 16];
    for i in 0..table.roots {
        let at = position_of(&table.positions, Node::new(table.nodes[i]));
        weights[i] = table.rewards[i] * product_before(products, at);
    }
    weights
}

// The product of b before a position.
fn product_before(products: &[u64; 64], at: Position) -> u64
    requires { (at.0 < 64) × (0 < get_or products.now at.0 0) }
    ensures { result ≡ get_or products.now 0 0 / get_or products.now at.0 0 }
{
    products[0] / products[at.number()]
}

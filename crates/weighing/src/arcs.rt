// The weights of a table's arcs: computed once for a table, whatever the plan.
ghost use Rattle.std.specs.Prelude.{◌≡◌, [], ◌∷◌, ◌+◌, ◌*◌, ◌/◌, ◌≤◌, ◌<◌, ◌^◌, get_or};
ghost use Rattle.diagram.specs.Table.{variable_of, scale_of};
ghost use Rattle.diagram.specs.Validity.{BoundedShares};
ghost use Rattle.decoding.specs.Decoding.{variables_in};
ghost use Rattle.weighing.specs.Value.{high_share, low_share};
ghost use Rattle.weighing.specs.Weights as weights;
ghost use Rattle.weighing.specs.Weights.{high_shares, low_shares, arc_weight, Weighable};

use decoding::{child_of, position_of};
use terms::{Kind, Node, Position, field_q, field_r, has_kind};

// The product of b from each position on, of the first v variables. `lay_out` has an accepted table's words, whose product is at most
// 2^56.
pub fn products(words: &[u32; 64], v: u8) -> [u64; 64]
    requires { (v ≤ 60) × BoundedShares (variables_in words.now v) × (scale_of (variables_in words.now v) ≤ 2 ^ 56) }
    ensures { result ≡ weights.products (variables_in words.now v) }
{
    let mut products = [1; 64];
    for p in (0..usize::from(v)).rev() {
        products[p] = products[p + 1] * scale_of(words[p]);
    }
    products
}

// b of a variable, and 1 where it is a choice.
fn scale_of(w: u32) -> u64
    ensures { result ≡ scale_of (variable_of w ∷ []) }
{
    if has_kind(w, Kind::Choice) {
        1
    } else {
        u64::from(field_r(w))
    }
}

// The shares of the hi arcs and of the lo arcs, by position.
#[derive(Clone, Copy)]
pub struct SharesByPosition {
    pub high: [u64; 64],
    pub low: [u64; 64],
}

// The shares of the arcs at each position of the first v variables, read once for all records; 0 and 1 past the last variable.
// `lay_out` has an accepted table's words, which are at most 60.
pub fn shares_by_position(words: &[u32; 64], v: u8) -> SharesByPosition
    requires { v ≤ 60 }
    ensures high { result.high ≡ high_shares (variables_in words.now v) }
    ensures low { result.low ≡ low_shares (variables_in words.now v) }
{
    let mut high = [0; 64];
    let mut low = [1; 64];
    for p in 0..usize::from(v) {
        high[p] = high_share(words[p]);
        low[p] = low_share(words[p]);
    }
    SharesByPosition { high, low }
}

// The weight of a record's hi arc, or of its lo arc, from the products, the shares of these arcs, and the children that they
// lead to. `lay_out` has the arrays of an accepted table.
pub fn arc_weight<'a>(
    products: &[u64; 64],
    shares: &[u64; 64],
    positions: &'a [u8; 256],
    children: &'a [u8; 256],
    node: Node,
) -> u64
    requires { Weighable products.now shares.now positions.now children.now node.0 }
    ensures { result ≡ arc_weight products.now shares.now positions.now children.now node.0 }
{
    let at = position_of(positions, node);
    let to = position_of(positions, child_of(children, node));
    arc(products, shares[at.number()], at, to)
}

// A share, times b of each variable between two positions: the quotient is exact. Most arcs lead to the next position, and
// need no division.
fn arc(products: &[u64; 64], share: u64, from: Position, to: Position) -> u64
    requires { (from.0 < 63) × (to.0 < 64) × (0 < get_or products.now to.0 0) × (share * (get_or products.now (from.0 + 1) 0 / get_or products.now to.0 0) ≤ 2 ^ 56) }
    ensures { result ≡ share * (get_or products.now (from.0 + 1) 0 / get_or products.now to.0 0) }
{
    let i = from.number() + 1;
    let j = to.number();
    if i == j {
        return share;
    }
    share * (products[i] / products[j])
}

// The share of a variable's hi arc: a of a chance, 1 of a choice.
fn high_share(w: u32) -> u64
    ensures { result ≡ high_share (variable_of w) 1 }
{
    if has_kind(w, Kind::Choice) {
        1
    } else {
        u64::from(field_q(w))
    }
}

// The share of a variable's lo arc: b-a of a chance, 1 of a choice.
fn low_share(w: u32) -> u64
    ensures { result ≡ low_share (variable_of w) 2 }
{
    if has_kind(w, Kind::Choice) {
        1
    } else {
        u64::from(field_r(w).saturating_sub(field_q(w)))
    }
}

// The walk of a visit over one layer: from the line before to an open line, and over that line's own nodes.
ghost use Rattle.std.specs.Prelude.{◌≡◌, ◌<◌, length};
ghost use Rattle.layers.specs.Layers.{put, layer_crossed, Crossable, OwnEnterable, own_entered, own_drop, layer_entered, layer_drop, line_left, LayerEnterable, LineLeavable};

use crate::arcs::LaidArcs;
use crate::cells::{HIGH_CELLS, LOW_CELLS};
use crate::ranks::{Layer, Rank};

// Enters the layer of an open line: the nodes before the line hand their weights on by both arcs, the line's own by their hi arcs, as
// if it were taken. Answers what leaving the line loses. The arcs are those of a layout, and the sums fit: `visit` hands them in.
pub fn enter_layer(
    arcs: &LaidArcs,
    losses: &[u64; 256],
    cells: &mut [u64; 512],
    layer: Layer,
) -> u64
    requires layer_enterable { LayerEnterable arcs.now losses.now layer cells.old }
    ensures drop { result ≡ layer_drop arcs.now losses.now layer cells.old }
    ensures cells { cells.new ≡ layer_entered arcs.now layer cells.old }
{
    cross(arcs, cells, layer);
    enter(arcs, losses, cells, layer)
}

// The nodes of a layer before the line hand on what comes to them.
fn cross(arcs: &LaidArcs, cells: &mut [u64; 512], layer: Layer)
    requires { Crossable arcs.now layer cells.old }
    ensures { cells.new ≡ layer_crossed arcs.now layer cells.old }
{
    let from = layer.first.number();
    let to = layer.own.number();
    for i in from..to {
        let rank = Rank::new(i);
        let w = arcs.inflow(cells, rank);
        put_both(cells, rank, w, w);
    }
}

// The nodes of an open line hand on by their hi arcs what comes to them. Answers what leaving the line loses.
fn enter(arcs: &LaidArcs, losses: &[u64; 256], cells: &mut [u64; 512], layer: Layer) -> u64
    requires { OwnEnterable arcs.now losses.now layer cells.old }
    ensures drop { result ≡ own_drop arcs.now losses.now layer cells.old }
    ensures cells { cells.new ≡ own_entered arcs.now layer cells.old }
{
    let from = layer.own.number();
    let to = layer.next.number();
    let mut drop = 0;
    for i in from..to {
        let rank = Rank::new(i);
        let w = arcs.inflow(cells, rank);
        put_both(cells, rank, w, 0);
        drop += w * losses[i];
    }
    drop
}

// Leaves the line of a layer: what its nodes have handed on by their hi arcs goes by their lo arcs. `visit` hands in the ranks of a
// layout.
pub fn leave_line(cells: &mut [u64; 512], layer: Layer)
    requires { LineLeavable layer }
    ensures { cells.new ≡ line_left layer cells.old }
{
    let from = layer.own.number();
    let to = layer.next.number();
    for i in from..to {
        let w = cells[i + HIGH_CELLS];
        put_both(cells, Rank::new(i), 0, w);
    }
}

// Writes the two cells of the node at a rank.
fn put_both(cells: &mut [u64; 512], rank: Rank, high: u64, low: u64)
    requires { rank.0 < 254 }
    ensures { cells.new ≡ put cells.old rank.0 high low }
{
    let i = rank.number();
    cells[i + HIGH_CELLS] = high;
    cells[i + LOW_CELLS] = low;
}

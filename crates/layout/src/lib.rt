// A table laid out for a search from a plan, by value: made once, and searched as often as one likes.
#![tactic(auto)]

mod lay;
mod weigh;

ghost use Rattle.decoding.specs.Decoding.{table_in, Sound};
ghost use Rattle.valuing.specs.Valued.{Legal};
ghost use Rattle.layout.specs.Layout.{LaidOut, EveryCell};

use decoding::Decoded;
use lay::lay_arcs;
use layers::LaidArcs;
use ordering::order_records;
use valuing::{PlanValue, losses, value_plan};
use weigh::losses_by_rank;

// What does not change during a search: the plan's bound; by position how many nodes stand before it; the arcs; and by rank what leaving
// the node's line loses.
#[derive(Clone, Copy)]
pub struct Layout {
    pub bound: u64,
    pub ends: [u16; 256],
    pub arcs: LaidArcs,
    pub losses: [u64; 256],
}

// Lays out an accepted table for searches from a plan that the checks 21 and 22 let through: values the plan, puts nodes and arcs in
// order, and weighs what leaving a line loses at each of its nodes. Not inlined, so that what it works with is off the stack when the
// visits begin.
#[inline(never)]
pub fn arrange(table: &Decoded, plan: &[u8]) -> Layout
    requires sound { Sound table.now }
    requires plan { Legal table.now plan.now }
    ensures laid { LaidOut (table_in table.now) plan.now result }
    ensures cells { EveryCell table.now plan.now result }
{
    let mut valued = PlanValue::ZEROS;
    value_plan(table, plan, &mut valued);
    let nodes = order_records(table.records, table.variables, &table.positions);
    let lost = losses(table.records, &table.low, &valued.arcs, &valued.values);
    Layout {
        bound: valued.bound,
        ends: nodes.starts,
        arcs: lay_arcs(table, &valued, &nodes.list),
        losses: losses_by_rank(table.records, &nodes.list, &lost),
    }
}

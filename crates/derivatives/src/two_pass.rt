// The two passes of a plan: its top and its drops.
ghost use Rattle.std.specs.Prelude.{◌≡◌, replicate};
ghost use Rattle.diagram.specs.Plans.{upper_bound, derivatives};
ghost use Rattle.decoding.specs.Decoding.{table_in, Sound};
ghost use Rattle.arrays.specs.Arrays.{over};
ghost use Rattle.valuing.specs.Valued.{Legal};

use crate::down::{enter, pass_down};
use crate::drops::{by_choice, drops_by_position};
use decoding::Decoded;
use valuing::{PlanValue, value_plan};

// The top of a plan and the drops of its choices, by choice number; the cells after the last choice are 0.
#[derive(Clone, Copy)]
pub struct Sweep {
    pub bound: u64,
    pub drops: [u64; 20],
}

// The top and the drops of an accepted table and a plan that the checks 21 and 22 let through: one pass up gives the values of the
// nodes, one pass down their path weights, from what the roots bring.
pub fn two_passes(table: &Decoded, plan: &[u8]) -> Sweep
    requires sound { Sound table.now }
    requires plan { Legal table.now plan.now }
    ensures bound { result.bound ≡ upper_bound (table_in table.now) plan.now }
    ensures drops { result.drops ≡ over (derivatives (table_in table.now) plan.now) (replicate 20 0) }
{
    let mut valued = PlanValue::ZEROS;
    value_plan(table, plan, &mut valued);
    let mut paths = [0; 256];
    enter(&valued.roots, &mut paths);
    pass_down(
        table.records,
        &table.high,
        &table.low,
        &valued.weights,
        &mut paths,
    );
    let drops = drops_by_position(table, &valued, &paths);
    Sweep {
        bound: valued.bound,
        drops: by_choice(&table.choice_positions[..table.choices], &drops),
    }
}

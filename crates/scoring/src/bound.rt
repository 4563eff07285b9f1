// The bound of a plan.
ghost use Rattle.std.specs.Prelude.{◌≡◌};
ghost use Rattle.diagram.specs.Plans.{upper_bound};
ghost use Rattle.decoding.specs.Decoding.{table_in, Sound};
ghost use Rattle.valuing.specs.Valued.{Legal};

use decoding::Decoded;
use valuing::{PlanValue, value_plan};

// The score with all open lines taken, of an accepted table and a plan that checks 21 and 22 let through. Not inlined, so that its arrays
// are not on the stack while the file is read.
#[inline(never)]
pub fn upper_bound(table: &Decoded, plan: &[u8]) -> u64
    requires sound { Sound table.now }
    requires plan { Legal table.now plan.now }
    ensures { result ≡ upper_bound (table_in table.now) plan.now }
{
    let mut valued = PlanValue::ZEROS;
    value_plan(table, plan, &mut valued);
    valued.bound
}

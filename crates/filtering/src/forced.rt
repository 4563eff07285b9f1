// The lines that a percentage forces.
ghost use Rattle.std.specs.Prelude.{◌≡◌, not, ◌&&◌, ℕ, ◌-◌, ◌≤◌, length, eqb, leb};
ghost use Rattle.diagram.specs.Table.{Table};
ghost use Rattle.filtering.specs.Forced.{Swept, Forces};

use passing::passes;
use terms::Plan;

// Whether a line is forced: it is open, and the top less its drop does not pass.
fn is_forced(mark: u8, least: u64, bound: u64, drop: u64) -> bool
    requires { drop ≤ bound }
    ensures { result ≡ (eqb mark 0 && not (leb least (bound - drop))) }
{
    mark == Plan::OPEN && !passes(least, bound - drop)
}

// Writes the plan with its forced lines taken, and answers how many they are. The top and the drops are the plan's, and
// `least` is the least score that passes.
pub fn force(plan: &[u8], least: u64, bound: u64, drops: &[u64; 20], out: &mut [u8]) -> usize
    requires swept { (t : Table) × (percent : ℕ) × Swept t plan.now percent least bound drops.now }
    requires sizes { length out.old ≡ length plan.now }
    ensures { (t : Table) (percent : ℕ) → Swept t plan.now percent least bound drops.now → Forces t plan.now percent result out.new }
{
    let mut count = 0;
    for (i, mark) in plan.iter().enumerate() {
        if is_forced(*mark, least, bound, drops[i]) {
            out[i] = Plan::TAKEN;
            count += 1;
        } else {
            out[i] = *mark;
        }
    }
    count
}

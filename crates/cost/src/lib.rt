// What a plan costs.
#![tactic(auto)]

ghost use Rattle.std.specs.Prelude.{◌≡◌, ◌≤◌, length};
ghost use Rattle.diagram.specs.Plans.{cost_of};

use terms::Plan;

// What a plan costs: the sum of the kits of the lines that it takes. Whoever calls has a plan of a table, of at most 20 lines.
pub fn cost_of(plan: &[u8], kits: &[u16; 20]) -> u64
    requires { length plan.now ≤ 20 }
    ensures { result ≡ cost_of kits.now plan.now }
{
    plan.iter()
        .zip(kits)
        .map(|(mark, kits)| if *mark == Plan::TAKEN {
            u64::from(*kits)
        } else {
            0
        })
        .sum()
}

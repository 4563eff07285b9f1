// Check 22: the marks of a plan.
ghost use Rattle.std.specs.Prelude.{◌≡◌, []};
ghost use Rattle.diagram.specs.Checks.{plan_mark_fault, full_plan_fault};
ghost use Rattle.steps.specs.Steps.{fault_of};

use terms::Plan;

// The first mark above 2.
pub fn mark_fault(plan: &[u8]) -> Option<usize>
    ensures { result ≡ fault_of (plan_mark_fault plan.now []) }
{
    plan.iter().position(|mark| Plan::LEFT < *mark)
}

// The first mark that is open or above 2.
pub fn full_plan_fault(plan: &[u8]) -> Option<usize>
    ensures { result ≡ fault_of (full_plan_fault plan.now []) }
{
    plan.iter()
        .position(|mark| Plan::LEFT < *mark || *mark == Plan::OPEN)
}

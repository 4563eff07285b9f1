// A check that finds a fault refuses, for its reason. A list of checks is then straight code with `?`, which can be cut and joined.
#![tactic(auto)]

mod numbered;

ghost use Rattle.std.specs.Prelude.{◌≡◌, Some, None, Ok, Err, MatchResult};

pub use numbered::{Numbered, and_then, and_within};
use terms::{Reason, Refusal};

// A check's step: it refuses the place that the check finds at fault, a word of the file or an index of the plan.
pub fn refuse_at(reason: Reason, fault: Option<usize>) -> Result<(), Refusal>
    ensures { MatchResult result (λ _. fault ≡ None) (λ r. (fault ≡ Some r.place) × (r.reason ≡ reason)) }
{
    match fault {
        Some(place) => Err(Refusal { reason, place }),
        None => Ok(()),
    }
}

// The step of a check of a number that has a limit: it hands on the number, or refuses the place where it first is above.
pub fn refuse_above(reason: Reason, bounded: Result<u64, usize>) -> Result<u64, Refusal>
    ensures { MatchResult result (λ x. bounded ≡ Ok x) (λ r. (bounded ≡ Err r.place) × (r.reason ≡ reason)) }
{
    bounded.map_err(|place| Refusal { reason, place })
}

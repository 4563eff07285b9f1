// The sweep: the top of a plan, and the drop of each choice.
#![tactic(auto)]

ghost use Rattle.std.specs.Prelude.{◌≡◌, ◌≤◌, length, take};
ghost use Rattle.diagram.specs.Services.{sweep_outcome, sweep_buffer};
ghost use Rattle.sweep.specs.Answer.{sweep_of};

use derivatives::two_passes;
use requesting::accept;
use terms::Refusal;

// The top of a plan, with the drop of each choice written to the buffer, or the first reason for turning the request away,
// which leaves the buffer as it was.
pub fn sweep(file: &[u8], plan: &[u8], drops: &mut [u64]) -> Result<u64, Refusal>
    ensures answer { sweep_of result drops.new ≡ sweep_outcome file.now plan.now (length drops.old) }
    ensures buffer { drops.new ≡ sweep_buffer file.now plan.now drops.old }
{
    let n = drops.len();
    let table = accept(file, plan, 0, 0, n)?;
    let swept = two_passes(&table, plan);
    write(&swept.drops, drops);
    Ok(swept.bound)
}

// Writes the drops of as many choices as the buffer has places. An accepted table has at most 20.
fn write(drops: &[u64; 20], out: &mut [u64])
    requires { length out.old ≤ 20 }
    ensures { out.new ≡ take (length out.old) drops.now }
{
    let n = out.len();
    out.copy_from_slice(&drops[..n]);
}

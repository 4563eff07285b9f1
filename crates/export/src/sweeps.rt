// The sweep for programs in other languages.
ghost use Rattle.std.specs.Prelude.{◌≡◌, length};
ghost use Rattle.diagram.specs.Services.{sweep_outcome, sweep_buffer};
ghost use Rattle.export.specs.Numbers.{number_of, place_of, value_of};

use crate::refusing::refuse;
use sweep::sweep;

// The top of a plan, with the drop of each choice written to the buffer.
pub fn jigbalo_sweep(
    file: &[u8],
    plan: &[u8],
    drops: &mut [u64],
    place: &mut u64,
    top: &mut u64,
) -> u64
    ensures result { result ≡ number_of (sweep_outcome file.now plan.now (length drops.old)) }
    ensures place { place.new ≡ place_of (sweep_outcome file.now plan.now (length drops.old)) place.old }
    ensures top { top.new ≡ value_of (λ a. a.upper_bound) (sweep_outcome file.now plan.now (length drops.old)) top.old }
    ensures drops { drops.new ≡ sweep_buffer file.now plan.now drops.old }
{
    match sweep(file, plan, drops) {
        Ok(x) => {
            *top = x;
            0
        }
        Err(r) => refuse(r, place),
    }
}

// The filter for programs in other languages.
ghost use Rattle.std.specs.Prelude.{◌≡◌, length};
ghost use Rattle.diagram.specs.Services.{filter_outcome, filter_buffer};
ghost use Rattle.export.specs.Numbers.{number_of, place_of, value_of};

use crate::refusing::refuse;
use filtering::filter;

// How many lines the percentage forces, with the plan that takes them written to the buffer.
pub fn jigbalo_filter(
    file: &[u8],
    plan: &[u8],
    percent: u32,
    out: &mut [u8],
    place: &mut u64,
    forced: &mut u64,
) -> u64
    ensures result { result ≡ number_of (filter_outcome file.now plan.now percent (length out.old)) }
    ensures place { place.new ≡ place_of (filter_outcome file.now plan.now percent (length out.old)) place.old }
    ensures forced { forced.new ≡ value_of (λ a. a.forced) (filter_outcome file.now plan.now percent (length out.old)) forced.old }
    ensures out { out.new ≡ filter_buffer file.now plan.now percent out.old }
{
    match filter(file, plan, percent, out) {
        Ok(n) => {
            *forced = n as u64;
            0
        }
        Err(r) => refuse(r, place),
    }
}

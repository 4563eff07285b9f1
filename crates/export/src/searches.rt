// The search for programs in other languages.
ghost use Rattle.std.specs.Prelude.{◌≡◌, length};
ghost use Rattle.diagram.specs.Services.{search_outcome, search_buffer};
ghost use Rattle.export.specs.Numbers.{number_of, place_of, value_of};

use crate::refusing::refuse;
use search::search;

// The score of the first candidate and the visits, with its marks written to the buffer.
pub fn jigbalo_search(
    file: &[u8],
    plan: &[u8],
    kits: u32,
    percent: u32,
    out: &mut [u8],
    place: &mut u64,
    score: &mut u64,
    visits: &mut u64,
) -> u64
    ensures result { result ≡ number_of (search_outcome file.now plan.now kits percent (length out.old)) }
    ensures place { place.new ≡ place_of (search_outcome file.now plan.now kits percent (length out.old)) place.old }
    ensures score { score.new ≡ value_of (λ a. a.score) (search_outcome file.now plan.now kits percent (length out.old)) score.old }
    ensures visits { visits.new ≡ value_of (λ a. a.visits) (search_outcome file.now plan.now kits percent (length out.old)) visits.old }
    ensures out { out.new ≡ search_buffer file.now plan.now kits percent out.old }
{
    match search(file, plan, kits, percent, out) {
        Ok(f) => {
            *score = f.score;
            *visits = f.visits;
            0
        }
        Err(r) => refuse(r, place),
    }
}

// The score for programs in other languages.
ghost use Rattle.std.specs.Prelude.{◌≡◌};
ghost use Rattle.diagram.specs.Services.{score_outcome};
ghost use Rattle.export.specs.Numbers.{number_of, place_of, value_of};

use crate::refusing::refuse;

// The score of a full plan.
pub fn jigbalo_score(file: &[u8], plan: &[u8], place: &mut u64, score: &mut u64) -> u64
    ensures result { result ≡ number_of (score_outcome file.now plan.now) }
    ensures place { place.new ≡ place_of (score_outcome file.now plan.now) place.old }
    ensures score { score.new ≡ value_of (λ a. a) (score_outcome file.now plan.now) score.old }
{
    match scoring::score(file, plan) {
        Ok(x) => {
            *score = x;
            0
        }
        Err(r) => refuse(r, place),
    }
}

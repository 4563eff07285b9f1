// Reading for programs in other languages.
ghost use Rattle.std.specs.Prelude.{◌≡◌};
ghost use Rattle.diagram.specs.Services.{read_outcome};
ghost use Rattle.export.specs.Numbers.{number_of, place_of, value_of};

use crate::refusing::refuse;
use reading::read;

// Reads a table: V, N, the number of choices and B.
pub fn jigbalo_read(
    file: &[u8],
    place: &mut u64,
    variables: &mut u64,
    records: &mut u64,
    choices: &mut u64,
    scale: &mut u64,
) -> u64
    ensures result { result ≡ number_of (read_outcome file.now) }
    ensures place { place.new ≡ place_of (read_outcome file.now) place.old }
    ensures variables { variables.new ≡ value_of (λ a. a.variables) (read_outcome file.now) variables.old }
    ensures records { records.new ≡ value_of (λ a. a.records) (read_outcome file.now) records.old }
    ensures choices { choices.new ≡ value_of (λ a. a.choices) (read_outcome file.now) choices.old }
    ensures scale { scale.new ≡ value_of (λ a. a.scale) (read_outcome file.now) scale.old }
{
    let t = match read(file) {
        Ok(t) => t,
        Err(r) => return refuse(r, place),
    };
    *variables = t.variables as u64;
    *records = t.records as u64;
    *choices = t.choices as u64;
    *scale = t.scale;
    0
}

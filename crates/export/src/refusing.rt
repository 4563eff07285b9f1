// A refusal handed back.
ghost use Rattle.std.specs.Prelude.{◌≡◌};
ghost use Rattle.terms.specs.Numbers.{reason_number};

use terms::Refusal;

// Hands back a refusal: its number is the result, its place is written.
pub(crate) fn refuse(r: Refusal, place: &mut u64) -> u64
    ensures number { result ≡ reason_number r.reason }
    ensures place { place.new ≡ r.place }
{
    *place = r.place as u64;
    u64::from(u8::from(r.reason))
}

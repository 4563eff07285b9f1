// The top four bits of a word.
ghost use Rattle.std.specs.Prelude.{◌≡◌};
ghost use Rattle.diagram.specs.Words as words;

// The kind of a word as a number, also one that no word of a file has.
pub fn kind(w: u32) -> u32
    ensures { result ≡ words.kind w }
{
    w / 268435456
}

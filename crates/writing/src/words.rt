// Words as they stand.
ghost use Rattle.std.specs.Prelude.{◌+◌, ◌≤◌, length};
ghost use Rattle.writing.specs.Wrote.{Wrote};

// Writes a word from an index on, and answers the index after it. Whoever calls has as many bytes there as the word has.
pub fn put_word(out: &mut [u8], at: usize, word: &[u8]) -> usize
    requires { at + length word.now ≤ length out.old }
    ensures { Wrote out.old at out.new result word.now }
{
    let end = at + word.len();
    out[at..end].copy_from_slice(word);
    end
}

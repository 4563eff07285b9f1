// Numbers in decimal.
ghost use Rattle.std.specs.Prelude.{◌+◌, ◌≤◌, length};
ghost use Rattle.diagram.specs.Printout.{decimal};
ghost use Rattle.writing.specs.Wrote.{Wrote};

use crate::words::put_word;

// Writes a number in decimal from an index on, and answers the index after it. Whoever calls has 20 bytes there, which are
// enough for every number. The last digit is found first, so the digits are put into a room from its end, and copied.
pub fn put_decimal(out: &mut [u8], at: usize, n: u64) -> usize
    requires { at + 20 ≤ length out.old }
    ensures { Wrote out.old at out.new result (decimal n) }
{
    let mut room = [0u8; 20];
    let mut first = 20;
    let mut left = n;
    loop {
        let tenth = left / 10;
        first -= 1;
        room[first] = (48 + (left - 10 * tenth)) as u8;
        if tenth == 0 {
            return put_word(out, at, &room[first..]);
        }
        left = tenth;
    }
}

// A text by value.
ghost use Rattle.std.specs.Prelude.{◌≡◌, ◌+◌, ◌≤◌, length, take};

use crate::decimal::put_decimal;
use crate::words::put_word;

// The first `count` bytes, in ASCII. What follows is left as it was.
#[derive(Clone, Copy)]
pub struct Text {
    pub bytes: [u8; 1024],
    pub count: usize,
    pub ghost fits: { count ≤ 1024 },
}

impl Text {
    ghost use Rattle.diagram.specs.Printout.{decimal};
    ghost use Rattle.writing.specs.Wrote.{Appends, empty};

    // No text yet: all bytes are zeros.
    pub fn new() -> Text
        ensures { result ≡ empty }
    {
        Text {
            bytes: [0; 1024],
            count: 0,
        }
    }

    // Appends a word. Whoever calls has room for it.
    pub fn word(&mut self, word: &[u8])
        requires { self.old.count + length word.now ≤ 1024 }
        ensures appends { Appends self.old word.now self.new }
        ensures count { self.new.count ≡ self.old.count + length word.now }
    {
        let start = self.count;
        let end = put_word(&mut self.bytes, start, word);
        self.count = end;
    }

    // Appends a number in decimal. Whoever calls has room for 20 digits, which are enough for every number.
    pub fn number(&mut self, n: u64)
        requires { self.old.count + 20 ≤ 1024 }
        ensures appends { Appends self.old (decimal n) self.new }
        ensures count { self.new.count ≤ self.old.count + 20 }
    {
        let start = self.count;
        self.count = put_decimal(&mut self.bytes, start, n);
    }

    // The bytes of the text.
    pub fn as_bytes(&self) -> &[u8]
        ensures { result.now ≡ take self.now.count self.now.bytes }
    {
        &self.bytes[..self.count]
    }
}

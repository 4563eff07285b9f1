// A table file in the making, and the words in it.
ghost use Rattle.std.specs.Prelude.{◌≡◌, take};

use crate::marks::Marks;
use crate::words::{Kind, Word};

// The bytes of a file, of which the first `size` count.
#[derive(Clone, Copy)]
pub struct File {
    pub bytes: [u8; 1344],
    pub size: usize,
}

impl File {
    // A file of its heading alone, as long as the heading says.
    pub fn started(v: usize, n: usize) -> File {
        let mut file = File {
            bytes: [0; 1344],
            size: v.saturating_add(n).saturating_add(1).saturating_mul(4),
        };
        file.set_word(0, Word::new(Kind::Heading, v, n, 0));
        file
    }

    // Sets the number of root words in the heading, and makes the file as long as it then says.
    pub fn set_roots(&mut self, roots: usize) {
        let mut heading = self.word(0);
        heading.r = roots;
        self.set_word(0, heading);
        self.size = self.at_root(roots).saturating_mul(4);
    }

    // The bytes that count.
    pub fn as_slice(&self) -> &[u8]
        ensures { result.now ≡ take self.now.size self.now.bytes }
    {
        &self.bytes[..self.size.min(1344)]
    }

    // A word of the file, 0 past the end.
    pub fn word(&self, i: usize) -> Word {
        let (words, _) = self.bytes.as_chunks::<4>();
        Word::from(words.get(i).map_or(0, |w| u32::from_be_bytes(*w)))
    }

    // Sets a word. Past the end the file stays as it is.
    pub fn set_word(&mut self, i: usize, word: Word) {
        let (words, _) = self.bytes.as_chunks_mut::<4>();
        if let Some(w) = words.get_mut(i) {
            *w = word.number().to_be_bytes();
        }
    }

    // Sets words from a place on, each by its number among them.
    fn set_words<F: Fn(&File, usize) -> Word>(&mut self, place: usize, count: usize, word: F)
        requires { F.IsAlwaysCallable word }
    {
        for i in 0..count {
            let w = word(self, i);
            self.set_word(place.saturating_add(i), w);
        }
    }

    // Sets the variable words, each by its position.
    pub fn set_variables<F: Fn(&File, usize) -> Word>(&mut self, word: F)
        requires { F.IsAlwaysCallable word }
    {
        self.set_words(1, self.variables(), word);
    }

    // Sets the records, each by its number.
    pub fn set_records<F: Fn(&File, usize) -> Word>(&mut self, word: F)
        requires { F.IsAlwaysCallable word }
    {
        self.set_words(self.at_node(2), self.records(), word);
    }

    // Sets the root words, each by its number.
    pub fn set_root_words<F: Fn(&File, usize) -> Word>(&mut self, word: F)
        requires { F.IsAlwaysCallable word }
    {
        self.set_words(self.at_root(0), self.roots(), word);
    }

    // V of the heading.
    pub fn variables(&self) -> usize {
        self.word(0).p
    }

    // N of the heading.
    pub fn records(&self) -> usize {
        self.word(0).q
    }

    // R of the heading.
    pub fn roots(&self) -> usize {
        self.word(0).r
    }

    // The place of a root word by its number, counted from the heading.
    pub fn at_root(&self, i: usize) -> usize {
        self.variables()
            .saturating_add(self.records())
            .saturating_add(i)
            .saturating_add(1)
    }

    // The word of a node that is a record, counted from the heading.
    pub fn at_node(&self, node: usize) -> usize {
        self.variables().saturating_add(node).saturating_sub(1)
    }

    // Whether the variable at a position is a choice.
    pub fn is_choice(&self, p: usize) -> bool {
        self.word(p.saturating_add(1)).is(Kind::Choice)
    }

    // How many of the variables are choices.
    pub fn choices(&self) -> usize {
        (0..self.variables()).filter(|p| self.is_choice(*p)).count()
    }

    // The kits of the lines that a plan takes, each R and one more.
    pub fn cost(&self, plan: Marks) -> usize {
        (0..self.variables())
            .filter(|p| self.is_choice(*p))
            .zip(plan.marks)
            .filter(|(_, mark)| *mark == 1)
            .map(|(p, _)| self.word(p.saturating_add(1)).r.saturating_add(1))
            .fold(0, usize::saturating_add)
    }

    // How often the product of b goes into 2^56.
    pub fn room(&self) -> usize {
        (0..self.variables()).fold(72057594037927936, |room, p| {
            room.checked_div(self.share_of(p)).unwrap_or(0)
        })
    }

    // The b of the chance at a position, or 1 for a choice.
    fn share_of(&self, p: usize) -> usize {
        let w = self.word(p.saturating_add(1));
        if w.is(Kind::Chance) { w.r } else { 1 }
    }

    // The record of a node. An end is its own child.
    pub fn node(&self, node: usize) -> Word {
        if node < 2 {
            return Word::new(Kind::Record, 64, node, node);
        }
        self.word(self.at_node(node))
    }
}

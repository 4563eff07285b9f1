use crate::set::Set;
use crate::word::{Kind, Word};
use std::ops::Range;

// All words that a file can have, 0 past its end.
#[derive(Clone, Copy)]
pub struct Table {
    words: [u32; 331],
}

// The reward of a root, and its node.
#[derive(Clone, Copy)]
pub(crate) struct Root {
    pub reward: u64,
    pub node: u64,
}

impl Table {
    // The words of a file, each with its highest byte first.
    pub fn decode(file: &[u8]) -> Table {
        let mut words = [0; 331];
        for (word, bytes) in words.iter_mut().zip(file.as_chunks::<4>().0) {
            *word = u32::from_be_bytes(*bytes);
        }
        Table { words }
    }

    // The word at a place; 0 past the end.
    pub fn word_at(&self, place: u64) -> Word {
        let raw = self.words.get(place as usize).copied();
        Word::from(raw.unwrap_or(0))
    }

    // V.
    pub fn variables(&self) -> u64 {
        self.word_at(0).p
    }

    // N.
    pub fn records(&self) -> u64 {
        self.word_at(0).q
    }

    // The number of root words, R.
    pub fn root_words(&self) -> u64 {
        self.word_at(0).r
    }

    // The positions of the variables.
    pub fn positions(&self) -> Range<u64> {
        0..self.variables()
    }

    // The word of the variable at position v.
    pub fn variable(&self, v: u64) -> Word {
        self.word_at(v.saturating_add(1))
    }

    pub fn is_choice(&self, v: u64) -> bool {
        self.variable(v).is(Kind::Choice)
    }

    // The nodes that are records.
    pub fn nodes(&self) -> Range<u64> {
        2..self.records().saturating_add(2)
    }

    // The place of the record that is a node. The first record is node 2, and stands after the heading
    // and the variables.
    pub fn place_of(&self, node: u64) -> u64 {
        self.variables().saturating_add(node).saturating_sub(1)
    }

    // The record that is a node.
    pub fn record(&self, node: u64) -> Word {
        self.word_at(self.place_of(node))
    }

    // How many of the first n variables are choices.
    pub fn choices_below(&self, n: u64) -> u64 {
        (0..n).filter(|v| self.is_choice(*v)).count() as u64
    }

    pub fn choices(&self) -> u64 {
        self.choices_below(self.variables())
    }

    // The choices that are not in a set of choices.
    pub fn others(&self, set: Set) -> Set {
        Set::below(self.choices()).symmetric_difference(set)
    }

    // The kits of the lines taken, R and one more for each.
    pub fn cost_of(&self, taken: Set) -> u64 {
        self.positions()
            .filter(|v| self.is_choice(*v) && taken.contains(self.choices_below(*v)))
            .map(|v| self.variable(v).r.saturating_add(1))
            .fold(0, u64::saturating_add)
    }

    // The product of b over the first n variables.
    pub fn scale_below(&self, n: u64) -> u64 {
        (0..n)
            .map(|v| self.variable(v))
            .filter(|word| word.is(Kind::Chance))
            .fold(1, |product: u64, word| product.saturating_mul(word.r))
    }

    // The place of root word i, after the records.
    pub fn root_place(&self, i: u64) -> u64 {
        let before = self.variables().saturating_add(self.records());
        i.saturating_add(1).saturating_add(before)
    }

    // The number of roots: without root words there is one.
    pub(crate) fn roots(&self) -> u64 {
        self.root_words().max(1)
    }

    // Root i: that of its word or, without root words, the last record with reward 1.
    pub(crate) fn root_at(&self, i: u64) -> Root {
        if self.root_words() == 0 {
            return Root {
                reward: 1,
                node: self.records().saturating_add(1),
            };
        }
        let word = self.word_at(self.root_place(i));
        Root {
            reward: word.q,
            node: word.r,
        }
    }

    fn total_reward(&self) -> u64 {
        (0..self.roots())
            .map(|i| self.root_at(i).reward)
            .fold(0, u64::saturating_add)
    }

    // B: the product of b over all variables, times the total reward.
    pub fn scale(&self) -> u64 {
        self.scale_below(self.variables())
            .saturating_mul(self.total_reward())
    }
}

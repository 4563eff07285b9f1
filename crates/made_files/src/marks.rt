// Plans in the making.
ghost use Rattle.std.specs.Prelude.{◌≡◌, take};

use crate::draws::{draw, fork, once_in};
use std::array;

// The marks of a plan, of which the first `count` count.
#[derive(Clone, Copy)]
pub struct Marks {
    pub marks: [u8; 32],
    pub count: usize,
}

impl Marks {
    // A plan with some lines open: all, most, some or none. Now and then its length is wrong, or one of its marks.
    pub fn drawn(seed: usize, choices: usize) -> Marks {
        let count = if once_in(seed, 1, 24) {
            draw(seed, 2, 24)
        } else {
            choices
        };
        let way = draw(seed, 3, 10);
        let mut plan = Marks {
            marks: array::from_fn(|i| mark(fork(seed, i.saturating_add(4)), way)),
            count,
        };
        if once_in(seed, 40, 24) {
            plan.set(draw(seed, 41, choices), wrong(seed));
        }
        plan
    }

    // Sets a mark, where there is one.
    fn set(&mut self, i: usize, mark: u8) {
        if let Some(old) = self.marks.get_mut(i) {
            *old = mark;
        }
    }

    // The plan with each open line taken or left, now and then with one of them still open.
    pub fn completed(&self, seed: usize) -> Marks {
        let mut plan = *self;
        for (i, mark) in plan.marks.iter_mut().enumerate() {
            if *mark == 0 {
                *mark = if once_in(seed, i, 2) { 1 } else { 2 };
            }
        }
        if once_in(seed, 42, 24) {
            plan.set(draw(seed, 43, self.count), 0);
        }
        plan
    }

    // The marks that count.
    pub fn as_slice(&self) -> &[u8]
        ensures { result.now ≡ take self.now.count self.now.marks }
    {
        &self.marks[..self.count.min(32)]
    }
}

// A mark of a plan in which none of the lines are open, some, most or all.
fn mark(seed: usize, way: usize) -> u8 {
    let any = (draw(seed, 1, 3) % 256) as u8;
    match way {
        0 => if once_in(seed, 3, 2) { 1 } else { 2 },
        1 | 2 => any,
        3..=5 => if once_in(seed, 2, 4) { any } else { 0 },
        _ => 0,
    }
}

// A mark above 2.
fn wrong(seed: usize) -> u8 {
    if once_in(seed, 44, 2) {
        3
    } else {
        (draw(seed, 45, 253).saturating_add(3) % 256) as u8
    }
}

// The root words of a table.
use made_files::{File, Kind, Word, draw, fork, once_in};

// Adds root words, none in half of the tables. In some the total reward is about the largest that B leaves.
pub fn add_roots(file: &mut File, seed: usize) {
    let way = draw(seed, 1, 20);
    match way {
        0..=9 => {}
        10..=13 => add_largest(file, seed),
        _ => {
            file.set_roots(root_count(way, seed));
            set_roots(
                file,
                seed,
                |i| draw(own_seed(seed, i), 5, rewards(way)).saturating_add(1),
            );
        }
    }
}

// How many root words there are: few, any number, or the most that there may be.
fn root_count(way: usize, seed: usize) -> usize {
    match way {
        14 => 16,
        15 | 16 => draw(seed, 2, 16).saturating_add(1),
        _ => draw(seed, 3, 4).saturating_add(1),
    }
}

// The largest reward of a word.
fn rewards(way: usize) -> usize {
    match way {
        15 | 17 => 1,
        16 | 18 => 4,
        _ => 64,
    }
}

// Makes the b of the chances larger, and adds root words, as few as can be and at most 16, whose total reward is the largest with which
// B is at most 2^56, or one beside it.
fn add_largest(file: &mut File, seed: usize) {
    file.set_variables(with_larger);
    let most = file.room().min(1024);
    let total = most
        .saturating_add(draw(seed, 4, 3))
        .saturating_sub(1)
        .max(1);
    file.set_roots((total.saturating_add(63) / 64).min(16));
    set_roots(
        file,
        seed,
        |i| total.saturating_sub(i.saturating_mul(64)).min(64),
    );
}

// The variable at a position, with a and b of a chance times the same number, as far as the product of b is at most 2^56.
fn with_larger(file: &File, p: usize) -> Word {
    let mut w = file.word(p.saturating_add(1));
    if w.is(Kind::Chance) {
        let factor = 1000usize
            .checked_div(w.r)
            .unwrap_or(0)
            .min(file.room())
            .max(1);
        w.q = w.q.saturating_mul(factor);
        w.r = w.r.saturating_mul(factor);
    }
    w
}

// Sets the root words, now and then wrong ones, whose rewards come by their numbers.
fn set_roots<F: Fn(usize) -> usize>(file: &mut File, seed: usize, reward: F)
    requires { F.IsAlwaysCallable reward }
{
    file.set_root_words(|file, i| root(file, seed, own_seed(seed, i), reward(i)));
}

// The seed of a root word.
fn own_seed(seed: usize, i: usize) -> usize {
    fork(seed, i.saturating_add(64))
}

// A root word with a reward, now and then a wrong one.
fn root(file: &File, seed: usize, own: usize, reward: usize) -> Word {
    let w = Word::new(Kind::Root, 0, reward, node(file, seed, own));
    if once_in(own, 6, 100) {
        wrong(w, own, file.records())
    } else {
        w
    }
}

// A node: any, the last one, one of the last, or one that several words name.
fn node(file: &File, seed: usize, own: usize) -> usize {
    let n = file.records();
    match draw(own, 7, 8) {
        0 => n.saturating_add(1),
        1 | 2 => n.saturating_add(1).saturating_sub(draw(own, 8, n.min(4))),
        3 => draw(seed, 9, n).saturating_add(2),
        _ => draw(own, 10, n).saturating_add(2),
    }
}

// A root word that is wrong in one field, in a table of n records.
pub fn wrong(mut w: Word, seed: usize, n: usize) -> Word {
    match draw(seed, 11, 10) {
        0 => w.kind = Kind::Record as usize,
        1 => w.kind = draw(seed, 12, 9).saturating_add(7),
        2 => w.p = draw(seed, 13, 63).saturating_add(1),
        3 => w.q = 0,
        4 => w.q = 65,
        5 => w.q = draw(seed, 14, 1983).saturating_add(65),
        6 => w.r = 0,
        7 => w.r = 1,
        8 => w.r = n.saturating_add(2),
        _ => w.r = n.saturating_add(draw(seed, 15, 1024).saturating_add(2)),
    }
    w
}

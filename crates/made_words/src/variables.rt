// The variable words of a table: of a mixed one, of a wide one, and of one that is mostly lines.
use made_files::{File, Kind, Word, draw, fork, once_in};

// A variable of a table that is mostly lines, as long as there are fewer than six. In half of these events are certain.
pub fn line_or_event(file: &File, seed: usize, p: usize) -> Word {
    if draw(fork(seed, p), 8, 5) < 4 && file.choices() < 6 {
        return line(seed, p);
    }
    if once_in(seed, 29, 2) {
        return Word::new(Kind::Chance, p, 1, 1);
    }
    variable(file, seed, p)
}

// The variable at a position of a mixed table: a choice, as long as there are fewer than six, or a chance, as the last one mostly is.
pub fn variable(file: &File, seed: usize, p: usize) -> Word {
    let last = p.saturating_add(1) == file.variables();
    let odds = if last {
        1
    } else {
        draw(seed, 7, 4).saturating_add(1)
    };
    if draw(fork(seed, p), 8, 5) < odds && file.choices() < 6 {
        return line(seed, p);
    }
    let b = scale(file, seed, p);
    Word::new(Kind::Chance, p, share(fork(seed, p), b), b)
}

// A choice, now and then with an R or a Q that is wrong.
fn line(seed: usize, p: usize) -> Word {
    let own = fork(seed, p);
    let mut w = Word::new(Kind::Choice, p, 0, kits_less_one(draw(seed, 21, 8), own));
    match draw(own, 22, 600) {
        0 => w.r = 501,
        1 => w.r = draw(own, 23, 1547).saturating_add(501),
        2 => w.q = 1,
        _ => {}
    }
    w
}

// The R of a choice, by the table's way: 0 in half of the tables, and few, many or both in the others.
fn kits_less_one(way: usize, own: usize) -> usize {
    match way {
        0..=3 => 0,
        4 | 5 => draw(own, 24, 4),
        6 => draw(own, 25, 501),
        _ => if once_in(own, 26, 2) {
            draw(own, 27, 3)
        } else {
            500usize.saturating_sub(draw(own, 28, 3))
        },
    }
}

// The b of a chance. The product of as many as there are variables is at most 2^56.
fn scale(file: &File, seed: usize, p: usize) -> usize {
    let most = most_scale(file.variables());
    let own = fork(seed, p);
    match draw(seed, 9, 6) {
        0 => 2,
        1 => 10,
        2 => most,
        3 => percentage(draw(own, 10, 6), most),
        4 => draw(own, 11, 10).saturating_add(1),
        _ => draw(own, 12, most).saturating_add(1),
    }
}

// The largest b whose power to the number of variables is at most 2^56, and at most 1,000.
fn most_scale(v: usize) -> usize {
    match v {
        6 => 645,
        7 => 256,
        8 => 128,
        9 => 74,
        10 => 48,
        _ => 1000,
    }
}

// A b with which scores are often whole percentages.
fn percentage(way: usize, most: usize) -> usize {
    match way {
        0 => 1,
        1 => 4,
        2 => 5,
        3 => 20,
        4 => most.min(100),
        _ => 10,
    }
}

// The a of a chance: now and then certain one way or the other, and often the half.
fn share(own: usize, b: usize) -> usize {
    match draw(own, 13, 8) {
        0 => if once_in(own, 20, 2) { 0 } else { b },
        1..=3 => b / 2,
        _ => draw(own, 14, b.saturating_add(1)),
    }
}

// A variable of a wide table. In half of these there are at most 20 choices.
pub fn wide_variable(file: &File, seed: usize, p: usize) -> Word {
    let own = fork(seed, p);
    let most = if once_in(seed, 15, 2) { 20 } else { 60 };
    if once_in(own, 16, 2) && file.choices() < most {
        return line(seed, p);
    }
    let b = wide_scale(draw(seed, 17, 6), draw(own, 18, 4));
    Word::new(Kind::Chance, p, draw(own, 19, b.saturating_add(1)), b)
}

// The b of a chance, by the table's way and a draw of its own.
fn wide_scale(way: usize, own: usize) -> usize {
    match way {
        0 => 2,
        1 => 10,
        2 => 16,
        3 => if own == 0 { 1000 } else { 1 },
        4 => if own == 0 { 256 } else { 1 },
        _ => 1,
    }
}

// Damage to a table: another length, another field of a word, children exchanged, another bit.
use made_files::{File, Kind, Word, draw, fork, once_in};

// Values that a field may be set to: the limits of documents 01 and 02 and the numbers beside them.
const VALUES: [usize; 19] = [
    0, 1, 2, 3, 4, 16, 17, 60, 61, 63, 64, 65, 254, 255, 500, 501, 1000, 1001, 2047,
];

// Lengths that a file may be cut or made longer to.
const LENGTHS: [usize; 16] = [
    0, 1, 2, 3, 4, 5, 8, 1256, 1260, 1261, 1264, 1320, 1324, 1325, 1328, 1344,
];

// A table with one damage, or with two.
pub fn damaged(mut file: File, seed: usize) -> File {
    damage(&mut file, fork(seed, 1));
    if once_in(seed, 2, 4) {
        damage(&mut file, fork(seed, 3));
    }
    file
}

// Does one damage to a table.
fn damage(file: &mut File, seed: usize) {
    match draw(seed, 4, 20) {
        0 => file.size = length(file, seed),
        1 => change_heading(file, seed),
        2 => change_field(file, seed, 0),
        3 | 4 => exchange(file, record_word(file, seed)),
        5..=8 => flip(file, seed),
        9..=11 => change_field(file, seed, variable_word(file, seed)),
        12 => enlarge_scale(file, variable_word(file, seed)),
        13 | 14 => change_field(file, seed, root_word(file, seed)),
        15 => drop_root(file, seed),
        _ => change_field(file, seed, record_word(file, seed)),
    }
}

// Sets the heading beyond the limits, or to one variable, record or root word more or less than there are.
fn change_heading(file: &mut File, seed: usize) {
    let mut w = file.word(0);
    match draw(seed, 12, 10) {
        0 => w.p = 0,
        1 => w.p = 61,
        2 => w.p = w.p.saturating_add(1),
        3 => w.q = 0,
        4 => w.q = 255,
        5 => w.q = w.q.saturating_add(1),
        6 => w.q = w.q.saturating_sub(1),
        7 => w.r = 17,
        8 => w.r = w.r.saturating_sub(1),
        _ => w.r = w.r.saturating_add(1),
    }
    file.set_word(0, w);
}

// The word of a variable.
fn variable_word(file: &File, seed: usize) -> usize {
    draw(seed, 5, file.variables()).saturating_add(1)
}

// The word of a record.
fn record_word(file: &File, seed: usize) -> usize {
    file.variables()
        .saturating_add(draw(seed, 6, file.records()))
        .saturating_add(1)
}

// A root word, or the last record where there is none.
fn root_word(file: &File, seed: usize) -> usize {
    let n = file.roots();
    if n == 0 {
        return file.at_node(file.records().saturating_add(1));
    }
    file.at_root(draw(seed, 13, n))
}

// Takes the last root word away, or puts it in place of the one before it.
fn drop_root(file: &mut File, seed: usize) {
    let n = file.roots().saturating_sub(1);
    if once_in(seed, 14, 2) {
        file.set_roots(n);
    } else {
        let last = file.word(file.at_root(n));
        file.set_word(file.at_root(n.saturating_sub(1)), last);
    }
}

// A length beside the right one, or one of those at the limits.
fn length(file: &File, seed: usize) -> usize {
    let d = draw(seed, 7, 28);
    match LENGTHS.get(d) {
        Some(length) => *length,
        None => file
            .size
            .saturating_add(d.saturating_sub(16))
            .saturating_sub(6),
    }
}

// Changes one field of a word; the last way sets a of a chance by its b.
fn change_field(file: &mut File, seed: usize, i: usize) {
    let mut w = file.word(i);
    // the node of the word, if it is a record
    let node = i.saturating_add(1).saturating_sub(file.variables());
    match draw(seed, 8, 5) {
        0 => w.kind = value(seed, w.kind, i),
        1 => w.p = value(seed, w.p, file.variables()),
        2 => w.q = value(seed, w.q, node),
        3 => w.r = value(seed, w.r, node),
        _ => w.q = value(seed, w.r, node),
    }
    file.set_word(i, w);
}

// A value in place of an old one.
fn value(seed: usize, old: usize, other: usize) -> usize {
    let d = draw(seed, 9, 33);
    if let Some(value) = VALUES.get(d) {
        return *value;
    }
    match d {
        19..=21 => old.saturating_add(1),
        22 | 23 => old.saturating_sub(1),
        24 | 25 => other,
        26 => other.saturating_add(1),
        27 => other.saturating_sub(1),
        _ => draw(seed, 10, 2048),
    }
}

// Exchanges the children of a record.
fn exchange(file: &mut File, i: usize) {
    let w = file.word(i);
    file.set_word(i, Word::new(Kind::Record, w.p, w.r, w.q));
}

// Makes the b of a chance one larger, which brings some products above 2^56.
fn enlarge_scale(file: &mut File, i: usize) {
    let mut w = file.word(i);
    if w.is(Kind::Chance) {
        w.r = w.r.saturating_add(1);
        file.set_word(i, w);
    }
}

// Changes one bit.
fn flip(file: &mut File, seed: usize) {
    let bit = draw(seed, 11, file.size.saturating_mul(8));
    if let Some(byte) = file.bytes.get_mut(bit / 8) {
        *byte ^= 1 << (bit % 8);
    }
}

// Tables of at most ten variables and six choices, made so that most of them are accepted.
use made_files::{File, Kind, Word, draw, fork, once_in};
use made_words::{add_roots, variable};

// The two children of a record.
#[derive(Clone, Copy)]
struct Pair {
    hi: usize,
    lo: usize,
}

// A table. Its size, the b of its chances and the way its records are made are drawn once for all of it.
pub fn table(seed: usize) -> File {
    let mut file = File::started(variable_count(seed), record_count(seed));
    file.set_variables(|file, p| variable(file, fork(seed, 1), p));
    file.set_records(|file, k| record(file, fork(seed, 2), k.saturating_add(2)));
    add_roots(&mut file, fork(seed, 9));
    file
}

// Mostly up to 7, and up to 10.
fn variable_count(seed: usize) -> usize {
    let most = if once_in(seed, 3, 8) { 10 } else { 7 };
    draw(seed, 4, most)
        .max(draw(seed, 5, most))
        .saturating_add(1)
}

// Up to 24, and rarely the most that there may be.
fn record_count(seed: usize) -> usize {
    if once_in(seed, 6, 200) {
        return 254;
    }
    draw(seed, 7, 24).max(draw(seed, 8, 24)).saturating_add(1)
}

// The record of a node, made from the nodes before it. Some are equal to one of these.
fn record(file: &File, seed: usize, node: usize) -> Word {
    let own = fork(seed, node);
    if 2 < node && once_in(own, 15, 12) {
        let back = draw(own, 16, node.saturating_sub(2)).saturating_add(1);
        return file.node(node.saturating_sub(back));
    }
    let p = position(file, seed, node);
    let pair = children(file, seed, node, p);
    Word::new(Kind::Record, p, pair.hi, pair.lo)
}

// The position of a record: falling with the node's number, or any.
fn position(file: &File, seed: usize, node: usize) -> usize {
    let v = file.variables();
    let n = file.records();
    let own = fork(seed, node);
    if once_in(own, 17, draw(seed, 18, 8).saturating_add(2)) {
        return draw(own, 19, v);
    }
    n.saturating_add(1)
        .saturating_sub(node)
        .saturating_mul(v)
        .checked_div(n)
        .unwrap_or(0)
}

// The children of a record, often the two ends where none of the nodes before it can be one.
fn children(file: &File, seed: usize, node: usize, p: usize) -> Pair {
    let own = fork(seed, node);
    let a = earlier(file, fork(own, 20), node, p);
    let b = earlier(file, fork(own, 21), node, p);
    if a < 2 && !once_in(own, 22, 8) {
        return Pair { hi: 1, lo: 0 };
    }
    let table_way = draw(seed, 23, 20);
    let way = draw(own, 24, 16);
    if file.is_choice(p) {
        of_choice(file, table_way, way, a, b)
    } else {
        of_chance(file, table_way, way, a, b)
    }
}

// The children of a choice record. In the first two ways of a table lo implies hi, by the way that the pair is made; in the third it
// often does, and in the last sometimes.
fn of_choice(file: &File, table_way: usize, way: usize, a: usize, b: usize) -> Pair {
    match table_way {
        0..=8 => implied(file, a, way),
        9..=13 => plain(file, a, way),
        14..=17 => implied(file, a, way),
        _ => Pair { hi: a, lo: b },
    }
}

// The children of a chance record. In the first way of a table lo implies hi, in the others the two are any.
fn of_chance(file: &File, table_way: usize, way: usize, a: usize, b: usize) -> Pair {
    match table_way {
        0..=8 => raised(file, a, way),
        _ => Pair { hi: a, lo: b },
    }
}

// A pair whose lo implies its hi, whatever the node is.
fn plain(file: &File, a: usize, way: usize) -> Pair {
    match way {
        0 => Pair { hi: a, lo: a },
        1 => Pair {
            hi: a,
            lo: twin(file, a),
        },
        2 => Pair { hi: 1, lo: a },
        _ => Pair { hi: a, lo: 0 },
    }
}

// A pair whose lo implies its hi, where the lo of the node implies its hi.
fn implied(file: &File, a: usize, way: usize) -> Pair {
    let w = file.node(a);
    match way {
        7 | 8 => Pair { hi: w.q, lo: a },
        9 => Pair { hi: w.q, lo: w.r },
        10..=15 => Pair { hi: a, lo: w.r },
        _ => plain(file, a, way),
    }
}

// The same with more of the pairs in which an event alone decides.
fn raised(file: &File, a: usize, way: usize) -> Pair {
    match way {
        12..=15 => Pair { hi: 1, lo: a },
        _ => implied(file, a, way),
    }
}

// The first node whose record is equal to that of a node.
fn twin(file: &File, node: usize) -> usize {
    let own = file.word(file.at_node(node));
    (2..node)
        .find(|other| file.word(file.at_node(*other)) == own)
        .unwrap_or(node)
}

// A node that may be the child of a record at a position: one of the nodes before it that stands later, or an end.
fn earlier(file: &File, seed: usize, node: usize, p: usize) -> usize {
    (0..6)
        .map(|t| candidate(seed, node, t))
        .find(|found| p < file.node(*found).p)
        .unwrap_or_else(|| draw(seed, 26, 2))
}

// One of the nodes before a node by the number of the try: in the first two one of the last four.
fn candidate(seed: usize, node: usize, t: usize) -> usize {
    if t < 2 {
        node.saturating_sub(draw(seed, t, 4).saturating_add(1))
    } else {
        draw(seed, t, node)
    }
}

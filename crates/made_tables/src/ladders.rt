// Tables of four records a position, each of which holds wherever the one before it does: what is taken or holds leads up or
// nowhere, what is left or does not hold down or nowhere. Many of their plans score the same, so that the kits decide.
use made_files::{File, Kind, Word, draw, fork};
use made_words::{add_roots, line_or_event};

// A table whose root, without root words, is one of the four records of the first position.
pub fn ladder(seed: usize) -> File {
    let v = draw(seed, 1, 6).saturating_add(3);
    let n = v.saturating_mul(4).saturating_sub(draw(seed, 2, 4));
    let mut file = File::started(v, n);
    file.set_variables(|file, p| line_or_event(file, fork(seed, 3), p));
    file.set_records(|file, k| record(file, fork(seed, 4), k));
    add_roots(&mut file, fork(seed, 5));
    file
}

// A record by its number, from the last position up.
fn record(file: &File, seed: usize, k: usize) -> Word {
    let p = file.variables().saturating_sub((k / 4).saturating_add(1));
    let column = k % 4;
    if k < 4 {
        return Word::new(Kind::Record, p, column.min(1), column / 3);
    }
    let own = fork(seed, p);
    let below = k.saturating_sub(column.saturating_add(2));
    let up = column.saturating_add(draw(own, 1, 2)).min(3);
    let down = column.saturating_sub(draw(own, 2, 2));
    Word::new(
        Kind::Record,
        p,
        below.saturating_add(up),
        below.saturating_add(down),
    )
}

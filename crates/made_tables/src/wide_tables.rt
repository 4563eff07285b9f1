// Tables of up to 60 variables, 254 records and 16 root words, with too many choices, too large a product, or neither. One record
// or the last root word of each is wrong, so that none is accepted.
use made_files::{File, Kind, Word, draw, fork, once_in};
use made_words::{add_roots, wide_variable, wrong};

// A table whose records, but for the wrong one, are all alike.
pub fn wide(seed: usize) -> File {
    let v = 60usize.saturating_sub(draw(seed, 1, 40));
    let n = 254usize.saturating_sub(draw(seed, 2, 254));
    let mut file = File::started(v, n);
    file.set_variables(|file, p| wide_variable(file, fork(seed, 3), p));
    file.set_records(|_, _| Word::new(Kind::Record, 0, 1, 0));
    add_roots(&mut file, fork(seed, 5));
    if once_in(seed, 6, 2) {
        set_wrong_root(&mut file, fork(seed, 7));
    } else {
        set_fault(&mut file, fork(seed, 4));
    }
    file
}

// Puts a wrong root word in place of the last one, or alone.
fn set_wrong_root(file: &mut File, seed: usize) {
    let last = file.roots().saturating_sub(1);
    file.set_roots(last.saturating_add(1));
    let w = Word::new(Kind::Root, 0, draw(seed, 8, 64).saturating_add(1), 2);
    file.set_word(file.at_root(last), wrong(w, fork(seed, 9), file.records()));
}

// Makes one record wrong.
fn set_fault(file: &mut File, seed: usize) {
    let node = draw(seed, 10, file.records()).saturating_add(2);
    let w = match draw(seed, 11, 4) {
        0 => Word::new(Kind::Chance, 0, 1, 0),
        1 => Word::new(Kind::Record, file.variables().saturating_add(3), 1, 0),
        2 => Word::new(Kind::Record, 0, node, 0),
        _ => Word::new(Kind::Record, 0, 1, node),
    };
    file.set_word(file.at_node(node), w);
}

// Numbers that look random, each decided by a seed and a label.

// A seed of its own for each label.
pub fn fork(seed: usize, label: usize) -> usize {
    let x = (seed % 2147483647 + label % 65536 * 69621) % 2147483647;
    let y = x * 48271 % 2147483647;
    let z = y / 32768 + y % 32768 * 65599;
    let w = z % 2147483647 * 48271 % 2147483647;
    (w / 32768 + w % 32768 * 65599) % 2147483647 * 69621 % 2147483647
}

// A number below `n`, or 0 where there is none.
pub fn draw(seed: usize, label: usize, n: usize) -> usize {
    fork(seed, label).checked_rem(n).unwrap_or(0)
}

// Whether a chance of one in `n` holds.
pub fn once_in(seed: usize, label: usize, n: usize) -> bool {
    draw(seed, label, n) == 0
}

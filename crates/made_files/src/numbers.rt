// The numbers that come with a request: the size of the lent buffer, the kits and the percentage.
use crate::draws::{draw, once_in};

// The size of the lent buffer, now and then a wrong one.
pub fn lent(seed: usize, choices: usize) -> usize {
    if once_in(seed, 6, 24) {
        draw(seed, 7, 24)
    } else {
        choices
    }
}

// The kits of a job: mostly what a plan costs or one beside it, or less, or about as many as there are choices, now and then too many.
pub fn kits(seed: usize, choices: usize, cost: usize) -> u32 {
    let n = match draw(seed, 8, 32) {
        0 => 4294967295,
        1 => 10021,
        2 => 10020,
        3 => draw(seed, 15, 131072),
        4..=7 => draw(seed, 9, 23),
        8..=11 => draw(seed, 10, choices.saturating_add(2)),
        12..=15 => draw(seed, 16, cost.saturating_add(2)),
        _ => cost.saturating_add(draw(seed, 17, 3)).saturating_sub(1),
    };
    (n % 4294967296) as u32
}

// A percentage: mostly what a score is of B, at which it often is exact, or one beside it or below.
pub fn percentage(seed: usize, percent: u32) -> u32 {
    match draw(seed, 11, 32) {
        0 => u32::MAX,
        1 => 101,
        2 => (draw(seed, 12, 106) % 4294967296) as u32,
        3 => (draw(seed, 12, 101) % 4294967296) as u32,
        4..=13 => below(percent, draw(seed, 13, 4)),
        _ => beside(percent, draw(seed, 14, 5)),
    }
}

// Some part of a percentage.
fn below(percent: u32, way: usize) -> u32 {
    match way {
        0 => 0,
        1 => percent / 4,
        2 => percent / 2,
        _ => percent - percent / 4,
    }
}

// A percentage, or one beside it.
fn beside(percent: u32, way: usize) -> u32 {
    match way {
        0 => percent % 1000 + 1,
        1 => percent.saturating_sub(1),
        _ => percent,
    }
}

// The percentage that a score is of B, cut to a whole number, or 50 where B is 0.
pub fn ratio(x: u64, scale: u64) -> u32 {
    let hundredfold = x % 72057594037927937 * 100;
    (hundredfold.checked_div(scale).unwrap_or(50) % 4294967296) as u32
}

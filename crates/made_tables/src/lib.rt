// Tables for tests, each decided by a seed: mixed ones, wide ones and ladders.
#![tactic(auto)]

mod ladders;
mod tables;
mod wide_tables;

pub use ladders::ladder;
pub use tables::table;
pub use wide_tables::wide;

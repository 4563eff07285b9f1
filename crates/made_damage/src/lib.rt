// Damage to a table, for tests.
#![tactic(auto)]

mod damage;

pub use damage::damaged;

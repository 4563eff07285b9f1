// The five services for programs in other languages: functions over numbers and byte slices. A result is 0 where the request
// is answered, and else the refusal's number, with its place written. What is not written is left as it was.
#![tactic(auto, unfolding(crate::specs::Numbers::number_of, crate::specs::Numbers::place_of, crate::specs::Numbers::value_of, steps::specs::Steps::outcome_by))]

mod filters;
mod reads;
mod refusing;
mod scores;
mod searches;
mod sweeps;

pub use filters::jigbalo_filter;
pub use reads::jigbalo_read;
pub use scores::jigbalo_score;
pub use searches::jigbalo_search;
pub use sweeps::jigbalo_sweep;

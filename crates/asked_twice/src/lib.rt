// Requests made by a seed, each answered by the planner and by the second one (`counter`).
#![tactic(auto)]

mod requests;

pub use requests::on_file;

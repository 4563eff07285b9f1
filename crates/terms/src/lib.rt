// The words of a table file, its limits, the three numberings of a diagram, plans and refusals, in code.
#![tactic(auto)]

mod bits;
mod limits;
mod numbering;
mod plan;
mod refusal;
mod word;

pub use bits::kind;
pub use limits::{
    MOST_BUDGET, MOST_BYTES, MOST_MORE_KITS, MOST_PARTS, MOST_PERCENT, MOST_RECORDS, MOST_REWARD,
    MOST_ROOTS, MOST_SCALE, MOST_VARIABLES,
};
pub use numbering::{Choice, Node, Position};
pub use plan::Plan;
pub use refusal::{Reason, Refusal};
pub use word::{Kind, field_p, field_q, field_r, has_kind, word_at};

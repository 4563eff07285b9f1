// What the search answers.

// The score of the plan that is written, and the visits.
#[derive(Clone, Copy, PartialEq, Eq)]
pub struct Finding {
    pub score: u64,
    pub visits: u64,
}

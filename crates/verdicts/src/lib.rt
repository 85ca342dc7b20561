// The verdict on a bundle, and its four counts. Judging itself is crate judging.
#![tactic(auto)]

use refusals::Refusal;

// The four counts of an accepted bundle: rows, allowed steps, kind 0 and kind 1 certificates.
#[derive(Clone, Copy, Debug, PartialEq, Eq)]
pub struct Tally {
    pub rows: usize,
    pub allowed: usize,
    pub by_place: usize,
    pub by_weights: usize,
}

// The verdict on a bundle.
pub type Verdict = Result<Tally, Refusal>;

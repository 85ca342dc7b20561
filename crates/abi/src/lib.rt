// The calls for programs in C and in Rust. A slice is a pointer and a length; include/hovmekhar.h is the C side.
// Each returns 0 for a result, else the number of the refusal; `hov_screen`, `hov_screen_joined` and `hov_step` return 256 where a word
// or an event is stopped, `hov_reach` 257 where there is no word.
// `answer` takes the result's numbers, or in answer[0] the refusal's spot; those of its numbers that a call does not use stay as they were.
// Each module exports the calls of one crate; it has the prefix of their names, since a module may not have a crate's name.
#![tactic(auto)]

pub mod hov_block; // opening and sealing
pub mod hov_logs; // the log table
pub mod hov_judging; // judging
pub mod hov_screening; // screening
pub mod hov_pruning; // pruning
pub mod hov_editions; // conversion between the editions
pub mod hov_engine; // the carried engine
pub mod hov_search; // the search for a word

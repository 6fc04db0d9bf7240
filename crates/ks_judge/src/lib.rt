//! Judges printed runs.
//!
//! `judge` says of a printed run, wherever it came from, whether its replies are those of one map in the order of their
//! numbers, and else which number is the least that is wrong. `served_is_legal` is the law that what is served and what is
//! judged agree.
#![tactic(auto)]

mod accord;
mod judging;
mod ordered;
mod replay;
mod slots;
mod store;
mod table;

pub use accord::served_is_legal;
pub use judging::{Judged, judge};

//! Trials of every pairing of a node type and a technique: the five calls and their `try_` forms, beside a plain map. For
//! tests.
//!
//! A trial is data: which calls each caller makes, and in which order callers pass points of them. What the calls returned is
//! judged by their numbers. So a test of a pairing has the trials of one of `rows`, and costs one call of one generic function
//! at its types.
#![tactic(auto)]

mod board;
mod calls;
mod draws;
mod meets;
mod order;
pub mod rows;
mod scripts;
mod trial;
mod trials;

pub use trial::{Trial, right_along_links, right_under_trees};

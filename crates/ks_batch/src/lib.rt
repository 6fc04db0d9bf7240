//! The program without its streams: words and bytes come in, bytes go out.
//!
//! `serve` does what the words ask for. To serve a script it reads the script to its end, makes the calls of its callers
//! over a dictionary that begins empty, and writes each call's number and reply, and then the map. Its contract says that
//! the calls, in the order of their numbers, are a legal history of a map, which has each caller's calls in their order.
#![tactic(auto)]

mod pairings;
mod serving;

pub use pairings::serve_by;
pub use serving::{Outcome, serve};

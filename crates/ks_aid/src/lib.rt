//! What workers ask of a technique: the calls of a script, each of which may begin where an aid says.
//!
//! An `Aid` says of a place at which node a call may begin, and notes where the call was decided: a guide is one. Calls
//! that take an aid are those of the trait `Serving`, which each technique has; a worker asks no other calls of it.
#![tactic(auto)]

mod aid;
mod replies;
mod serving;

pub use aid::{Admits, Aid, noting};
pub use replies::{filled_reply, found_reply};
pub use serving::{Asking, Serving};

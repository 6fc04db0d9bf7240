//! The work of all callers: their jobs, run over a dictionary that begins empty by workers on threads.
//!
//! `serve_callers` takes a script for each caller, and returns what is said of each line, the map at the end and the trace.
//! Workers draw whole callers. A pairing says by `Reaching` what it serves beside the calls at one key.
//!
//! The workers take no allocator: all the room that they need is made before they begin.
#![tactic(auto)]

mod aids;
mod calls;
mod reaching;
mod service;
mod serving;
mod workers;

pub use reaching::{AtOneKey, Reach, Reaching};
pub use serving::{Told, serve_callers};

//! The lines of a script, each of which asks for a call or for an ordered scan, and what a printed run says of each.
//!
//! A scan is a row of calls, one for each of its parts. So a history of calls is flat, while scripts and printed runs are
//! not: the calls that a line and what is said of it represent are defined in `specs/`, to be read in the order Scan, Lines,
//! ServedLines.
#![tactic(auto)]

mod parts;
mod setting;

use ks_history::{Op, Reply};
pub use parts::{Part, Parts};
pub use setting::{Aiding, Setting};

/// A line of a script. Numbers of places in its operation are keys.
#[derive(Clone, Copy, Debug, PartialEq, Eq)]
pub enum Line {
    /// A call, with one reply.
    Call(Op),
    /// An ordered scan from a first key to a last one, in at most the third number of parts.
    Scan(u64, u64, u32),
}

/// Where a scan stopped.
#[derive(Clone, Copy, Debug, PartialEq, Eq)]
pub enum Scanned {
    /// At its last place.
    Whole,
    /// After as many parts as it may have: the scan goes on at this place.
    Until { next: u64 },
}

/// What a printed run says of a line.
#[derive(Drop)]
pub enum Said {
    /// The number of the call, and its reply.
    Call(u64, Reply),
    /// The parts of the scan, and where it stopped.
    Scan(Parts, Scanned),
}

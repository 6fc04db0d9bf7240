//! Dictionaries that many callers use at once: keys for places, numbered calls, and ordered scans.
//!
//! A `Dictionary` is an arena of nodes and a technique by which callers come from node to node. Its calls take keys;
//! each, unless it is put off, occurs once, with its number, in one history of a map; so does each part of a scan.
//!
//! The calls of a dictionary that has started take no allocator and report no lack of memory.
#![tactic(auto)]

mod closed;
mod dictionary;
mod ends;
mod fit;
mod guided;
mod hinting;
mod laws;
mod merging;
mod moving;
mod row;
mod runtime;
mod scanning;

pub use closed::Closed;
pub use dictionary::Dictionary;
pub use ends::{Found, first_in, last_in};
pub use fit::fits_threads;
pub use laws::{kept_law, once_law};
pub use row::scan_into;
pub use runtime::{Gated, Runtime};

//! The pairs of one node, in ascending order of place, in arrays of a fixed room.
//!
//! Places are apart from values, so a search for a place reads eight bytes for each pair that it passes.
#![tactic(auto)]

mod pairs;
mod slices;

pub use pairs::Pairs;

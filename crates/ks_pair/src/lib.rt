//! A move of a value between two places, at the one node or the two nodes that its caller holds.
//!
//! No function here can wait: a caller that holds the node of one place only tries to take that of the other. So two
//! moves cannot wait for the nodes of one another. Room is not made here, but by lock coupling, which waits with a node
//! held.
#![tactic(auto)]

mod between;
mod ending;
mod moves;
mod pair;
mod within;

pub use between::take_other;
pub use moves::{Step, move_here};
pub use pair::{Pair, ends_at, turned};

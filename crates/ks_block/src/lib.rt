//! A block of pairs in memory of its own.
//!
//! `Block` is a list of pairs with a room, over raw memory. Three layers keep the pointers apart: `cells` has the unsafe
//! functions, each of a line, which move values between places; `memory` ties the places to the right to free them, so
//! that they are freed once; `block` lays the pairs in the first places. An insert, a removal and the move of a tail shift
//! their pairs in one copy.
#![tactic(auto)]

mod block;
mod cells;
mod memory;

pub use block::Block;
pub use memory::{Memory, Pair, Source};

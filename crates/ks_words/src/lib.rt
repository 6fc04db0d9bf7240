//! The words of the program: the command that they ask for, the pairings that are served, and the statuses with which it
//! ends.
#![tactic(auto)]

mod pairing;
pub mod status;
mod words;

pub use pairing::{Pairing, Structure, Technique};
pub use words::{Asked, Draft, MOST_WORKERS, Text, command};

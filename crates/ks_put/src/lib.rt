//! Puts and adds by pairs: the search holds the parent of a full node too, so that the node can be split under it.
#![tactic(auto)]

mod clear;
mod cuts;
mod fills;
mod halves;
mod room;
mod splits;
mod try_fills;
mod try_room;

pub use clear::clear_room;
pub use fills::{pair_fill, pair_fill_at};
pub use room::make_room;
pub use try_fills::try_pair_fill;

//! Giving up: a search holds one node at a time, and restarts at the root if it comes to a node that is free or whose
//! range lacks its place. A put that needs room, a del that merges and a move hold three nodes at most.
//!
//! The range of a node says which places may be looked for in it. Between the release of one node and the take of the
//! next, others may split the next, merge it away or use it again; what is taken is a live node or none, and if its
//! range holds the place it is on the search path.
//!
//! The technique is the give-up of Shasha and Goodman ("Concurrent Search Structure Algorithms", 1988).
#![tactic(auto)]

mod calls;
mod calls_near;
mod descent;
mod merging;
mod moves;
mod near;
mod scans;
mod serving;
mod technique;
mod tries;
mod try_descent;
mod try_puts;
mod try_scans;

pub use calls::{add, del, get, put, swap};
pub use merging::compact;
pub use moves::move_value;
pub use scans::scan_part;
pub use technique::GiveUp;
pub use tries::{try_del, try_get, try_swap};
pub use try_puts::{try_add, try_put};
pub use try_scans::try_scan_part;

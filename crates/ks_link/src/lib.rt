//! Links: a search holds one node at a time, and a place past the range of a node is looked for in the node right of
//! it. A put or an add that splits holds three nodes at most.
//!
//! Between the release of one node and the take of the next, others may split any node. The next node is still live,
//! and begins where it did, since under links no live node is made free and none changes its low. So the place is not
//! below it; if it was moved to the right meanwhile, the search follows.
//!
//! The technique is that of Lehman and Yao ("Efficient Locking for Concurrent Operations on B-Trees", 1981).
#![tactic(auto)]

mod attaches;
mod calls;
mod calls_near;
mod descent;
mod near;
mod parts;
mod puts;
mod room;
mod scans;
mod serving;
mod template;
mod tries;
mod try_attaches;
mod try_descent;
mod try_puts;
mod try_scans;

pub use calls::{del, get, swap};
pub use puts::{add, put};
pub use scans::scan_part;
pub use template::LinkMove;
pub use tries::{try_del, try_get, try_swap};
pub use try_puts::{try_add, try_put};
pub use try_scans::try_scan_part;

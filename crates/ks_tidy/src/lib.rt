//! Merging: nodes that fit into one are merged, and nodes that no edge needs any more are released as free.
//!
//! A caller that merges holds a node and its parent, and takes the right neighbour of the node, to which one of the two
//! has an edge. If both fit, the node absorbs its neighbour. A root over one child takes over that child; if nodes grow in
//! place, any branch does.
#![tactic(auto)]

mod compact;
mod deletes;
mod descent;
mod entry;
mod joins;
mod merges;
mod neighbours;
mod node;
mod step;
mod takes;
mod tries;
mod try_step;

pub use compact::pair_compact;
pub use deletes::{del_alone, del_on};
pub use descent::{Ended, come_down, go_down, leave, pair_tidy, tidy_end};
pub use node::{Tidied, tidy_node};
pub use step::{Step, tidy_once};
pub use tries::{try_del_alone, try_pair_tidy};

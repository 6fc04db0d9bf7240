//! Lock coupling: the next node is taken before the present one is released.
//!
//! A search holds the root, and then from node to node two at most; puts and dels hold three at most. What a search
//! holds is on the search path of its place: the place is in the inset of the node, whatever others do, since a Shape
//! changes only the insets of nodes that it names, and names none that its caller does not hold.
//!
//! The technique is that of Bayer and Schkolnick ("Concurrency of Operations on B-Trees", 1977).
#![tactic(auto)]

mod calls;
mod descent;
mod merging;
mod serving;
mod technique;
mod tries;
mod try_descent;
mod try_puts;

pub use merging::compact;
pub use technique::Coupling;
pub use tries::{try_del, try_get, try_swap};
pub use try_puts::{try_add, try_put};

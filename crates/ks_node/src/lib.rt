//! What a node of a dictionary is.
//!
//! A node type implements `Node` and, by how its nodes are reached, `Unlinked` or (through a wrapper of another crate)
//! `Linked`. What its bodies mean, what each call does to that meaning and which laws hold is in `specs/`, to be read in
//! the order Keyed, Body, Edges, Room, Effect, Asks, Sound. `WithRange` adds a range to any node.
#![tactic(auto)]

mod children;
mod edge;
mod keyed;
mod laws;
mod node;
mod ordered;
mod ranged;
mod start;
mod unlinked;
mod with_range;

pub use children::{begins_at, child_after, edge_in, first_in, next_in, only_in, value_in};
pub use edge::cut_edge;
pub use keyed::{Keyed, rank, seek};
pub use laws::{adopt_law, growing_law, linked_law, node_law, unlinked_law};
pub use node::Node;
pub use ordered::{Listed, Ordered, listed_law};
pub use ranged::{Linked, Ranged};
pub use start::{Next, Start};
pub use unlinked::{Growing, Unlinked};
pub use with_range::WithRange;

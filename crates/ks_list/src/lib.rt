//! The list node: a sorted list of pairs, and at times an edge to the node that has the places above.
//!
//! Eight pairs fill a node. One that is full is cut in the middle and adopts the upper half as a node of its own: its
//! one edge leads there from the cut on. So a structure of list nodes is a chain.
#![tactic(auto)]

mod node;
mod pairs;

pub use node::ListNode;

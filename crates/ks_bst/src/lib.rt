//! Leaves, forks and stems of a leaf-oriented binary search tree.
#![tactic(auto)]

mod node;
mod parts;

pub use node::TNode;

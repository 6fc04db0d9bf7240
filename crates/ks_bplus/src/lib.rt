//! B+ leaves and inner nodes.
#![tactic(auto)]

mod node;
mod parts;
mod starts;

pub use node::BNode;

//! Hash nodes: buckets of pairs, and directories of equal slices.
#![tactic(auto)]

mod node;
mod parts;
mod slices;
mod spans;

pub use node::HNode;

//! Wide leaves and branches: one node type for hash tables and trees of any size.
//!
//! `WNode<P, L, F>` has leaves of up to `L` pairs and branches of up to `F` children, over any placing `P` for which
//! `Widths<L, F>` says that the two suit. Over `Golden` it is a hash table of any size, over `Plain` a B+ tree.
#![tactic(auto)]

mod children;
mod node;
mod parts;
mod search;
mod slices;
mod widths;

pub use node::WNode;
pub use widths::Widths;

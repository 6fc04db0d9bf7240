//! Nodes behind one allocation.
//!
//! A caller that takes a node moves its body from the arena into its hand, and moves it back when it releases the node.
//! A body has some fifty words; behind one box it is one. (`WithRange` and `WithLink` have such a box themselves.)
#![tactic(auto)]

mod boxed;

pub use boxed::Boxed;

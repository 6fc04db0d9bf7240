//! Nodes with a range, a level and a link to the node right of them, as B-link trees have them.
#![tactic(auto)]

mod with_link;

pub use with_link::WithLink;

//! How the calls of nodes keep a tree, or a graph with links.
//!
//! Each shape is some calls of nodes, which change their bodies, and then one Shape. The laws here say, for any body and
//! any range, that what the calls make of bodies meets the discipline, of trees or of links; and what the tests of bodies
//! say of the tree. Read the specs in the order `Stands`, `Shapes`, `Links`, `Neighbours`.
#![tactic(auto)]

mod asks;
mod links;
mod rights;
mod runs;
mod steps;

pub use asks::{tree_asks_law, tree_parts_law, tree_spans_law};
pub use links::{link_asks_law, link_leads_law, link_steps_law};
pub use rights::{alone_law, neighbour, rights_law, tests_law, tidied_law};
pub use runs::run_end;
pub use steps::{tree_insets_law, tree_steps_law};

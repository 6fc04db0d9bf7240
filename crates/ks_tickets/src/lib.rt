//! Workers draw whole jobs by ticket from a shared table, so that each job is run once, by one of them.
//!
//! `start` makes a desk for each worker. A worker draws at its desk, runs the job, and finishes it, until none is left.
//! `close` takes all desks back and returns the jobs in their order.
//!
//! Word 0 of the table counts the draws, and word 1 + t is 1 if and only if job t is finished. A job is in its slot
//! until its ticket is drawn, and again once it is finished. The rule is in `specs/Rule.antt`.
#![tactic(auto)]

mod desk;
mod fit;
mod plays;
mod rule;
mod ticketed;
mod tickets;
mod view;

pub use desk::{Desk, Tickets};
pub use fit::fits_threads;
pub use rule::Rule;
pub use ticketed::Ticketed;
pub use view::View;

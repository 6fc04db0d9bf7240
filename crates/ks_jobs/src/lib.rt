//! What workers have to do: the jobs of callers, and the workers who draw them.
//!
//! A job is a caller with its script, and with room for all that will be said of it, so that to serve it takes no memory.
//! `jobs_of` makes the jobs of a script, and `apart` takes them apart once they are finished. A worker begins with the
//! caller that was drawn at its desk. Here is no dictionary and no technique: ks_serving serves the jobs.
#![tactic(auto)]

mod about;
mod job;
mod placing;
mod rooms;
mod worker;

pub use about::About;
pub use job::{Job, apart, jobs_of};
pub use placing::placed;
pub use worker::{Worker, desks_of, workers_at, workers_for};

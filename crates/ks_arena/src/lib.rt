//! Shared memory of nodes: callers take nodes, change the bodies that they hold, and release them.
//!
//! All callers share one table of words and slots. Each step on a word makes one event of the trace of the run, or
//! none. A rule over words, slots and what each caller has seen holds between any two steps (`specs/Rule.antt`), and
//! from it follows what a call ensures (`specs/Clauses.antt`).
#![tactic(auto)]

mod arena;
mod at_two;
mod bell;
mod calls;
mod claim;
mod ended;
mod fit;
mod held;
mod kin;
pub mod laws;
mod note;
mod plays;
mod remains;
mod rule;
mod run;
mod send_closed;
mod spots;
mod turns;
mod view;

pub use arena::{Arena, Steps};
pub use calls::root_law;
pub use fit::fits_threads;
pub use held::{Held, Note, Pass, Taken, Visited};
pub use plays::Decision;
pub use remains::Remains;
pub use rule::Rule;
pub use run::{Run, RunTrace};
pub use view::{Mark, Part, View};

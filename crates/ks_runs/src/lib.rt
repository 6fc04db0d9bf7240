//! Runs of calls by one caller, by any technique: for tests.
#![tactic(auto)]

mod arenas;
mod hinted;
mod run;
mod runs;

pub use arenas::one_caller;
pub use hinted::{every_hint, get_from};
pub use run::Run;
pub use runs::each;

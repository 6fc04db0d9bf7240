//! Whole runs of the program, from words and bytes to bytes and a status: for tests.
//!
//! A test is data: a table that says what is run and what each run leaves. A function that is proved here runs each row of the
//! table, and its error names the first run that left something else. So the proof of a test is that of one call, however long
//! its table is.
#![tactic(auto)]

mod rows;
mod runs;
mod tables;
mod texts;
mod wrong;

pub use rows::{Row, SERVED, Stop, run_each};
pub use runs::{Ended, Ends, run, run_ends};
pub use tables::{check_each, refuse_each, say_each, serve_each};
pub use texts::{FIRST, FIRST_RUN, Piece, RUN, USAGE, text_of};
pub use wrong::{Wanted, Wrong};

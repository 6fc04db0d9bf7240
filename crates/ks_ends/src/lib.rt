//! The ends of the program: what its words and its source ask for, and what goes to its outputs.
//!
//! `begin` reads what the words ask for. It returns what is to be served, or how the program ended without that: it judges a
//! run itself, and refuses. Once a request has been served, `end` prints its run or the summary of it. Neither knows a
//! dictionary.
#![tactic(auto)]

mod begun;
mod check;
mod ending;
mod input;
mod judgment;
mod message;
mod printing;
mod request;

pub use begun::{Begun, begin};
pub use ending::Ending;
pub use input::Stop;
pub use message::tell;
pub use printing::{Printing, end};
pub use request::Request;

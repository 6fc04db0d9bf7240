//! Scripts and printed runs as texts, and the ends that bytes come from and go to.
//!
//! The grammars are in `specs/`, to be read in the order Lines, Version, Script, Run: a text is a list of lines, and the
//! lines of a script or of a run are a function of what they say. Scripts have versions, which one grammar defines. A
//! reader returns what the bytes say, or the first line that does not fit, and why (Reasons). `Source` and `Sink` are the outside: they may
//! fail, and count it.
#![tactic(auto)]

mod checked;
mod eight;
mod ending;
mod fault;
mod laws;
mod lexer;
mod line;
mod lines;
mod memory;
mod numeral;
mod outside;
mod packed;
mod packed_calls;
mod packed_replies;
mod pieces;
mod printed;
mod reader;
mod reasons;
mod runs;
mod scan_lines;
mod script;
mod source;
mod unfit;
mod version;

pub use checked::read_checked;
pub use fault::{Failed, ReadFault, TextFault};
pub use laws::{one_spelling, written_is_read};
pub use line::{send_line, send_refusal};
pub use memory::{MemSink, MemSource};
pub use outside::{Sink, Source};
pub use packed_calls::Calls;
pub use packed_replies::Replies;
pub use pieces::send;
pub use printed::{Printed, write_run};
pub use reasons::Reason;
pub use script::{Script, read_script};
pub use source::read_all;
pub use version::Version;

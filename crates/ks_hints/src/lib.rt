//! Routing hints: one list of hints, which one writer publishes to many readers.
//!
//! A hint is a low, the first place of a span, and the node at which a call in that span was decided. The writer posts
//! hints; each reader asks for the hint of a place: the node of the greatest low that is not above the place. A list has
//! at most 64 hints: one more empties it first. A hint is only advice, since a call from a hint is right for every hint.
//!
//! `HintReader::hint` takes no lock and never waits. `HintWriter::post` waits for readers that still copy the list from
//! before the post before. Only making a writer with its readers and `post` allocate.
#![tactic(auto)]

mod blank;
mod fit;
mod hint;
mod hints;
mod laws;
mod reader;
mod rule;
mod search;
mod shown;
mod starting;
#[cfg(test)]
mod tests;
mod view;
mod writer;

pub use fit::fits_threads;
pub use hint::Hint;
pub use hints::Hints;
pub use laws::hint_law;
pub use reader::HintReader;
pub use rule::Rule;
pub use shown::Shown;
pub use view::View;
pub use writer::HintWriter;

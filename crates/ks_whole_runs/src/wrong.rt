//! Runs that left something else than they were to leave.

use crate::runs::Ended;
use std::alloc::{AllocError, Global};

/// What a run is to leave.
#[derive(Clone, Copy)]
pub struct Wanted<'a> {
    pub status: u8,
    pub out: &'a [u8],
    pub err: &'a [u8],
}

/// Why a test fails.
#[derive(Debug, Drop)]
pub enum Wrong {
    /// Memory ran out.
    Memory,
    /// A row has no words, so nothing was run.
    Empty,
    /// The run of these words on this input left this, which is not what it was to leave. Of each text there are the first
    /// bytes.
    Run {
        words: String,
        input: String,
        status: u8,
        out: String,
        err: String,
    },
}

impl From<AllocError> for Wrong {
    fn from(_: AllocError) -> Wrong {
        Wrong::Memory
    }
}

impl Wrong {
    /// The error of a run that left something else.
    pub fn run(alloc: Global, words: &str, input: &[u8], ended: &Ended) -> Wrong {
        match shown(alloc, words, input, ended) {
            Ok(wrong) => wrong,
            Err(_) => Wrong::Memory,
        }
    }
}

fn shown(alloc: Global, words: &str, input: &[u8], ended: &Ended) -> Result<Wrong, AllocError> {
    Ok(Wrong::Run {
        words: String::from_str(alloc, words)?,
        input: front(alloc, input)?,
        status: ended.status,
        out: front(alloc, &ended.out)?,
        err: front(alloc, &ended.err)?,
    })
}

/// The first bytes of a text.
fn front(alloc: Global, text: &[u8]) -> Result<String, AllocError> {
    String::from_utf8_lossy(alloc, &text[..text.len().min(400)])
}

impl Ended {
    /// Whether this is what the run was to leave.
    pub fn is(&self, wanted: Wanted) -> bool {
        self.status == wanted.status
            && self.out.as_slice() == wanted.out
            && self.err.as_slice() == wanted.err
    }
}

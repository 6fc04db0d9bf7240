//! The error of a test that fails.
use std::alloc::AllocError;

/// Why a test fails.
#[derive(Debug, Drop)]
pub(crate) enum Wrong {
    /// Memory ran out.
    Memory,
    /// This does not hold.
    Not(&'static str),
}

impl From<AllocError> for Wrong {
    fn from(_: AllocError) -> Wrong {
        Wrong::Memory
    }
}

/// Returns an error that names what must hold, unless it does.
pub(crate) fn must(holds: bool, what: &'static str) -> Result<(), Wrong> {
    if holds { Ok(()) } else { Err(Wrong::Not(what)) }
}

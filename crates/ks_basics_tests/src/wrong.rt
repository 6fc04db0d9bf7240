//! Why a test fails.

use ks_history::Verdict;
use std::alloc::AllocError;

/// What a test found that is not as it is to be.
#[derive(Debug, Drop)]
pub enum Wrong {
    /// Memory ran out.
    Memory,
    /// The row or step of this number differs.
    Row(usize),
    /// The history of this row has this verdict.
    Verdict { row: usize, verdict: Verdict },
    /// The readers differ from the definition at this place of the graph of this number.
    Place { graph: u32, place: u64 },
    /// A stop has ended by its limit.
    Failed,
    /// The last calls of the two callers have these numbers.
    Numbers(u64, u64),
}

impl From<AllocError> for Wrong {
    fn from(_: AllocError) -> Wrong {
        Wrong::Memory
    }
}

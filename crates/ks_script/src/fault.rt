//! Why bytes could not be had, and why a text could not be read.

ghost use Rattle.std.specs.Prelude.{◌≡◌};
ghost use Rattle.ks_script.specs.declared.fault.TextFault.TheVariants as text;
ghost use Rattle.ks_script.specs.declared.fault.RunFault.TheVariants as run;

use crate::Reason;
use std::alloc::{AllocError, AllocFailed};

/// A source or a sink failed. Its count of faults rose.
#[derive(Clone, Copy, Debug, PartialEq, Eq)]
pub struct Failed;

/// Why a source was not read to its end.
#[derive(Clone, Copy, Debug, PartialEq, Eq)]
pub enum ReadFault {
    /// The source failed.
    Failed,
    /// More bytes came than the limit.
    TooLong,
    /// Memory ran out.
    Memory,
}

/// Why a text was not read.
#[derive(Clone, Copy, Debug, PartialEq, Eq)]
pub enum TextFault {
    /// The first line that does not fit, counted from 1, and why it does not.
    Refused { line: u64, why: Reason },
    /// Memory ran out.
    Memory,
}

impl From<AllocError> for TextFault {
    ghost from_gives = { λ _ e. e ≡ text.Memory };

    fn from(_: AllocError) -> TextFault {
        TextFault::Memory
    }
}

/// Why the run of a script was not read.
#[derive(Clone, Copy, Debug, PartialEq, Eq)]
pub enum RunFault {
    /// The first line that does not fit, counted from 1.
    Refused { line: u64 },
    /// Memory ran out.
    Memory,
}

impl From<AllocError> for RunFault {
    ghost from_gives = { λ _ e. e ≡ run.Memory };

    fn from(_: AllocError) -> RunFault {
        RunFault::Memory
    }
}

impl<T: Drop> From<AllocFailed<T>> for RunFault {
    ghost from_gives = { λ _ e. e ≡ run.Memory };

    fn from(_: AllocFailed<T>) -> RunFault {
        RunFault::Memory
    }
}

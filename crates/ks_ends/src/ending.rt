//! How the program ended.

ghost use Rattle.std.specs.Prelude.{◌≡◌, None};
ghost use Rattle.ks_ends.specs.Stop.{IsHalted, IsUnread, halt_reason, reason_of};

use crate::input::Stop;
use crate::request::Halt;
use ks_script::Reason;
use ks_words::status::{NO_MEMORY, REFUSED, SOURCE_FAILED, UNFIT};

/// How the program ended.
#[derive(Clone, Copy, Debug, PartialEq, Eq)]
pub struct Ending {
    pub status: u8,
    /// The line at which the input is refused, or the first one that the pairing does not serve, counted from 1; 0 if the
    /// input is too long, and with any other status.
    pub line: u64,
    /// The least wrong number of a checked run; 0 with any other status.
    pub number: u64,
    /// Why the line is refused; none with any other status, or if the input is too long.
    pub why: Option<Reason>,
}

impl Ending {
    /// This status, at this line.
    pub(crate) fn at(status: u8, line: u64) -> Ending
        ensures { (result.status ≡ status) × (result.line ≡ line) × (result.number ≡ 0) × (result.why ≡ None) }
    {
        Ending {
            status,
            line,
            number: 0,
            why: None,
        }
    }
}

/// How the program ends after this stop.
pub(crate) fn unread(stop: Stop) -> Ending
    ensures unread { IsUnread stop result.status result.line }
    ensures number { result.number ≡ 0 }
    ensures why { result.why ≡ reason_of stop }
{
    match stop {
        Stop::Refused { line, why } => Ending {
            status: REFUSED,
            line,
            number: 0,
            why,
        },
        Stop::Source => Ending::at(SOURCE_FAILED, 0),
        Stop::Memory => Ending::at(NO_MEMORY, 0),
    }
}

/// How the program ends if a script is not served.
pub(crate) fn halted(halt: Halt) -> Ending
    ensures halted { IsHalted halt result.status result.line }
    ensures number { result.number ≡ 0 }
    ensures why { result.why ≡ halt_reason halt }
{
    match halt {
        Halt::Unread(stop) => unread(stop),
        Halt::Unfit { line } => Ending::at(UNFIT, line),
    }
}

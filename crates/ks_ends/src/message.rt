//! What the program says on the error output.

ghost use Rattle.std.specs.Prelude.{OnOk, OnErr};
ghost use Rattle.ks_script.specs.Outside.{Rose, Grew, GrewByFront};
ghost use Rattle.ks_ends.specs.Message.{status_text};

use ks_script::{Failed, Reason, Sink, send, send_line, send_refusal};
use ks_words::status::{NO_COMMAND, NO_MEMORY, OUTPUT_FAILED, REFUSED, SOURCE_FAILED, UNFIT};

const USAGE: &[u8] =
    b"usage: run NODES TEMPLATE ARENA [WORKERS], hinted NODES TEMPLATE ARENA WORKERS, make NODES TEMPLATE ARENA CALLERS CALLS FIRST, or check\n";

/// Writes the text of the status, with the line and the reason if it has one. The text is offered to the error output in one piece. Statuses
/// 0 and 6 have no text.
///
/// # Errors
///
/// `Failed` if the error output failed: it has taken first bytes of the text.
fn say<E: Sink>(err: &mut E, status: u8, line: u64, why: Option<Reason>) -> Result<(), Failed>
    ensures ok { OnOk result (Grew (E.taken err.old) (E.taken err.new) (status_text status line why)) }
    ensures front { OnErr result (GrewByFront (E.taken err.old) (E.taken err.new) (status_text status line why)) }
    ensures cause { OnErr result (Rose (E.faults err.old) (E.faults err.new)) }
{
    match status {
        NO_COMMAND => send(err, USAGE),
        REFUSED => match why {
            Some(why) => send_refusal(err, line, why),
            None => send(err, b"too many bytes\n"),
        },
        SOURCE_FAILED => send(err, b"read fault\n"),
        OUTPUT_FAILED => send(err, b"write fault\n"),
        NO_MEMORY => send(err, b"no memory\n"),
        UNFIT => send_line(err, b"line ", line, b" unfit\n"),
        _ => send(err, b""),
    }
}

/// Writes the text of the status, with the line and the reason if it has one. If the error output fails, it has taken first bytes of the
/// text.
pub fn tell<E: Sink>(err: &mut E, status: u8, line: u64, why: Option<Reason>)
    ensures whole { ¬ Rose (E.faults err.old) (E.faults err.new) →
        Grew (E.taken err.old) (E.taken err.new) (status_text status line why) }
    ensures front { GrewByFront (E.taken err.old) (E.taken err.new) (status_text status line why) }
{
    let _ = say(err, status, line, why);
}

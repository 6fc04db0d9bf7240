//! What is checked: a script, and a printed run of it, in one text.

ghost use Rattle.std.specs.Prelude.{ℕ, Ok, List};
ghost use Rattle.ks_script.specs.Words.{Line, Run, CheckedOf, FirstBadOfChecked, Answers, Gives, IsCheckedReason, Refuses, Says, lines_of};

use crate::fault::RunFault;
use crate::lines::word_line;
use crate::reader::callers;
use crate::runs::run;
use crate::{Printed, Reason, Script, TextFault};
use std::alloc::Global;

/// The script and the run that the bytes are the text of, or the first line that does not fit, with the reason. Where
/// lines are missing, that is the line after the last.
pub fn read_checked(alloc: Global, bytes: &[u8]) -> Result<(Script, Printed), TextFault>
    ensures answer { Answers result (λ x. CheckedOf bytes.now x.0 x.1) (FirstBadOfChecked bytes.now) }
    // What is such a text is read, and a line that does not fit is refused, unless memory runs out.
    ensures checked { (script : List (List Line)) (run : Run) → CheckedOf bytes.now script run →
        Gives result (Ok (script, run)) }
    ensures refused { (n : ℕ) → FirstBadOfChecked bytes.now n → Refuses result n }
    ensures why { Says result (IsCheckedReason (lines_of bytes.now)) }
{
    let front = callers(alloc, bytes)?;
    let lines = front.lines + 1;
    let Some(text) = word_line(front.rest, b"run") else {
        return Err(TextFault::Refused {
            line: lines,
            why: front.why(),
        });
    };
    match run(alloc, &front.callers, text, lines) {
        Ok(printed) => {
            let callers = front.callers;
            Ok((Script { callers }, printed))
        }
        Err(RunFault::Refused { line }) => Err(TextFault::Refused {
            line,
            why: Reason::NotTheRun,
        }),
        Err(RunFault::Memory) => Err(TextFault::Memory),
    }
}

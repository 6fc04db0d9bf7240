//! Scripts: for each caller the lines that say what it asks for, in order.

ghost use Rattle.std.specs.Prelude.{ℕ, Ok, List};
ghost use Rattle.ks_script.specs.Words.{Line, ScriptOf, FirstBadOfScript, Answers, Gives, IsReason, Refuses, Says, lines_of};

use crate::reader::callers;
use crate::{Calls, TextFault};
use std::alloc::Global;
use std::marker::Model;

/// For each caller its lines. The numbers of places in them are keys.
#[derive(Drop)]
pub struct Script {
    pub callers: Vec<Calls>,
}

impl Model for Script {
    ghost use Rattle.std.specs.Prelude.{List};
    ghost use Rattle.ks_lines.specs.declared.Line.{Line};

    ghost Value = { List (List Line) };

    ghost view = { λ s. s.callers.items };
}

/// The script, of whichever version, that the bytes are the text of, or the first line that does not fit, with the reason.
pub fn read_script(alloc: Global, bytes: &[u8]) -> Result<Script, TextFault>
    ensures answer { Answers result (ScriptOf bytes.now) (FirstBadOfScript bytes.now) }
    // What is a script is read, and a line that does not fit is refused, unless memory runs out.
    ensures script { (script : List (List Line)) → ScriptOf bytes.now script → Gives result (Ok script) }
    ensures refused { (n : ℕ) → FirstBadOfScript bytes.now n → Refuses result n }
    ensures why { Says result (IsReason (lines_of bytes.now)) }
{
    let front = callers(alloc, bytes)?;
    if !front.rest.is_empty() {
        return Err(TextFault::Refused {
            line: front.lines + 1,
            why: front.why(),
        });
    }
    Ok(Script {
        callers: front.callers,
    })
}

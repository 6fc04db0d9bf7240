//! The command `check`.

ghost use Rattle.std.specs.Prelude.{◌≡◌, ◌≢◌, ◌≤◌, Some, None, [], OnOk, OnErr, IfSome};
ghost use Rattle.ks_script.specs.Outside.{Rose, Grew, GrewByFront};
ghost use Rattle.ks_words.specs.declared.words.Text.TheVariants as text;
ghost use Rattle.ks_ends.specs.Serve.{RefusedAt, SaysWhy, IsReadWith, IsCheck, judged_line};

use crate::ending::{Ending, unread};
use crate::judgment::judged;
use ks_judge::Judged;
use ks_script::{Failed, Sink, Source, send_line};
use ks_words::status::{DONE, NO_COMMAND, OUTPUT_FAILED, REFUSED, SOURCE_FAILED, WRONG};
use std::alloc::Global;

/// Writes the line that states the judgment. It is offered to the output in one piece.
///
/// # Errors
///
/// `Failed` if the output failed: it has taken first bytes of the line.
fn say_judged<K: Sink>(out: &mut K, judged: Judged) -> Result<(), Failed>
    ensures ok { OnOk result (Grew (K.taken out.old) (K.taken out.new) (judged_line judged)) }
    ensures front { OnErr result (GrewByFront (K.taken out.old) (K.taken out.new) (judged_line judged)) }
    ensures cause { OnErr result (Rose (K.faults out.old) (K.faults out.new)) }
{
    match judged {
        Judged::Legal { calls } => send_line(out, b"legal ", calls, b"\n"),
        Judged::Wrong { number } => send_line(out, b"wrong ", number, b"\n"),
    }
}

/// Judges the script and the run on the source, and writes what they are judged to be.
pub(crate) fn check<S: Source, K: Sink>(alloc: Global, source: &mut S, out: &mut K) -> Ending
    ensures status { (result.status ≢ NO_COMMAND) × (result.status ≤ WRONG) }
    ensures line { result.status ≢ REFUSED → result.line ≡ 0 }
    ensures number { result.status ≢ WRONG → result.number ≡ 0 }
    ensures checked { IsCheck (S.left source.old) (K.taken out.old) (K.taken out.new) result.status result.number }
    ensures end { IsReadWith result.status result.line →
        IfSome (S.left source.old) (λ _. S.left source.new ≡ Some []) }
    ensures untouched { result.status ≢ DONE → result.status ≢ OUTPUT_FAILED → result.status ≢ WRONG →
        K.taken out.new ≡ K.taken out.old }
    ensures refused { result.status ≡ REFUSED →
        IfSome (S.left source.old) (λ bytes. RefusedAt text.Checked bytes result.line) }
    ensures reason { result.status ≡ REFUSED → SaysWhy text.Checked (S.left source.old) result.line result.why }
    ensures why { result.status ≢ REFUSED → result.why ≡ None }
    ensures source { result.status ≡ SOURCE_FAILED → Rose (S.faults source.old) (S.faults source.new) }
    ensures output { result.status ≡ OUTPUT_FAILED → Rose (K.faults out.old) (K.faults out.new) }
{
    match judged(alloc, source) {
        Ok(judged) => match say_judged(out, judged) {
            Ok(()) => match judged {
                Judged::Legal { .. } => Ending::at(DONE, 0),
                Judged::Wrong { number } => Ending {
                    status: WRONG,
                    line: 0,
                    number,
                    why: None,
                },
            },
            Err(_) => Ending::at(OUTPUT_FAILED, 0),
        },
        Err(stop) => unread(stop),
    }
}

//! What the program does: it serves a script that it reads or makes, or judges a printed run, from bytes to bytes.

ghost use Rattle.std.specs.Prelude.{◌≡◌, ◌≢◌, ◌≤◌, ◌⊎◌, ◌↔◌, List, None, Some, IfSome, IsSome, IsNone, IfOk, OnErr};
ghost use Rattle.ks_history.specs.Lawful.{Lawful, GoodThroughout};
ghost use Rattle.ks_lines.specs.declared.Line.{Line};
ghost use Rattle.ks_script.specs.Outside.{Rose, Grew, GrewByFront};
ghost use Rattle.ks_words.specs.declared.words.Text.TheVariants as text;
ghost use Rattle.ks_words.specs.Words.{bytes_of, IsCommand, IsMake, Asks};
ghost use Rattle.ks_ends.specs.Message.{status_text};
ghost use Rattle.ks_ends.specs.Serve.{IsCheck};
ghost use Rattle.ks_ends.specs.Make.{MakesOutcome};
ghost use Rattle.ks_ends.specs.Parts.{RanWith, PrintedAt, ReadWith, UnreadWith, RefusedWith, ReasonWith, RefusalDue, UnfitWith, UnfitDue, DoneDue, JudgedDue, UntouchedWith};
ghost use Rattle.ks_ends.specs.Printing.{IsPrintingOf, printed_text};
ghost use Rattle.ks_batch.specs.Over.{DueOver, NamedOver};

use crate::pairings::serve_by;
use ks_aid::Admits;
use ks_arena::RunTrace;
use ks_ends::{Begun, Ending, Printing, Request, begin, end, tell};
use ks_gate::Gate;
use ks_script::{Reason, Sink, Source};
use ks_serving::Told;
use ks_words::status::{
    DONE, NO_COMMAND, NO_MEMORY, OUTPUT_FAILED, REFUSED, SOURCE_FAILED, UNFIT, WRONG,
};
use std::alloc::{AllocError, Global};
use std::sync::Wait;
use std::thread::Threads;

/// How the program ended.
#[derive(Drop)]
pub struct Outcome {
    /// One of the statuses: 0, done; 1, the words are no command; 2, the input is refused; 3, the source failed; 4, the
    /// output failed; 5, memory ran out; 6, the checked run is wrong; 7, the pairing does not serve a line of the script.
    pub status: u8,
    /// The line at which the input is refused, or the first one that the pairing does not serve, counted from 1; 0 if the
    /// input is too long, and with any other status.
    pub line: u64,
    /// The least wrong number of a checked run, with status 6; 0 with any other status.
    pub number: u64,
    /// Why the line is refused; none with any other status, or if the input is too long.
    pub why: Option<Reason>,
    /// The trace, if a script was served, even one of no caller.
    pub run: Option<RunTrace>,
}

impl Outcome {
    fn without_run(ending: Ending) -> Outcome
        ensures ends { (result.status ≡ ending.status) × (result.line ≡ ending.line) × (result.number ≡ ending.number) }
        ensures why { result.why ≡ ending.why }
        ensures run { IsNone result.run }
    {
        let Ending {
            status,
            line,
            number,
            why,
        } = ending;
        Outcome {
            status,
            line,
            number,
            why,
            run: None,
        }
    }

    /// Memory ran out, before anything was printed.
    fn without_memory() -> Outcome
        ensures ends { (result.status ≡ NO_MEMORY) × (result.line ≡ 0) × (result.number ≡ 0) }
        ensures why { result.why ≡ None }
        ensures run { IsNone result.run }
    {
        Outcome {
            status: NO_MEMORY,
            line: 0,
            number: 0,
            why: None,
            run: None,
        }
    }
}

/// Prints the run of callers that were served, or its summary, and returns how the program ends.
fn finish<K: Sink>(
    alloc: Global,
    out: &mut K,
    printing: Printing,
    told: Result<Told, AllocError>,
) -> Outcome
    ensures untold { OnErr told (IsNone result.run) }
    ensures run { IfOk told (λ told. IfSome result.run (λ h. h ≡ told.trace)) }
    ensures ran { IsSome result.run ↔ ((result.status ≡ DONE) ⊎ (result.status ≡ OUTPUT_FAILED)) }
    ensures status { (result.status ≡ DONE) ⊎ ((result.status ≡ OUTPUT_FAILED) ⊎ (result.status ≡ NO_MEMORY)) }
    ensures line { result.line ≡ 0 }
    ensures number { result.number ≡ 0 }
    ensures why { result.why ≡ None }
    ensures done { (script : List (List Line)) → IsPrintingOf printing script → IfOk told (λ told. result.status ≡ DONE →
        Grew (K.taken out.old) (K.taken out.new) (printed_text printing script told.printed)) }
    ensures cut { (script : List (List Line)) → IsPrintingOf printing script → IfOk told (λ told. result.status ≡ OUTPUT_FAILED →
        GrewByFront (K.taken out.old) (K.taken out.new) (printed_text printing script told.printed)) }
    ensures untouched { result.status ≢ DONE → result.status ≢ OUTPUT_FAILED → K.taken out.new ≡ K.taken out.old }
    ensures output { result.status ≡ OUTPUT_FAILED → Rose (K.faults out.old) (K.faults out.new) }
{
    let Ok(told) = told else {
        return Outcome::without_memory();
    };
    let Ok(status) = end(alloc, out, printing, &told.printed) else {
        return Outcome::without_memory();
    };
    Outcome {
        status,
        line: 0,
        number: 0,
        why: None,
        run: Some(told.trace),
    }
}

/// The whole program: does what the words ask for, and says on `err` what was wrong.
///
/// The headline, for every pairing, every script that it serves and every gate, in whatever order the steps of the callers
/// come:
///
/// - The calls that are printed are, in the order of their numbers, one legal history of a map that begins empty. Each call
///   occurs once, and those of each caller occur in its order.
/// - At every moment the keysets of the live nodes are disjoint and cover all places.
/// - `full` is the reply only if the call found its node full (a move that of its second key) and, since its caller's
///   previous call, each node was at some moment not free.
///
/// Splits, merges and the reuse of nodes are steps like all others. All this holds if the call returns and memory does not run
/// out. What is read and printed is stated only of a source and sinks that report their bytes. If the source fails, the input
/// is refused, or the pairing does not serve a line of it, nothing is served. If the output fails, what was printed is a
/// beginning of what was due.
pub fn serve<R: Threads + Wait + Sync, S: Source, K: Sink, E: Sink, G: Gate + Admits + Sync>(
    rt: &R,
    alloc: Global,
    words: &[String],
    source: &mut S,
    out: &mut K,
    err: &mut E,
    gate: &G,
) -> Outcome
    // The trace of a run is lawful, the keysets of the live nodes are disjoint and cover all places, always, each Full
    // was due over as many nodes as the words ask for, and no other node was ever named.
    ensures lawful { IfSome result.run Lawful }
    ensures good { IfSome result.run GoodThroughout }
    ensures due { DueOver (bytes_of words.now) result.run }
    ensures named { NamedOver (bytes_of words.now) result.run }
    ensures ran { RanWith (bytes_of words.now) result.status result.run }
    ensures not_ran { Asks (bytes_of words.now) text.Checked → IsNone result.run }
    ensures none { result.status ≡ NO_COMMAND → IsNone result.run }

    // What is written is the text of a run that this served, or, if the output failed, first bytes of it.
    ensures done { PrintedAt (bytes_of words.now) DONE result.status (S.left source.old) result.run
        (Grew (K.taken out.old) (K.taken out.new)) }
    ensures cut { PrintedAt (bytes_of words.now) OUTPUT_FAILED result.status (S.left source.old) result.run
        (GrewByFront (K.taken out.old) (K.taken out.new)) }

    // Or it is the line of the judgment of the run that was read, or the summary of a run of a script that was made.
    ensures checked { Asks (bytes_of words.now) text.Checked →
        IsCheck (S.left source.old) (K.taken out.old) (K.taken out.new) result.status result.number }
    ensures made { IsMake (bytes_of words.now) →
        MakesOutcome (bytes_of words.now) (K.taken out.old) (K.taken out.new) result.status result.run }
    ensures untouched { UntouchedWith result.status (K.taken out.old) (K.taken out.new) }

    // What is read: the whole text, unless it is too long, the source fails or memory runs out; nothing if the words ask for
    // no text.
    ensures end { ReadWith (bytes_of words.now) result.status result.line (S.left source.old) (S.left source.new) }
    ensures unread { UnreadWith (bytes_of words.now) result.status (S.left source.old) (S.left source.new) }

    // When each status comes, except 5, lack of memory. There is none above 7.
    ensures status { result.status ≤ UNFIT }
    ensures usage { (result.status ≡ NO_COMMAND) ↔ ¬ IsCommand (bytes_of words.now) }
    ensures refused { RefusedWith (bytes_of words.now) result.status result.line (S.left source.old) }
    ensures reason { ReasonWith (bytes_of words.now) result.status result.line result.why (S.left source.old) }
    ensures refusal_due { RefusalDue (bytes_of words.now) result.status result.line (S.left source.old)
        (Rose (S.faults source.old) (S.faults source.new)) }
    ensures unfit { UnfitWith (bytes_of words.now) result.status result.line (S.left source.old) }
    ensures unfit_due { UnfitDue (bytes_of words.now) result.status result.line (S.left source.old)
        (Rose (S.faults source.old) (S.faults source.new)) }
    ensures source { result.status ≡ SOURCE_FAILED → Rose (S.faults source.old) (S.faults source.new) }
    ensures output { result.status ≡ OUTPUT_FAILED → Rose (K.faults out.old) (K.faults out.new) }
    ensures judgment { result.status ≡ WRONG → Asks (bytes_of words.now) text.Checked }
    ensures done_due { DoneDue (bytes_of words.now) result.status (S.left source.old)
        (Rose (S.faults source.old) (S.faults source.new)) (Rose (K.faults out.old) (K.faults out.new)) }
    ensures judged_due { JudgedDue (bytes_of words.now) result.status (S.left source.old)
        (Rose (S.faults source.old) (S.faults source.new)) (Rose (K.faults out.old) (K.faults out.new)) }
    ensures line { result.status ≢ REFUSED → result.status ≢ UNFIT → result.line ≡ 0 }
    ensures number { result.status ≢ WRONG → result.number ≡ 0 }
    ensures why { result.status ≢ REFUSED → result.why ≡ None }

    // What is said on the error output: the text of the status, whole if the error output did not fail, else first bytes.
    ensures said { ¬ Rose (E.faults err.old) (E.faults err.new) →
        Grew (E.taken err.old) (E.taken err.new) (status_text result.status result.line result.why) }
    ensures said_front { GrewByFront (E.taken err.old) (E.taken err.new) (status_text result.status result.line result.why) }
{
    let outcome = match begin(alloc, words, source, out) {
        Begun::Serves(
            Request {
                pairing,
                setting,
                script,
                printing,
            },
        ) => {
            let told = serve_by(rt, alloc, gate, pairing, setting, script);
            finish(alloc, out, printing, told)
        }
        Begun::Ends(ending) => Outcome::without_run(ending),
    };
    tell(err, outcome.status, outcome.line, outcome.why);
    outcome
}

//! The program: it passes the words and the standard streams to `serve`, with a gate that stops no caller, and ends
//! with its status.
#![tactic(auto)]

ghost use Rattle.std.specs.Prelude.{◌≡◌, [], drop, IfOk, IsErr, IsErrOf, IsNone};
ghost use Rattle.std.specs.Process.{exit_status};
ghost use Rattle.std_alloc.specs.Vec.Iter.{into_iter_items};
ghost use Rattle.ks_script.specs.Outside.{Rose};
ghost use Rattle.ks_words.specs.Words.{bytes_of};
ghost use Rattle.ks_batch.specs.Leaves.{Leaves};

use ks_batch::{Outcome, serve};
use ks_gate::NoGate;
use ks_script::{Sink, Source};
use ks_streams::{StdSink, StdSource};
use ks_words::status::NO_MEMORY;
use std::alloc::{AllocError, Global};
use std::process::ExitCode;
use std::sync::Wait;
use std::thread::Threads;
use std::{env, io};

/// Why there are no words.
#[derive(Clone, Copy, Debug, PartialEq, Eq)]
enum NoWords {
    /// One of them is no text.
    NoText,
    /// Memory ran out.
    Memory,
}

/// The words after the program's name.
fn after_name(alloc: Global, args: env::Args) -> Result<Vec<String>, AllocError>
    ensures { IfOk result (λ words. words.items ≡ drop 1 (into_iter_items args)) }
{
    args.skip(1).collect(alloc)
}

/// The words after the program's name. No clause can say which words the system returns.
///
/// # Errors
///
/// `Memory` if memory ran out; `NoText` with any other error of the system.
fn words(rt: &HostRuntime) -> Result<Vec<String>, NoWords> {
    let args = match env::args(rt) {
        Ok(args) => args,
        Err(error) if error.kind() == io::ErrorKind::OutOfMemory => return Err(NoWords::Memory),
        Err(_) => return Err(NoWords::NoText),
    };
    match after_name(rt.alloc(), args) {
        Ok(words) => Ok(words),
        Err(_) => Err(NoWords::Memory),
    }
}

/// What the process ends with: the status of the outcome.
fn exit_code(outcome: &Outcome) -> ExitCode
    ensures { exit_status result ≡ outcome.now.status }
{
    ExitCode::from(outcome.status)
}

/// Does what the words ask for, with a gate that stops no caller. If one of them is no text, they are no command: it does what it
/// does with no words. If there was no memory for them, the status is 5, nothing is served, read or printed, and nothing is said
/// on the error output.
fn answer<R: Threads + Wait + Sync, S: Source, K: Sink, E: Sink>(
    rt: &R,
    alloc: Global,
    words: Result<Vec<String>, NoWords>,
    source: &mut S,
    out: &mut K,
    err: &mut E,
) -> Outcome
    ensures text { IfOk words (λ text. Leaves (bytes_of text.items)
        (S.left source.old) (S.left source.new) (Rose (S.faults source.old) (S.faults source.new))
        (K.taken out.old) (K.taken out.new) (Rose (K.faults out.old) (K.faults out.new))
        (E.taken err.old) (E.taken err.new) (Rose (E.faults err.old) (E.faults err.new)) result) }
    ensures no_text { IsErrOf words NoWords.NoText → Leaves []
        (S.left source.old) (S.left source.new) (Rose (S.faults source.old) (S.faults source.new))
        (K.taken out.old) (K.taken out.new) (Rose (K.faults out.old) (K.faults out.new))
        (E.taken err.old) (E.taken err.new) (Rose (E.faults err.old) (E.faults err.new)) result }
    ensures no_memory { IsErrOf words NoWords.Memory → result.status ≡ NO_MEMORY }
    ensures not_served { IsErrOf words NoWords.Memory → IsNone result.run }
    ensures unsaid { IsErrOf words NoWords.Memory → E.taken err.new ≡ E.taken err.old }
    ensures unread { IsErr words → S.left source.new ≡ S.left source.old }
    ensures unwritten { IsErr words → K.taken out.new ≡ K.taken out.old }
{
    match words {
        Ok(words) => serve(rt, alloc, &words, source, out, err, &NoGate),
        Err(NoWords::NoText) => serve(rt, alloc, &[], source, out, err, &NoGate),
        Err(NoWords::Memory) => Outcome {
            status: NO_MEMORY,
            line: 0,
            number: 0,
            why: None,
            run: None,
        },
    }
}

fn main(rt: HostRuntime) -> ExitCode {
    let mut source = StdSource::new(rt.stdin());
    let mut out = StdSink::new(rt.stdout());
    let mut err = StdSink::new(rt.stderr());
    let outcome = answer(&rt, rt.alloc(), words(&rt), &mut source, &mut out, &mut err);
    exit_code(&outcome)
}

//! What is printed of a run that was served.

ghost use Rattle.std.specs.Prelude.{◌≡◌, ◌⊎◌, List, IfOk, OnErr};
ghost use Rattle.ks_lines.specs.declared.Line.{Line};
ghost use Rattle.ks_script.specs.Outside.{Rose, Grew, GrewByFront};
ghost use Rattle.ks_ends.specs.Printing.{IsPrintingOf, printed_text};

use ks_generator::{Size, summary};
use ks_script::{Printed, Sink, send, write_run};
use ks_words::status::{DONE, OUTPUT_FAILED};
use std::alloc::{AllocError, Global};

/// What is printed of a run that is served.
#[derive(Clone, Copy, Debug)]
pub enum Printing {
    /// The run.
    Run,
    /// The summary of the run, of a script of this size.
    Summary(Size),
}

/// Writes the run, or the summary of it, and returns the status: `DONE`, or `OUTPUT_FAILED`, and then the output has taken first
/// bytes of the text.
///
/// # Errors
///
/// Only lack of memory: then nothing is written.
pub fn end<K: Sink>(
    alloc: Global,
    out: &mut K,
    printing: Printing,
    printed: &Printed,
) -> Result<u8, AllocError>
    ensures status { IfOk result (λ status. (status ≡ DONE) ⊎ (status ≡ OUTPUT_FAILED)) }
    ensures done { (script : List (List Line)) → IsPrintingOf printing script → IfOk result (λ status. status ≡ DONE →
        Grew (K.taken out.old) (K.taken out.new) (printed_text printing script printed.now)) }
    ensures cut { (script : List (List Line)) → IsPrintingOf printing script → IfOk result (λ status. status ≡ OUTPUT_FAILED →
        GrewByFront (K.taken out.old) (K.taken out.new) (printed_text printing script printed.now)) }
    ensures output { IfOk result (λ status. status ≡ OUTPUT_FAILED → Rose (K.faults out.old) (K.faults out.new)) }
    ensures untouched { OnErr result (K.taken out.new ≡ K.taken out.old) }
{
    let written = match printing {
        Printing::Run => write_run(out, printed),
        Printing::Summary(size) => {
            let text = summary(alloc, size, printed)?;
            send(out, &text)
        }
    };
    match written {
        Ok(()) => Ok(DONE),
        Err(_) => Ok(OUTPUT_FAILED),
    }
}

//! Tables of inputs, each with what is printed or said of it. Each function here reports the first run that leaves something
//! else, or lack of memory.

use crate::runs::{Ends, run};
use crate::wrong::{Wanted, Wrong};
use std::alloc::Global;
use std::sync::Wait;
use std::thread::Threads;

/// Runs the program by the words on the input: it leaves what is wanted.
pub(crate) fn run_as<R: Threads + Wait + Sync>(
    rt: &R,
    alloc: Global,
    words: &str,
    input: &[u8],
    ends: Ends,
    wanted: Wanted,
) -> Result<(), Wrong> {
    let ended = run(rt, alloc, words, input, ends)?;
    if ended.is(wanted) {
        Ok(())
    } else {
        Err(Wrong::run(alloc, words, input, &ended))
    }
}

/// Runs the program by each of the words on each script: it is served, the text of its run is printed, and nothing is said.
pub fn serve_each<R: Threads + Wait + Sync>(
    rt: &R,
    alloc: Global,
    words: &[&str],
    ends: Ends,
    scripts: &[(&[u8], &[u8])],
) -> Result<(), Wrong> {
    for &(input, out) in scripts {
        for words in words {
            let wanted = Wanted {
                status: 0,
                out,
                err: b"",
            };
            run_as(rt, alloc, words, input, ends, wanted)?;
        }
    }
    Ok(())
}

/// Runs the program by the words on each text: it is refused, nothing is printed, and this is said of it.
pub fn refuse_each<R: Threads + Wait + Sync>(
    rt: &R,
    alloc: Global,
    words: &str,
    texts: &[(&[u8], &[u8])],
) -> Result<(), Wrong> {
    for &(input, err) in texts {
        let wanted = Wanted {
            status: 2,
            out: b"",
            err,
        };
        run_as(rt, alloc, words, input, Ends::Whole, wanted)?;
    }
    Ok(())
}

/// Runs the program on each of the words and texts: nothing is printed, this is said, and this is the status.
pub fn say_each<R: Threads + Wait + Sync>(
    rt: &R,
    alloc: Global,
    rows: &[(&str, &[u8], &[u8], u8)],
) -> Result<(), Wrong> {
    for &(words, input, err, status) in rows {
        let wanted = Wanted {
            status,
            out: b"",
            err,
        };
        run_as(rt, alloc, words, input, Ends::Whole, wanted)?;
    }
    Ok(())
}

/// Checks each text, with `front` before it: this is printed as the judgment, or said of a text that is refused, and this is
/// the status.
pub fn check_each<R: Threads + Wait + Sync>(
    rt: &R,
    alloc: Global,
    front: &[u8],
    texts: &[(&[u8], &[u8], u8)],
) -> Result<(), Wrong> {
    for &(text, said, status) in texts {
        let mut input = Vec::from_slice(alloc, front)?;
        input.extend_from_slice(text)?;
        let wanted = judgment(said, status);
        run_as(rt, alloc, "check", &input, Ends::Whole, wanted)?;
    }
    Ok(())
}

/// What a check leaves: it is said on the error output if the text is refused, else it is printed.
fn judgment(said: &[u8], status: u8) -> Wanted {
    if status == 2 {
        Wanted {
            status,
            out: b"",
            err: said,
        }
    } else {
        Wanted {
            status,
            out: said,
            err: b"",
        }
    }
}

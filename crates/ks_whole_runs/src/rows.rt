//! Tables of runs whose texts are made of pieces, and whose callers may be stopped.

use crate::runs::{Ended, Ends, run, run_at};
use crate::tables::run_as;
use crate::texts::{Piece, text_of};
use crate::wrong::{Wanted, Wrong};
use ks_gate::{Meet, Point, Stand};
use std::alloc::{AllocError, Global};
use std::sync::Wait;
use std::thread::Threads;

/// Where caller 0 is stopped until caller 1 has made calls, for at most a number of turns of its gate.
#[derive(Clone, Copy)]
pub enum Stop {
    /// Nowhere.
    Never,
    /// At this point, after caller 0 has made `after` calls, until caller 1 has made one.
    Meet {
        after: u64,
        at: Point,
        turns: u64,
    },
    /// At this point, after caller 0 has made `after` calls, until caller 1 has made `calls`.
    Stand {
        after: u64,
        at: Point,
        calls: u64,
        turns: u64,
    },
}

/// What is run, and what it leaves.
#[derive(Clone, Copy)]
pub struct Row {
    /// The words of runs that are to end alike.
    pub words: &'static [&'static str],
    pub input: &'static [Piece],
    pub ends: Ends,
    pub stop: Stop,
    pub status: u8,
    /// What is printed.
    pub out: &'static [Piece],
    /// Whether something else may be printed.
    pub prints_any: bool,
    /// What is said on the error output.
    pub err: &'static [u8],
    /// Whether the stop ends by the number of turns.
    pub times_out: bool,
    /// What `check` prints of the input and what was printed of it, if it is asked.
    pub judged: Option<&'static [u8]>,
}

/// A run that is served, and says nothing. It has no command, so a row that does not set its words fails.
pub const SERVED: Row = Row {
    words: &[""],
    input: &[],
    ends: Ends::Whole,
    stop: Stop::Never,
    status: 0,
    out: &[],
    prints_any: false,
    err: b"",
    times_out: false,
    judged: None,
};

/// Runs each row by each of its words.
///
/// # Errors
///
/// The first run that leaves something else, a row without words, or lack of memory.
pub fn run_each<R: Threads + Wait + Sync>(
    rt: &R,
    alloc: Global,
    rows: &[Row],
) -> Result<(), Wrong> {
    for row in rows {
        if row.words.is_empty() {
            return Err(Wrong::Empty);
        }
        let input = text_of(alloc, row.input)?;
        let out = text_of(alloc, row.out)?;
        for words in row.words {
            run_row(rt, alloc, row, words, &input, &out)?;
        }
    }
    Ok(())
}

/// Runs a row by these of its words, and checks what was printed if that is to be judged.
fn run_row<R: Threads + Wait + Sync>(
    rt: &R,
    alloc: Global,
    row: &Row,
    words: &str,
    input: &[u8],
    out: &[u8],
) -> Result<(), Wrong> {
    let (ended, timed_out) = run_stopped(rt, alloc, words, input, row)?;
    let wanted = Wanted {
        status: row.status,
        out: if row.prints_any { &ended.out } else { out },
        err: row.err,
    };
    if timed_out != row.times_out || !ended.is(wanted) {
        return Err(Wrong::run(alloc, words, input, &ended));
    }
    match row.judged {
        Some(judged) => judge(rt, alloc, input, &ended.out, judged),
        None => Ok(()),
    }
}

/// Runs a row by these of its words. The second part is whether its stop ended by the number of turns.
fn run_stopped<R: Threads + Wait + Sync>(
    rt: &R,
    alloc: Global,
    words: &str,
    input: &[u8],
    row: &Row,
) -> Result<(Ended, bool), AllocError> {
    match row.stop {
        Stop::Never => Ok((run(rt, alloc, words, input, row.ends)?, false)),
        Stop::Meet { after, at, turns } => {
            let gate = Meet::of(0, after, at, 1, turns);
            let ended = run_at(rt, alloc, words, input, row.ends, &gate)?;
            Ok((ended, gate.failed()))
        }
        Stop::Stand {
            after,
            at,
            calls,
            turns,
        } => {
            let gate = Stand::of(0, after, at, 1, calls, turns);
            let ended = run_at(rt, alloc, words, input, row.ends, &gate)?;
            Ok((ended, gate.failed()))
        }
    }
}

/// Checks a script and what was printed of it.
fn judge<R: Threads + Wait + Sync>(
    rt: &R,
    alloc: Global,
    script: &[u8],
    printed: &[u8],
    judged: &[u8],
) -> Result<(), Wrong> {
    let mut text = Vec::from_slice(alloc, script)?;
    text.extend_from_slice(b"run\n")?;
    text.extend_from_slice(printed)?;
    let wanted = Wanted {
        status: 0,
        out: judged,
        err: b"",
    };
    run_as(rt, alloc, "check", &text, Ends::Whole, wanted)
}

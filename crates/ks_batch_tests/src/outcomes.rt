//! What `serve` returns beside the status: the line, the number, and the trace of a run.

use crate::ends::{READ_FAULT, WRITE_FAULT};
use crate::faulty::{Faulty, SOUND, fail_each};
use ks_whole_runs::Piece::Times;
use ks_whole_runs::{Ends, FIRST, RUN, Wrong, run};
use std::alloc::Global;
use std::sync::Wait;
use std::thread::Threads;

/// Words, inputs, and what each leaves: the status, the line, the number, and whether there is a trace.
const OUTCOMES: [(&str, &[u8], u8, u64, u64, bool); 11] = [
    (RUN, FIRST, 0, 0, 0, true),
    (RUN, b"", 0, 0, 0, true),
    (RUN, b"caller\nput 1 1\nput 01 1\n", 2, 3, 0, false),
    ("make bplus coupling 64 1 2 0", b"", 0, 0, 0, true),
    (
        "check",
        b"caller\nput 5 50\nget 5\nrun\ncaller 0\n0 none\n1 50\nmap\n5 50\nend\n",
        0,
        0,
        0,
        false,
    ),
    (
        "check",
        b"caller\nput 5 50\nget 5\nrun\ncaller 0\n0 none\n1 51\nmap\n5 50\nend\n",
        6,
        0,
        1,
        false,
    ),
    (
        "check",
        b"caller\nput 5 50\nget 5\nrun\ncaller 0\n0 none\n1 50\nmap\nend\n",
        6,
        0,
        2,
        false,
    ),
    (
        "check",
        b"caller\nput 5 50\nget 5\nrun\ncaller 0\n0 none\n1\n",
        2,
        7,
        0,
        false,
    ),
    ("check", b"", 2, 1, 0, false),
    ("run list link 64", FIRST, 1, 0, 0, false),
    ("check now", FIRST, 1, 0, 0, false),
];

/// Runs the program on each of the words and inputs.
fn end_each<R: Threads + Wait + Sync>(
    rt: &R,
    alloc: Global,
    rows: &[(&str, &[u8], u8, u64, u64, bool)],
) -> Result<(), Wrong> {
    for &(words, input, status, line, number, has_run) in rows {
        let ended = run(rt, alloc, words, input, Ends::Whole)?;
        let is_named = ended.line == line && ended.number == number;
        if ended.status != status || !is_named || ended.has_run != has_run {
            return Err(Wrong::run(alloc, words, input, &ended));
        }
    }
    Ok(())
}

#[test]
fn each_outcome_has_its_line_and_its_number(rt: HostRuntime) -> Result<(), Wrong> {
    end_each(&rt, rt.alloc(), &OUTCOMES)
}

/// How many lines before the map begin with a digit.
fn numbered(text: &[u8]) -> usize {
    let mut count = 0usize;
    let mut is_first = true;
    for byte in text {
        if is_first && *byte == b'm' {
            return count;
        }
        if is_first && *byte >= b'0' && *byte <= b'9' {
            count = count.saturating_add(1);
        }
        is_first = *byte == b'\n';
    }
    count
}

/// Five calls of three callers, and words that serve them.
const FIVE_CALLS: &[u8] = b"caller\nput 1 1\nget 1\ncaller\ncaller\ndel 1\nput 1 1\nget 2\n";

const SERVING: [&str; 3] = [RUN, "run bplus giveup 4 1", "run hash link 4 2"];

/// Serves the five calls by each of the words: there is a trace, and a line for each call.
fn number_each<R: Threads + Wait + Sync>(
    rt: &R,
    alloc: Global,
    words: &[&str],
) -> Result<(), Wrong> {
    for words in words {
        let ended = run(rt, alloc, words, FIVE_CALLS, Ends::Whole)?;
        if !ended.has_run || ended.status != 0 || numbered(&ended.out) != 5 {
            return Err(Wrong::run(alloc, words, FIVE_CALLS, &ended));
        }
    }
    Ok(())
}

/// Each call of a run that left a trace is printed on a line of its own.
#[test]
fn a_run_with_a_trace_has_all_its_calls(rt: HostRuntime) -> Result<(), Wrong> {
    number_each(&rt, rt.alloc(), &SERVING)
}

/// An output and an input that fail, and an input of too many bytes.
static TRACES: [Faulty; 3] = [
    WRITE_FAULT,
    READ_FAULT,
    Faulty {
        words: RUN,
        input: &[Times(16777217, b"a")],
        source: SOUND,
        sink: SOUND,
        status: 2,
        out: b"",
        err: b"too many bytes\n",
        has_run: false,
    },
];

/// A run whose text could not be written was served all the same, and of one that was not read there is no trace.
#[test]
fn an_end_that_fails_leaves_a_trace_if_callers_were_served(rt: HostRuntime) -> Result<(), Wrong> {
    fail_each(&rt, rt.alloc(), &TRACES)
}

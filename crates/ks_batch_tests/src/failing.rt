//! Ends that fail at each of their calls in turn, and ends that pass a byte at a time.

use crate::faulty::{End, Faulty, NEVER, SOUND, fail_each, run_by};
use ks_whole_runs::Piece::{Bytes, Nones, Times};
use ks_whole_runs::{
    Ends, FIRST, FIRST_RUN, Piece, RUN, Row, SERVED, USAGE, Wanted, Wrong, run_each, text_of,
};
use std::alloc::Global;
use std::sync::Wait;
use std::thread::Threads;

/// A script, what is printed of it, and how many reads and writes that takes.
struct Counted {
    script: &'static [Piece],
    printed: &'static [Piece],
    /// How many bytes a read and a write pass at most.
    most: usize,
    reads: u64,
    writes: u64,
}

/// Serves the script with ends that pass at most `most` bytes at a time. The read and the write with these numbers fail.
fn serve_failing<R: Threads + Wait + Sync>(
    rt: &R,
    alloc: Global,
    script: &[u8],
    most: usize,
    read: u64,
    write: u64,
    wanted: Wanted,
) -> Result<(), Wrong> {
    let source = End { most, fails: read };
    let sink = End { most, fails: write };
    let ended = run_by(rt, alloc, RUN, script, source, sink, SOUND)?;
    if ended.is(wanted) {
        Ok(())
    } else {
        Err(Wrong::run(alloc, RUN, script, &ended))
    }
}

/// Each read ends the run with nothing printed if only it fails, and there are no more reads.
fn fail_each_read<R: Threads + Wait + Sync>(
    rt: &R,
    alloc: Global,
    script: &[u8],
    printed: &[u8],
    most: usize,
    reads: u64,
) -> Result<(), Wrong> {
    for read in 0..reads {
        let wanted = Wanted {
            status: 3,
            out: b"",
            err: b"read fault\n",
        };
        serve_failing(rt, alloc, script, most, read, NEVER, wanted)?;
    }
    let wanted = Wanted {
        status: 0,
        out: printed,
        err: b"",
    };
    serve_failing(rt, alloc, script, most, reads, NEVER, wanted)
}

/// Each write leaves just what was taken before it if only it fails, and there are no more writes.
fn fail_each_write<R: Threads + Wait + Sync>(
    rt: &R,
    alloc: Global,
    script: &[u8],
    printed: &[u8],
    most: usize,
    writes: u64,
) -> Result<(), Wrong> {
    for write in 0..writes {
        let taken = (write as usize).saturating_mul(most).min(printed.len());
        let wanted = Wanted {
            status: 4,
            out: &printed[..taken],
            err: b"write fault\n",
        };
        serve_failing(rt, alloc, script, most, NEVER, write, wanted)?;
    }
    let wanted = Wanted {
        status: 0,
        out: printed,
        err: b"",
    };
    serve_failing(rt, alloc, script, most, NEVER, writes, wanted)
}

/// Serves the script, and each of its reads and writes fails in turn.
fn fail_each_call<R: Threads + Wait + Sync>(
    rt: &R,
    alloc: Global,
    row: &Counted,
) -> Result<(), Wrong> {
    let script = text_of(alloc, row.script)?;
    let printed = text_of(alloc, row.printed)?;
    fail_each_read(rt, alloc, &script, &printed, row.most, row.reads)?;
    fail_each_write(rt, alloc, &script, &printed, row.most, row.writes)
}

static SHORT: Counted = Counted {
    script: &[Bytes(FIRST)],
    printed: &[Bytes(FIRST_RUN)],
    most: 4096,
    reads: 2,
    writes: 1,
};

#[test]
fn each_read_and_each_write_of_a_short_run_fails(rt: HostRuntime) -> Result<(), Wrong> {
    fail_each_call(&rt, rt.alloc(), &SHORT)
}

static SINGLE_BYTES: Counted = Counted {
    script: &[Bytes(FIRST)],
    printed: &[Bytes(FIRST_RUN)],
    most: 1,
    reads: 23,
    writes: 34,
};

#[test]
fn each_read_and_each_write_of_a_single_byte_fails(rt: HostRuntime) -> Result<(), Wrong> {
    fail_each_call(&rt, rt.alloc(), &SINGLE_BYTES)
}

/// 2,000 gets, and what is printed of them.
const GETS: &[Piece] = &[Bytes(b"caller\n"), Times(2000, b"get 0\n")];

const GETS_RUN: &[Piece] = &[Bytes(b"caller 0\n"), Nones(0, 1999), Bytes(b"map\nend\n")];

/// They are read in three pieces, and the replies to them are written in five.
static PIECES: Counted = Counted {
    script: GETS,
    printed: GETS_RUN,
    most: 4096,
    reads: 4,
    writes: 5,
};

/// They are served alike by a byte at a time.
static BYTEWISE: [Row; 1] = [Row {
    words: &[RUN],
    ends: Ends::Bytewise,
    input: GETS,
    out: GETS_RUN,
    ..SERVED
}];

#[test]
fn each_read_and_each_write_of_a_run_in_pieces_fails(rt: HostRuntime) -> Result<(), Wrong> {
    fail_each_call(&rt, rt.alloc(), &PIECES)?;
    run_each(&rt, rt.alloc(), &BYTEWISE)
}

/// A command of each kind, an input and what is printed.
static COMMANDS: [Row; 3] = [
    Row {
        words: &[RUN],
        ends: Ends::Bytewise,
        input: &[Bytes(FIRST)],
        out: &[Bytes(FIRST_RUN)],
        ..SERVED
    },
    Row {
        words: &["check"],
        ends: Ends::Bytewise,
        input: &[Bytes(b"caller\nput 5 50\nget 5\nrun\ncaller 0\n0 none\n1 50\nmap\n5 50\nend\n")],
        out: &[Bytes(b"legal 2\n")],
        ..SERVED
    },
    Row {
        words: &["make bplus coupling 64 1 2 0"],
        ends: Ends::Bytewise,
        out: &[Bytes(b"callers 1\ncalls 2\nfound 0\nnone 2\nfull 0\npairs 1\nsum 95564294500\n")],
        ..SERVED
    },
];

#[test]
fn a_byte_at_a_time_changes_no_output(rt: HostRuntime) -> Result<(), Wrong> {
    run_each(&rt, rt.alloc(), &COMMANDS)
}

/// Words and inputs, what is said of them on the error output, and the status. Nothing is printed.
const SAID: [(&str, &[u8], &[u8], u8); 3] = [
    ("run list link 64", b"", USAGE, 1),
    (
        RUN,
        b"caller\nput 1\n",
        b"line 2 refused\na word is missing at its end\n",
        2,
    ),
    (
        "check",
        b"caller\n",
        b"line 2 refused\nthe text ends before it\n",
        2,
    ),
];

/// Runs the program on each row, with an error output that fails after each number of single bytes that is less than all.
fn cut_each<R: Threads + Wait + Sync>(
    rt: &R,
    alloc: Global,
    rows: &[(&str, &[u8], &[u8], u8)],
) -> Result<(), Wrong> {
    for &(words, input, said, status) in rows {
        for taken in 0..said.len() {
            let err = End {
                most: 1,
                fails: taken as u64,
            };
            let ended = run_by(rt, alloc, words, input, SOUND, SOUND, err)?;
            let wanted = Wanted {
                status,
                out: b"",
                err: &said[..taken],
            };
            if !ended.is(wanted) {
                return Err(Wrong::run(alloc, words, input, &ended));
            }
        }
    }
    Ok(())
}

#[test]
fn a_failing_error_output_changes_no_status(rt: HostRuntime) -> Result<(), Wrong> {
    cut_each(&rt, rt.alloc(), &SAID)
}

/// Runs the program on each row, with an error output whose second write fails.
fn say_each_at_once<R: Threads + Wait + Sync>(
    rt: &R,
    alloc: Global,
    rows: &[(&str, &[u8], &[u8], u8)],
) -> Result<(), Wrong> {
    for &(words, input, said, status) in rows {
        let err = End {
            most: 4096,
            fails: 1,
        };
        let ended = run_by(rt, alloc, words, input, SOUND, SOUND, err)?;
        let wanted = Wanted {
            status,
            out: b"",
            err: said,
        };
        if !ended.is(wanted) {
            return Err(Wrong::run(alloc, words, input, &ended));
        }
    }
    Ok(())
}

/// What is said is offered in one piece: a second write is never made.
#[test]
fn what_is_said_goes_out_whole(rt: HostRuntime) -> Result<(), Wrong> {
    say_each_at_once(&rt, rt.alloc(), &SAID)
}

/// A check with an output whose second write fails.
static JUDGMENT: [Faulty; 1] = [Faulty {
    words: "check",
    input: &[Bytes(b"run\nmap\nend\n")],
    source: SOUND,
    sink: End {
        most: 4096,
        fails: 1,
    },
    status: 0,
    out: b"legal 0\n",
    err: b"",
    has_run: false,
}];

/// So is a judgment.
#[test]
fn a_judgment_goes_out_whole(rt: HostRuntime) -> Result<(), Wrong> {
    fail_each(&rt, rt.alloc(), &JUDGMENT)
}

//! Inputs past their limits, and ends that fail.

use crate::faulty::{End, Faulty, SOUND, fail_each};
use ks_whole_runs::Piece::{Bytes, Times};
use ks_whole_runs::{FIRST, RUN, Row, SERVED, Wrong, run_each};

static CALLERS: [Row; 1] = [Row {
    words: &[RUN],
    input: &[Times(65, b"caller\n")],
    status: 2,
    err: b"line 65 refused\nit is one caller more than the version of the script allows\n",
    ..SERVED
}];

#[test]
fn refuses_the_caller_past_the_limit(rt: HostRuntime) -> Result<(), Wrong> {
    run_each(&rt, rt.alloc(), &CALLERS)
}

static LONG: [Row; 1] = [Row {
    words: &[RUN],
    input: &[Times(16777217, b"a")],
    status: 2,
    err: b"too many bytes\n",
    ..SERVED
}];

#[test]
fn refuses_the_byte_past_the_limit(rt: HostRuntime) -> Result<(), Wrong> {
    run_each(&rt, rt.alloc(), &LONG)
}

/// A run whose third write fails.
pub const WRITE_FAULT: Faulty = Faulty {
    words: RUN,
    input: &[Bytes(FIRST)],
    source: SOUND,
    sink: End { most: 5, fails: 2 },
    status: 4,
    out: b"caller 0\n0",
    err: b"write fault\n",
    has_run: true,
};

/// A run whose first read fails.
pub const READ_FAULT: Faulty = Faulty {
    words: RUN,
    input: &[Bytes(FIRST)],
    source: End {
        most: 4096,
        fails: 0,
    },
    sink: SOUND,
    status: 3,
    out: b"",
    err: b"read fault\n",
    has_run: false,
};

static FAULTS: [Faulty; 2] = [WRITE_FAULT, READ_FAULT];

#[test]
fn tells_that_an_end_failed(rt: HostRuntime) -> Result<(), Wrong> {
    fail_each(&rt, rt.alloc(), &FAULTS)
}

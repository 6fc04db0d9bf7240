//! Texts that nobody means well: near misses of a script, texts past their limits, runs that contradict themselves.

use ks_whole_runs::Piece::{Bytes, Times};
use ks_whole_runs::{RUN, Row, SERVED, Wrong, check_each, refuse_each, run_each};

/// Texts that are no script, and what is said of them.
const NO_SCRIPTS: [(&[u8], &[u8]); 9] = [
    (
        b"caller\nput  1 2\n",
        b"line 2 refused\na word is no number: only digits, no leading zero, one space before it\n",
    ),
    (
        b"caller\nput 1\n",
        b"line 2 refused\na word is missing at its end\n",
    ),
    (
        b"caller\nget 1 \n",
        b"line 2 refused\na word or a space is too many at its end\n",
    ),
    (
        b"caller\n\n",
        b"line 2 refused\nno line begins with its first word\n",
    ),
    (
        b"caller\nget -1\n",
        b"line 2 refused\na word is no number: only digits, no leading zero, one space before it\n",
    ),
    (
        b"caller\nget 00\n",
        b"line 2 refused\na word is no number: only digits, no leading zero, one space before it\n",
    ),
    (
        b"caller\nget 1\r\n",
        b"line 2 refused\na word is no number: only digits, no leading zero, one space before it\n",
    ),
    (
        b"CALLER\n",
        b"line 1 refused\nno line begins with its first word\n",
    ),
    (
        b"\0",
        b"line 1 refused\nno line begins with its first word\n",
    ),
];

/// Texts of a script and a run of it, and what is said of them, with the status.
const RUNS: [(&[u8], &[u8], u8); 8] = [
    (b"run\nmap\nend\n", b"legal 0\n", 0),
    (
        b"caller\nget 1\nrun\ncaller 0\n0 none\nmap\n",
        b"line 7 refused\nfrom it on the lines are no run of the script\n",
        2,
    ),
    (
        b"caller\nget 1\nrun\ncaller 0\n0 none\nmap\nend\nx\n",
        b"line 8 refused\nfrom it on the lines are no run of the script\n",
        2,
    ),
    (
        b"caller\nget 1\nget 2\nrun\ncaller 0\n0 none\n0 none\nmap\nend\n",
        b"wrong 0\n",
        6,
    ),
    (
        b"caller\nget 1\nget 2\nrun\ncaller 0\n1 none\n0 none\nmap\nend\n",
        b"wrong 0\n",
        6,
    ),
    (
        b"caller\nput 1 1\nrun\ncaller 0\n0 full\nmap\nend\n",
        b"legal 1\n",
        0,
    ),
    (
        b"caller\nput 1 1\nrun\ncaller 0\n0 full\nmap\n1 1\nend\n",
        b"wrong 1\n",
        6,
    ),
    (
        b"caller\nget 1\nrun\ncaller 0\n0 full\nmap\nend\n",
        b"wrong 0\n",
        6,
    ),
];

#[test]
fn refuses_near_misses_of_a_script(rt: HostRuntime) -> Result<(), Wrong> {
    refuse_each(&rt, rt.alloc(), RUN, &NO_SCRIPTS)
}

#[test]
fn judges_runs_that_contradict_themselves(rt: HostRuntime) -> Result<(), Wrong> {
    check_each(&rt, rt.alloc(), b"", &RUNS)
}

static EMPTY_LINES: [Row; 1] = [Row {
    words: &[RUN],
    input: &[Times(16777216, b"\n")],
    status: 2,
    err: b"line 1 refused\nno line begins with its first word\n",
    ..SERVED
}];

#[test]
fn refuses_as_many_empty_lines_as_it_reads(rt: HostRuntime) -> Result<(), Wrong> {
    run_each(&rt, rt.alloc(), &EMPTY_LINES)
}

static CALLS: [Row; 1] = [Row {
    words: &[RUN],
    input: &[Bytes(b"caller\n"), Times(1048577, b"get 0\n")],
    status: 2,
    err: b"line 1048578 refused\nit is one call more than the 1048576 that a script may have\n",
    ..SERVED
}];

#[test]
fn refuses_the_call_past_the_limit(rt: HostRuntime) -> Result<(), Wrong> {
    run_each(&rt, rt.alloc(), &CALLS)
}

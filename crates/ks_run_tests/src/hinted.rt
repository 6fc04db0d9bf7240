//! Scripts served by calls that begin at hints.

use ks_whole_runs::Piece::{Bytes, Nones, Pairs, Puts};
use ks_whole_runs::{Row, SERVED, USAGE, Wrong, run_each};

/// The pairings whose calls can begin at hints, over 64 nodes, with one worker.
const HINTED: [&str; 6] = [
    "hinted list giveup 64 1",
    "hinted bplus giveup 64 1",
    "hinted hash giveup 64 1",
    "hinted bst giveup 64 1",
    "hinted bplus link 64 1",
    "hinted hash link 64 1",
];

/// Words that are no command.
const OTHERS: [&str; 7] = [
    "hinted bplus coupling 64 1",
    "hinted list coupling 64 1",
    "hinted bplus link 64",
    "hinted bplus link 64 0",
    "hinted bplus link 64 65",
    "hinted bplus link 3 1",
    "hinted list link 64 1",
];

/// Puts of one caller, and a get of the last key.
static ALIKE: [Row; 1] = [Row {
    words: &HINTED,
    input: &[Bytes(b"caller\n"), Puts(0, 16), Bytes(b"get 16\n")],
    out: &[
        Bytes(b"caller 0\n"),
        Nones(0, 16),
        Bytes(b"17 16\nmap\n"),
        Pairs(0, 16),
        Bytes(b"end\n"),
    ],
    ..SERVED
}];

#[test]
fn one_caller_is_served_alike_with_hints(rt: HostRuntime) -> Result<(), Wrong> {
    run_each(&rt, rt.alloc(), &ALIKE)
}

static REFUSED: [Row; 1] = [Row {
    words: &OTHERS,
    input: &[Bytes(b"caller\n")],
    status: 1,
    err: USAGE,
    ..SERVED
}];

#[test]
fn words_that_ask_for_no_hints_are_no_command(rt: HostRuntime) -> Result<(), Wrong> {
    run_each(&rt, rt.alloc(), &REFUSED)
}

/// Two callers with two workers, and with one: each run is judged legal.
static LEGAL: [Row; 1] = [Row {
    words: &[
        "hinted bplus link 64 2",
        "hinted bplus giveup 64 2",
        "hinted bst giveup 64 1",
    ],
    input: &[Bytes(b"caller\nput 7 70\ncaller\nget 7\n")],
    prints_any: true,
    judged: Some(b"legal 2\n"),
    ..SERVED
}];

#[test]
fn runs_with_hints_are_legal(rt: HostRuntime) -> Result<(), Wrong> {
    run_each(&rt, rt.alloc(), &LEGAL)
}

/// A call of each kind at one key, a scan and a move.
const EACH_KIND: &[u8] = b"script 4\ncaller\nadd 1 10\nswap 1 10 11\nmove 1 2\nscan 0 9 1\ndel 2\n";

/// Adds, swaps, scans and moves go along with calls that begin at hints; a script of no caller has no calls.
static VERSIONS: [Row; 3] = [
    Row {
        words: &["hinted bplus giveup 4 1"],
        input: &[Bytes(EACH_KIND)],
        out: &[Bytes(b"caller 0\n0 none\n1 10\n2 11\n3 9 2 11\nwhole\n4 11\nmap\nend\n")],
        ..SERVED
    },
    Row {
        words: &["hinted bplus link 4 1"],
        input: &[Bytes(EACH_KIND)],
        status: 7,
        err: b"line 5 unfit\n",
        ..SERVED
    },
    Row {
        words: &["hinted bplus link 4 64"],
        out: &[Bytes(b"map\nend\n")],
        ..SERVED
    },
];

#[test]
fn scripts_of_each_version_are_served_with_hints(rt: HostRuntime) -> Result<(), Wrong> {
    run_each(&rt, rt.alloc(), &VERSIONS)
}

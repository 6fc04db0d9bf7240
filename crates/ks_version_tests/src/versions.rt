//! Scripts of the second version: adds, swaps, wide values, more callers; and the greatest arenas.

use ks_whole_runs::Piece::{Adds, Bytes, Nones, Pairs, Times};
use ks_whole_runs::{
    Ends, FIRST, RUN, Row, SERVED, Wrong, check_each, refuse_each, run_each, serve_each,
};

/// Scripts of the second version, and the texts of their runs.
const RUNS: [(&[u8], &[u8]); 3] = [
    (
        b"script 2\ncaller\nadd 5 1\nadd 5 2\nswap 5 1 340282366920938463463374607431768211455\nswap 5 1 0\nget 5\n",
        b"caller 0\n0 none\n1 1\n2 1\n3 340282366920938463463374607431768211455\n4 340282366920938463463374607431768211455\nmap\n5 340282366920938463463374607431768211455\nend\n",
    ),
    (
        b"script 2\ncaller\nswap 9 0 1\n",
        b"caller 0\n0 none\nmap\nend\n",
    ),
    (b"script 2", b"map\nend\n"),
];

/// Scripts, and what is said of them.
const REFUSALS: [(&[u8], &[u8]); 4] = [
    (
        b"caller\nadd 5 1\n",
        b"line 2 refused\nthe version of the script has no such line\n",
    ),
    (
        b"caller\nscript 2\n",
        b"line 2 refused\nonly the first line says a version: script 2, script 3 or script 4\n",
    ),
    (
        b"script 9\n",
        b"line 1 refused\nonly the first line says a version: script 2, script 3 or script 4\n",
    ),
    (
        b"script 2\ncaller\nput 1 340282366920938463463374607431768211456\n",
        b"line 3 refused\na key or a value is too great, or PARTS is not 1 to 64\n",
    ),
];

/// What is checked, and what is said of it, with the status.
const CHECKS: [(&[u8], &[u8], u8); 5] = [
    (
        b"script 2\ncaller\nadd 5 340282366920938463463374607431768211455\nrun\ncaller 0\n0 none\nmap\n5 340282366920938463463374607431768211455\nend\n",
        b"legal 1\n",
        0,
    ),
    (
        b"script 2\ncaller\nadd 5 1\nadd 5 2\nrun\ncaller 0\n0 none\n1 1\nmap\n5 2\nend\n",
        b"wrong 2\n",
        6,
    ),
    (
        b"script 2\ncaller\nadd 1 1\nrun\ncaller 0\n0 full\nmap\nend\n",
        b"legal 1\n",
        0,
    ),
    (
        b"script 2\ncaller\nswap 1 1 2\nrun\ncaller 0\n0 full\nmap\nend\n",
        b"wrong 0\n",
        6,
    ),
    (
        b"script 2\ncaller\nput 5 1\nswap 5 2 3\nrun\ncaller 0\n0 none\n1 1\nmap\n5 3\nend\n",
        b"wrong 2\n",
        6,
    ),
];

#[test]
fn adds_and_swaps_are_served(rt: HostRuntime) -> Result<(), Wrong> {
    serve_each(&rt, rt.alloc(), &[RUN], Ends::Whole, &RUNS)
}

#[test]
fn lines_of_another_version_are_refused(rt: HostRuntime) -> Result<(), Wrong> {
    refuse_each(&rt, rt.alloc(), RUN, &REFUSALS)
}

#[test]
fn runs_of_the_second_version_are_judged(rt: HostRuntime) -> Result<(), Wrong> {
    check_each(&rt, rt.alloc(), b"", &CHECKS)
}

/// Callers that each ask for a key.
static ASKING: [Row; 2] = [
    Row {
        words: &[RUN],
        input: &[Bytes(b"script 2\n"), Times(65, b"caller\nget 7\n")],
        prints_any: true,
        judged: Some(b"legal 65\n"),
        ..SERVED
    },
    Row {
        words: &[RUN],
        input: &[Bytes(b"script 2\n"), Times(1025, b"caller\nget 7\n")],
        status: 2,
        err: b"line 2050 refused\nit is one caller more than the version of the script allows\n",
        ..SERVED
    },
];

#[test]
fn a_script_of_the_second_version_has_more_callers(rt: HostRuntime) -> Result<(), Wrong> {
    run_each(&rt, rt.alloc(), &ASKING)
}

/// Adds of more keys than four nodes have room for, and then of one that is present.
static FULL: [Row; 1] = [Row {
    words: &["run list coupling 4"],
    input: &[
        Bytes(b"script 2\ncaller\n"),
        Adds(0, 20),
        Bytes(b"add 3 99\n"),
    ],
    out: &[
        Bytes(b"caller 0\n"),
        Nones(0, 19),
        Bytes(b"20 full\n21 3\nmap\n"),
        Pairs(0, 19),
        Bytes(b"end\n"),
    ],
    ..SERVED
}];

/// An add finds no node free as a put does. At a key that is present it returns the value there, and leaves it.
#[test]
fn adds_fill_a_list(rt: HostRuntime) -> Result<(), Wrong> {
    run_each(&rt, rt.alloc(), &FULL)
}

/// What is printed of `FIRST`.
const ONE_PAIR: [(&[u8], &[u8]); 1] = [(FIRST, b"caller 0\n0 none\n1 50\nmap\n5 50\nend\n")];

#[test]
fn an_arena_may_have_more_nodes_than_16_bits_count(rt: HostRuntime) -> Result<(), Wrong> {
    serve_each(
        &rt,
        rt.alloc(),
        &["run bplus coupling 65537"],
        Ends::Whole,
        &ONE_PAIR,
    )
}

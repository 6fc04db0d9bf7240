//! Scripts of the third version: scans in parts, each of which is a call.

use ks_gate::Point;
use ks_whole_runs::Piece::{Bytes, Nones, Pairs, Puts, Times};
use ks_whole_runs::{
    Ends, RUN, Row, SERVED, Stop, Wrong, check_each, refuse_each, run_each, serve_each,
};

/// Over B+ nodes both techniques that scan, with four nodes and with 64.
const FOUR: [&str; 2] = ["run bplus giveup 4", "run bplus link 4"];

const MANY: [&str; 2] = ["run bplus giveup 64", "run bplus link 64"];

/// Scripts and the texts of their runs.
const RUNS: [(&[u8], &[u8]); 6] = [
    (
        b"script 3\ncaller\nscan 5 5 1\n",
        b"caller 0\n0 5\nwhole\nmap\nend\n",
    ),
    (
        b"script 3\ncaller\nscan 0 18446744073709551615 64\n",
        b"caller 0\n0 18446744073709551615\nwhole\nmap\nend\n",
    ),
    (
        b"script 3\ncaller\nput 18446744073709551615 1\nscan 18446744073709551615 18446744073709551615 1\n",
        b"caller 0\n0 none\n1 18446744073709551615 18446744073709551615 1\nwhole\nmap\n18446744073709551615 1\nend\n",
    ),
    (
        b"script 3\ncaller\nadd 3 30\nscan 4 9 2\nscan 0 3 1\nscan 3 3 1\ndel 3\nscan 0 9 1\n",
        b"caller 0\n0 none\n1 9\nwhole\n2 3 3 30\nwhole\n3 3 3 30\nwhole\n4 30\n5 9\nwhole\nmap\nend\n",
    ),
    (
        b"script 3\ncaller\nswap 1 2 340282366920938463463374607431768211455\nput 1 340282366920938463463374607431768211455\nscan 1 1 64",
        b"caller 0\n0 none\n1 none\n2 1 1 340282366920938463463374607431768211455\nwhole\nmap\n1 340282366920938463463374607431768211455\nend\n",
    ),
    (b"script 3", b"map\nend\n"),
];

/// Scripts, and what is said of them.
const REFUSALS: [(&[u8], &[u8]); 10] = [
    (
        b"script 2\ncaller\nscan 0 5 1\n",
        b"line 3 refused\nthe version of the script has no such line\n",
    ),
    (
        b"caller\nscan 0 5 1\n",
        b"line 2 refused\nthe version of the script has no such line\n",
    ),
    (
        b"script 3\nscan 0 5 1\n",
        b"line 2 refused\nit comes before the first caller\n",
    ),
    (
        b"script 3\ncaller\nscan 5 4 1\n",
        b"line 3 refused\nLOW is greater than LAST\n",
    ),
    (
        b"script 3\ncaller\nscan 0 5 0\n",
        b"line 3 refused\na key or a value is too great, or PARTS is not 1 to 64\n",
    ),
    (
        b"script 3\ncaller\nscan 0 5 65\n",
        b"line 3 refused\na key or a value is too great, or PARTS is not 1 to 64\n",
    ),
    (
        b"script 3\ncaller\nscan 0 5\n",
        b"line 3 refused\na word is missing at its end\n",
    ),
    (
        b"script 3\ncaller\nscan 0 18446744073709551616 1\n",
        b"line 3 refused\na key or a value is too great, or PARTS is not 1 to 64\n",
    ),
    (
        b"script 3\ncaller\nmove 1 2\n",
        b"line 3 refused\nthe version of the script has no such line\n",
    ),
    (
        b"script 3\ncaller\nscript 3\n",
        b"line 3 refused\nonly the first line says a version: script 2, script 3 or script 4\n",
    ),
];

/// A script of two scans, before the run that is checked.
const TWO_SCANS: &[u8] =
    b"script 3\ncaller\nput 3 30\nscan 0 9 2\nscan 3 3 1\nrun\ncaller 0\n0 none\n";

/// What comes behind it, what is said of that, and the status.
const CHECKS: [(&[u8], &[u8], u8); 16] = [
    (
        b"1 9 3 30\nwhole\n2 3 3 30\nwhole\nmap\n3 30\nend\n",
        b"legal 3\n",
        0,
    ),
    (
        b"1 2\n2 9 3 30\nwhole\n3 3 3 30\nwhole\nmap\n3 30\nend\n",
        b"legal 4\n",
        0,
    ),
    (
        b"1 2\n2 8 3 30\nuntil 9\n3 3 3 30\nwhole\nmap\n3 30\nend\n",
        b"legal 4\n",
        0,
    ),
    (
        b"1 9\nwhole\n2 3 3 30\nwhole\nmap\n3 30\nend\n",
        b"wrong 1\n",
        6,
    ),
    (
        b"1 2 3 30\n2 9\nwhole\n3 3 3 30\nwhole\nmap\n3 30\nend\n",
        b"wrong 1\n",
        6,
    ),
    (
        b"1 9 3 31\nwhole\n2 3 3 30\nwhole\nmap\n3 30\nend\n",
        b"wrong 1\n",
        6,
    ),
    (
        b"1 2\n2 9 3 30 3 30\nwhole\n3 3 3 30\nwhole\nmap\n3 30\nend\n",
        b"wrong 2\n",
        6,
    ),
    (
        b"2 2\n1 9 3 30\nwhole\n3 3 3 30\nwhole\nmap\n3 30\nend\n",
        b"wrong 1\n",
        6,
    ),
    // a line is refused where no run of the script goes on so
    (
        b"1 8 3 30\nwhole\n",
        b"line 10 refused\nfrom it on the lines are no run of the script\n",
        2,
    ),
    (
        b"1 8 3 30\nuntil 9\n",
        b"line 10 refused\nfrom it on the lines are no run of the script\n",
        2,
    ),
    (
        b"1 9 3 30\nuntil 10\n",
        b"line 10 refused\nfrom it on the lines are no run of the script\n",
        2,
    ),
    (
        b"1 2\n2 8 3 30\nuntil 8\n",
        b"line 11 refused\nfrom it on the lines are no run of the script\n",
        2,
    ),
    (
        b"1 2\n2 8 3 30\n3 9\n",
        b"line 11 refused\nfrom it on the lines are no run of the script\n",
        2,
    ),
    (
        b"1 10 3 30\n",
        b"line 9 refused\nfrom it on the lines are no run of the script\n",
        2,
    ),
    (
        b"1 4 3 30\n2 4\n",
        b"line 10 refused\nfrom it on the lines are no run of the script\n",
        2,
    ),
    (
        b"1 none\n",
        b"line 9 refused\nfrom it on the lines are no run of the script\n",
        2,
    ),
];

/// The two leaves of 17 keys: the first has the places to 7.
const LEAVES: &[u8] =
    b"17 7 0 0 1 1 2 2 3 3 4 4 5 5 6 6 7 7\n18 20 8 8 9 9 10 10 11 11 12 12 13 13 14 14 15 15 16 16\nwhole\n";

const FIRST_LEAF: &[u8] = b"17 7 0 0 1 1 2 2 3 3 4 4 5 5 6 6 7 7\nuntil 8\n";

/// A scan of 17 keys that lists both leaves.
const OF_BOTH_LEAVES: Row = Row {
    words: &MANY,
    out: &[
        Bytes(b"caller 0\n"),
        Nones(0, 16),
        Bytes(LEAVES),
        Bytes(b"map\n"),
        Pairs(0, 16),
        Bytes(b"end\n"),
    ],
    judged: Some(b"legal 19\n"),
    ..SERVED
};

/// Scans of 17 keys, and what their runs are judged to be. A scan of just as many parts as there are leaves is whole.
static OF_LEAVES: [Row; 4] = [
    Row {
        input: &[
            Bytes(b"script 3\ncaller\n"),
            Puts(0, 16),
            Bytes(b"scan 0 20 64\n"),
        ],
        ..OF_BOTH_LEAVES
    },
    Row {
        input: &[
            Bytes(b"script 3\ncaller\n"),
            Puts(0, 16),
            Bytes(b"scan 0 20 2\n"),
        ],
        ..OF_BOTH_LEAVES
    },
    Row {
        words: &MANY,
        input: &[
            Bytes(b"script 3\ncaller\n"),
            Puts(0, 16),
            Bytes(b"scan 0 20 1\n"),
        ],
        out: &[
            Bytes(b"caller 0\n"),
            Nones(0, 16),
            Bytes(FIRST_LEAF),
            Bytes(b"map\n"),
            Pairs(0, 16),
            Bytes(b"end\n"),
        ],
        judged: Some(b"legal 18\n"),
        ..SERVED
    },
    Row {
        words: &MANY,
        input: &[
            Bytes(b"script 3\ncaller\n"),
            Puts(0, 16),
            Bytes(b"scan 0 7 1\n"),
        ],
        out: &[
            Bytes(b"caller 0\n"),
            Nones(0, 16),
            Bytes(b"17 7 0 0 1 1 2 2 3 3 4 4 5 5 6 6 7 7\nwhole\n"),
            Bytes(b"map\n"),
            Pairs(0, 16),
            Bytes(b"end\n"),
        ],
        judged: Some(b"legal 18\n"),
        ..SERVED
    },
];

#[test]
fn a_scan_has_a_part_for_each_leaf(rt: HostRuntime) -> Result<(), Wrong> {
    run_each(&rt, rt.alloc(), &OF_LEAVES)
}

/// A scan, and the check of its run.
static BYTEWISE: [Row; 2] = [
    Row {
        words: &["run bplus link 64"],
        ends: Ends::Bytewise,
        input: &[
            Bytes(b"script 3\ncaller\n"),
            Puts(0, 16),
            Bytes(b"scan 0 20 64\n"),
        ],
        out: &[
            Bytes(b"caller 0\n"),
            Nones(0, 16),
            Bytes(LEAVES),
            Bytes(b"map\n"),
            Pairs(0, 16),
            Bytes(b"end\n"),
        ],
        ..SERVED
    },
    Row {
        words: &["check"],
        ends: Ends::Bytewise,
        input: &[
            Bytes(b"script 3\ncaller\n"),
            Puts(0, 16),
            Bytes(b"scan 0 20 64\n"),
            Bytes(b"run\n"),
            Bytes(b"caller 0\n"),
            Nones(0, 16),
            Bytes(LEAVES),
            Bytes(b"map\n"),
            Pairs(0, 16),
            Bytes(b"end\n"),
        ],
        out: &[Bytes(b"legal 19\n")],
        ..SERVED
    },
];

#[test]
fn a_byte_at_a_time_changes_no_scan(rt: HostRuntime) -> Result<(), Wrong> {
    run_each(&rt, rt.alloc(), &BYTEWISE)
}

#[test]
fn scans_are_served(rt: HostRuntime) -> Result<(), Wrong> {
    serve_each(&rt, rt.alloc(), &FOUR, Ends::Whole, &RUNS)
}

/// The run of an empty scan.
const EMPTY: [(&[u8], &[u8], u8); 1] = [(
    b"script 3\ncaller\nscan 5 5 1\nrun\ncaller 0\n0 5\nwhole\nmap\nend\n",
    b"legal 1\n",
    0,
)];

#[test]
fn an_empty_scan_is_judged(rt: HostRuntime) -> Result<(), Wrong> {
    check_each(&rt, rt.alloc(), b"", &EMPTY)
}

#[test]
fn lines_that_are_no_scan_are_refused(rt: HostRuntime) -> Result<(), Wrong> {
    refuse_each(&rt, rt.alloc(), FOUR[0], &REFUSALS)
}

#[test]
fn runs_with_scans_are_judged(rt: HostRuntime) -> Result<(), Wrong> {
    check_each(&rt, rt.alloc(), TWO_SCANS, &CHECKS)
}

/// A part of 17 pairs.
static LONG_PART: [Row; 1] = [Row {
    words: &["check"],
    input: &[
        Bytes(b"script 3\ncaller\n"),
        Puts(0, 16),
        Bytes(b"scan 0 20 64\n"),
        Bytes(b"run\n"),
        Bytes(b"caller 0\n"),
        Nones(0, 16),
        Bytes(
            b"17 20 0 0 1 1 2 2 3 3 4 4 5 5 6 6 7 7 8 8 9 9 10 10 11 11 12 12 13 13 14 14 15 15 16 16\nwhole\n",
        ),
        Bytes(b"map\n"),
        Pairs(0, 16),
        Bytes(b"end\n"),
    ],
    status: 2,
    err: b"line 40 refused\nfrom it on the lines are no run of the script\n",
    ..SERVED
}];

#[test]
fn a_part_has_at_most_sixteen_pairs(rt: HostRuntime) -> Result<(), Wrong> {
    run_each(&rt, rt.alloc(), &LONG_PART)
}

/// As many parts as a script may have, and one more.
static PARTS: [Row; 2] = [
    Row {
        words: &["run bplus giveup 4"],
        input: &[Bytes(b"script 3\ncaller\n"), Times(1024, b"scan 7 7 64\n")],
        prints_any: true,
        judged: Some(b"legal 1024\n"),
        ..SERVED
    },
    Row {
        words: &["run bplus giveup 4"],
        input: &[
            Bytes(b"script 3\ncaller\n"),
            Times(1024, b"scan 7 7 64\n"),
            Bytes(b"get 7\nscan 7 7 1\n"),
        ],
        status: 2,
        err: b"line 1028 refused\nthe PARTS of the script are more than 65536 together\n",
        ..SERVED
    },
];

/// The parts of all scans of a script are 65,536 at most.
#[test]
fn a_script_has_so_many_parts_at_most(rt: HostRuntime) -> Result<(), Wrong> {
    run_each(&rt, rt.alloc(), &PARTS)
}

/// The pairings that do not scan.
const OTHERS: [&str; 8] = [
    "run list coupling 4",
    "run list giveup 4",
    "run bplus coupling 4",
    "run hash coupling 4",
    "run hash giveup 4",
    "run hash link 4",
    "run bst coupling 4",
    "run bst giveup 4",
];

/// Scripts that they do not serve: the first scan is named.
static UNFIT: [Row; 2] = [
    Row {
        words: &OTHERS,
        input: &[Bytes(b"script 3\ncaller\nscan 5 5 1\n")],
        status: 7,
        err: b"line 3 unfit\n",
        ..SERVED
    },
    Row {
        words: &OTHERS,
        input: &[Bytes(b"script 3\ncaller\nput 1 1\nget 1\ncaller\nscan 5 5 1\nscan 5 5 1\n")],
        status: 7,
        err: b"line 6 unfit\n",
        ..SERVED
    },
];

#[test]
fn a_scan_is_unfit_for_other_pairings(rt: HostRuntime) -> Result<(), Wrong> {
    run_each(&rt, rt.alloc(), &UNFIT)
}

/// A script that they serve; and a line that is refused comes first, wherever it is.
static FIT: [Row; 2] = [
    Row {
        words: &OTHERS,
        input: &[Bytes(b"script 3\ncaller\nadd 5 1\n")],
        out: &[Bytes(b"caller 0\n0 none\nmap\n5 1\nend\n")],
        ..SERVED
    },
    Row {
        words: &[RUN],
        input: &[Bytes(b"script 3\ncaller\nscan 5 5 1\nput\n")],
        status: 2,
        err: b"line 4 refused\na word is missing at its end\n",
        ..SERVED
    },
];

#[test]
fn a_script_of_the_third_version_without_scans_fits_all(rt: HostRuntime) -> Result<(), Wrong> {
    run_each(&rt, rt.alloc(), &FIT)
}

/// Caller 0 scans from key 16, and is stopped with the number of the leaf while caller 1 splits it at that key: it comes to
/// the left half, and goes on to the right one, by the link or from the root.
static SPLIT: [Row; 1] = [Row {
    words: &MANY,
    stop: Stop::Stand {
        after: 24,
        at: Point::Given(0),
        calls: 1,
        turns: 50_000_000,
    },
    input: &[
        Bytes(b"script 3\ncaller\n"),
        Puts(0, 23),
        Bytes(b"scan 16 30 4\ncaller\nput 24 24\n"),
    ],
    out: &[
        Bytes(b"caller 0\n"),
        Nones(0, 23),
        Bytes(
            b"25 30 16 16 17 17 18 18 19 19 20 20 21 21 22 22 23 23 24 24\nwhole\ncaller 1\n24 none\nmap\n",
        ),
        Pairs(0, 24),
        Bytes(b"end\n"),
    ],
    ..SERVED
}];

#[test]
fn a_scan_goes_on_past_a_split(rt: HostRuntime) -> Result<(), Wrong> {
    run_each(&rt, rt.alloc(), &SPLIT)
}

/// Caller 0 is stopped between two parts, while caller 1 sets a value in a leaf that was listed and puts a key into one that
/// was not: a scan shows no one moment of the whole, and each part its own.
static MOMENTS: [Row; 1] = [Row {
    words: &MANY,
    stop: Stop::Stand {
        after: 18,
        at: Point::Given(0),
        calls: 2,
        turns: 50_000_000,
    },
    input: &[
        Bytes(b"script 3\ncaller\n"),
        Puts(0, 16),
        Bytes(b"scan 0 20 4\n"),
        Bytes(b"caller\nput 3 99\nput 20 20\n"),
    ],
    out: &[
        Bytes(b"caller 0\n"),
        Nones(0, 16),
        Bytes(
            b"17 7 0 0 1 1 2 2 3 3 4 4 5 5 6 6 7 7\n20 20 8 8 9 9 10 10 11 11 12 12 13 13 14 14 15 15 16 16 20 20\nwhole\n\
        caller 1\n18 3\n19 none\nmap\n",
        ),
        Pairs(0, 2),
        Bytes(b"3 99\n"),
        Pairs(4, 16),
        Bytes(b"20 20\nend\n"),
    ],
    judged: Some(b"legal 21\n"),
    ..SERVED
}];

#[test]
fn each_part_is_of_its_own_moment(rt: HostRuntime) -> Result<(), Wrong> {
    run_each(&rt, rt.alloc(), &MOMENTS)
}

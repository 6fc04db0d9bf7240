//! Scripts of the fourth version: moves of a value from one key to another.

use ks_gate::Point;
use ks_whole_runs::Piece::{Bytes, Nones, Pairs, Puts};
use ks_whole_runs::{
    Ends, RUN, Row, SERVED, Stop, Wrong, check_each, refuse_each, run_each, serve_each,
};

/// The pairings that move, over 64 nodes.
const MOVING: [&str; 4] = [
    "run list giveup 64",
    "run bplus giveup 64",
    "run hash giveup 64",
    "run bst giveup 64",
];

/// And the others, over four.
const OTHERS: [&str; 6] = [
    "run list coupling 4",
    "run bplus coupling 4",
    "run bplus link 4",
    "run hash coupling 4",
    "run hash link 4",
    "run bst coupling 4",
];

/// Scripts and the texts of their runs, by whatever pairing that moves.
const RUNS: [(&[u8], &[u8]); 5] = [
    (
        b"script 4\ncaller\nput 1 10\nput 2 20\nmove 1 3\nmove 1 4\nmove 2 3\n",
        b"caller 0\n0 none\n1 none\n2 10\n3 none\n4 kept\nmap\n2 20\n3 10\nend\n",
    ),
    (
        b"script 4\ncaller\nput 1 10\nmove 1 2\nget 2\n",
        b"caller 0\n0 none\n1 10\n2 10\nmap\n2 10\nend\n",
    ),
    (
        b"script 4\ncaller\nadd 0 340282366920938463463374607431768211455\nmove 0 18446744073709551615\nmove 18446744073709551615 0\nmove 18446744073709551615 0",
        b"caller 0\n0 none\n1 340282366920938463463374607431768211455\n2 340282366920938463463374607431768211455\n3 none\nmap\n0 340282366920938463463374607431768211455\nend\n",
    ),
    (
        b"script 4\ncaller\nmove 1 2\n",
        b"caller 0\n0 none\nmap\nend\n",
    ),
    (b"script 4", b"map\nend\n"),
];

/// Scripts, and what is said of them.
const REFUSALS: [(&[u8], &[u8]); 9] = [
    (
        b"script 3\ncaller\nmove 1 2\n",
        b"line 3 refused\nthe version of the script has no such line\n",
    ),
    (
        b"script 2\ncaller\nmove 1 2\n",
        b"line 3 refused\nthe version of the script has no such line\n",
    ),
    (
        b"caller\nmove 1 2\n",
        b"line 2 refused\nthe version of the script has no such line\n",
    ),
    (
        b"script 4\ncaller\nmove 1 1\n",
        b"line 3 refused\nFROM and TO are the same key\n",
    ),
    (
        b"script 4\ncaller\nmove 1\n",
        b"line 3 refused\na word is missing at its end\n",
    ),
    (
        b"script 4\ncaller\nmove 1 2 3\n",
        b"line 3 refused\na word or a space is too many at its end\n",
    ),
    (
        b"script 4\ncaller\nmove 01 2\n",
        b"line 3 refused\na word is no number: only digits, no leading zero, one space before it\n",
    ),
    (
        b"script 4\ncaller\nmove 1 18446744073709551616\n",
        b"line 3 refused\na key or a value is too great, or PARTS is not 1 to 64\n",
    ),
    (
        b"script 5\n",
        b"line 1 refused\nonly the first line says a version: script 2, script 3 or script 4\n",
    ),
];

/// What is checked, and what is said of it, with the status.
const CHECKS: [(&[u8], &[u8], u8); 10] = [
    (
        b"script 4\ncaller\nput 1 10\nput 2 20\nmove 1 3\nmove 1 4\nmove 2 3\nrun\ncaller 0\n0 none\n1 none\n2 10\n3 none\n4 kept\nmap\n2 20\n3 10\nend\n",
        b"legal 5\n",
        0,
    ),
    // a move may be full
    (
        b"script 4\ncaller\nput 1 10\nmove 1 2\nrun\ncaller 0\n0 none\n1 full\nmap\n1 10\nend\n",
        b"legal 2\n",
        0,
    ),
    (
        b"script 4\ncaller\nput 1 10\nmove 1 2\nrun\ncaller 0\n0 none\n1 kept\nmap\n1 10\nend\n",
        b"wrong 1\n",
        6,
    ),
    (
        b"script 4\ncaller\nput 1 10\nmove 1 2\nrun\ncaller 0\n0 none\n1 none\nmap\n1 10\nend\n",
        b"wrong 1\n",
        6,
    ),
    (
        b"script 4\ncaller\nmove 1 2\nrun\ncaller 0\n0 kept\nmap\nend\n",
        b"wrong 0\n",
        6,
    ),
    (
        b"script 4\ncaller\nput 1 10\nput 2 20\nmove 1 2\nrun\ncaller 0\n0 none\n1 none\n2 10\nmap\n2 10\nend\n",
        b"wrong 2\n",
        6,
    ),
    // the value is under both keys, or under neither
    (
        b"script 4\ncaller\nput 1 10\nmove 1 2\nrun\ncaller 0\n0 none\n1 10\nmap\n1 10\n2 10\nend\n",
        b"wrong 2\n",
        6,
    ),
    (
        b"script 4\ncaller\nput 1 10\nmove 1 2\nrun\ncaller 0\n0 none\n1 10\nmap\nend\n",
        b"wrong 2\n",
        6,
    ),
    // only a move keeps two values
    (
        b"script 4\ncaller\nput 1 10\nrun\ncaller 0\n0 kept\nmap\n1 10\nend\n",
        b"line 6 refused\nfrom it on the lines are no run of the script\n",
        2,
    ),
    (
        b"script 4\ncaller\nput 1 10\nscan 0 9 1\nmove 1 2\nrun\ncaller 0\n0 none\n1 9 1 10\nwhole\n2 10\nmap\n2 10\nend\n",
        b"legal 3\n",
        0,
    ),
];

/// Two scans and a move between them.
const SCANS_AND_MOVE: &[u8] = b"script 4\ncaller\nscan 0 1 1\nmove 1 2\nscan 0 1 1\n";

#[test]
fn moves_are_served(rt: HostRuntime) -> Result<(), Wrong> {
    serve_each(&rt, rt.alloc(), &MOVING, Ends::Whole, &RUNS)?;
    serve_each(
        &rt,
        rt.alloc(),
        &["run bplus giveup 4"],
        Ends::Whole,
        &[RUNS[0]],
    )
}

#[test]
fn lines_that_are_no_move_are_refused(rt: HostRuntime) -> Result<(), Wrong> {
    refuse_each(&rt, rt.alloc(), MOVING[1], &REFUSALS)
}

#[test]
fn runs_with_moves_are_judged(rt: HostRuntime) -> Result<(), Wrong> {
    check_each(&rt, rt.alloc(), b"", &CHECKS)
}

/// Scripts with a move, by pairings that do not move, and by one that does. The first line of either kind is named that the
/// pairing does not serve.
static UNFIT: [Row; 5] = [
    Row {
        words: &OTHERS,
        input: &[Bytes(b"script 4\ncaller\nmove 1 2\n")],
        status: 7,
        err: b"line 3 unfit\n",
        ..SERVED
    },
    Row {
        words: &["run bplus link 4"],
        input: &[Bytes(SCANS_AND_MOVE)],
        status: 7,
        err: b"line 4 unfit\n",
        ..SERVED
    },
    Row {
        words: &["run bst giveup 4"],
        input: &[Bytes(SCANS_AND_MOVE)],
        status: 7,
        err: b"line 3 unfit\n",
        ..SERVED
    },
    Row {
        words: &[RUN],
        input: &[Bytes(SCANS_AND_MOVE)],
        status: 7,
        err: b"line 3 unfit\n",
        ..SERVED
    },
    Row {
        words: &["run bplus giveup 4"],
        input: &[Bytes(SCANS_AND_MOVE)],
        out: &[Bytes(b"caller 0\n0 1\nwhole\n1 none\n2 1\nwhole\nmap\nend\n")],
        ..SERVED
    },
];

#[test]
fn a_move_is_unfit_for_other_pairings(rt: HostRuntime) -> Result<(), Wrong> {
    run_each(&rt, rt.alloc(), &UNFIT)
}

/// Four nodes have room for 32 keys, and then a move into another leaf is full, but not one within a leaf, nor one to a key
/// that has a value.
static FULL: [Row; 1] = [Row {
    words: &["run bplus giveup 4"],
    input: &[
        Bytes(b"script 4\ncaller\n"),
        Puts(0, 32),
        Bytes(b"move 0 32\nmove 16 32\nmove 0 8\n"),
    ],
    out: &[
        Bytes(b"caller 0\n"),
        Nones(0, 31),
        Bytes(b"32 full\n33 full\n34 16\n35 kept\nmap\n"),
        Pairs(0, 15),
        Pairs(17, 31),
        Bytes(b"32 16\nend\n"),
    ],
    judged: Some(b"legal 36\n"),
    ..SERVED
}];

#[test]
fn a_move_finds_no_node_free(rt: HostRuntime) -> Result<(), Wrong> {
    run_each(&rt, rt.alloc(), &FULL)
}

/// Room is made for a value in another leaf, which splits.
static SPLIT: [Row; 1] = [Row {
    words: &["run bplus giveup 64"],
    input: &[
        Bytes(b"script 4\ncaller\n"),
        Puts(0, 31),
        Bytes(b"move 0 32\nmove 31 0\n"),
    ],
    out: &[
        Bytes(b"caller 0\n"),
        Nones(0, 31),
        Bytes(b"32 0\n33 31\nmap\n0 31\n"),
        Pairs(1, 30),
        Bytes(b"32 0\nend\n"),
    ],
    ..SERVED
}];

#[test]
fn a_move_makes_room(rt: HostRuntime) -> Result<(), Wrong> {
    run_each(&rt, rt.alloc(), &SPLIT)
}

/// Nine keys of a list of four nodes: the root keeps four of them, and the last one moves within the node behind it, and then
/// to a key of the root, which has a value.
static WITHIN: [Row; 1] = [Row {
    words: &["run list giveup 4"],
    input: &[
        Bytes(b"script 4\ncaller\n"),
        Puts(0, 8),
        Bytes(b"move 8 20\nmove 20 3\n"),
    ],
    out: &[
        Bytes(b"caller 0\n"),
        Nones(0, 8),
        Bytes(b"9 8\n10 kept\nmap\n"),
        Pairs(0, 7),
        Bytes(b"20 8\nend\n"),
    ],
    judged: Some(b"legal 11\n"),
    ..SERVED
}];

#[test]
fn a_value_moves_within_a_list_node_and_to_no_key_of_another(rt: HostRuntime) -> Result<(), Wrong> {
    run_each(&rt, rt.alloc(), &WITHIN)
}

/// Caller 0 is stopped in its move with the number of the leaf to which the value goes, while caller 1 deletes a key, so that
/// the leaf is merged away and the root takes over all. The number is that of a free node: the move restarts.
static MERGED: [Row; 1] = [Row {
    words: &["run bplus giveup 64"],
    stop: Stop::Stand {
        after: 18,
        at: Point::Given(2),
        calls: 2,
        turns: 50_000_000,
    },
    input: &[
        Bytes(b"script 4\ncaller\n"),
        Puts(0, 16),
        Bytes(b"get 0\nmove 3 100\ncaller\ndel 0\nget 1\n"),
    ],
    out: &[
        Bytes(b"caller 0\n"),
        Nones(0, 16),
        Bytes(b"17 0\n20 3\ncaller 1\n18 0\n19 1\nmap\n"),
        Pairs(1, 2),
        Pairs(4, 16),
        Bytes(b"100 3\nend\n"),
    ],
    ..SERVED
}];

#[test]
fn a_move_ends_right_past_a_merge(rt: HostRuntime) -> Result<(), Wrong> {
    run_each(&rt, rt.alloc(), &MERGED)
}

/// Meanwhile caller 1 lets the root grow again, so that the node has other keys: the move restarts.
static USED_AGAIN: [Row; 1] = [Row {
    words: &["run bplus giveup 64"],
    stop: Stop::Stand {
        after: 18,
        at: Point::Given(2),
        calls: 3,
        turns: 50_000_000,
    },
    input: &[
        Bytes(b"script 4\ncaller\n"),
        Puts(0, 16),
        Bytes(b"get 0\nmove 3 100\ncaller\ndel 0\nput 50 50\nget 1\n"),
    ],
    out: &[
        Bytes(b"caller 0\n"),
        Nones(0, 16),
        Bytes(b"17 0\n21 3\ncaller 1\n18 0\n19 none\n20 1\nmap\n"),
        Pairs(1, 2),
        Pairs(4, 16),
        Bytes(b"50 50\n100 3\nend\n"),
    ],
    ..SERVED
}];

#[test]
fn a_move_ends_right_past_a_node_used_again(rt: HostRuntime) -> Result<(), Wrong> {
    run_each(&rt, rt.alloc(), &USED_AGAIN)
}

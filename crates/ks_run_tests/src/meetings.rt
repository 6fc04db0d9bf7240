//! Callers that run beside each other: while one is stopped, another goes on.

use ks_gate::Point;
use ks_whole_runs::Piece::{Bytes, Nones, Pairs, Puts};
use ks_whole_runs::{Row, SERVED, Stop, Wrong, run_each};

/// Caller 0 is stopped at the begin of its call until caller 1 has decided: so the get comes first.
static BEFORE: [Row; 1] = [Row {
    words: &["run bplus coupling 4", "run bplus coupling 4 2"],
    stop: Stop::Meet {
        after: 0,
        at: Point::Begin,
        turns: 50_000_000,
    },
    input: &[Bytes(b"caller\nput 7 70\ncaller\nget 7\n")],
    out: &[Bytes(b"caller 0\n1 none\ncaller 1\n0 none\nmap\n7 70\nend\n")],
    ..SERVED
}];

#[test]
fn a_caller_is_overtaken_before_its_call(rt: HostRuntime) -> Result<(), Wrong> {
    run_each(&rt, rt.alloc(), &BEFORE)
}

/// Caller 0 is stopped in its last get, when it holds a leaf and has released the root, until caller 1 has read the
/// other leaf: so the calls of one caller do not wait for the end of another, nor for the root.
static WITHIN: [Row; 1] = [Row {
    words: &["run bplus coupling 64 2"],
    stop: Stop::Meet {
        after: 17,
        at: Point::Given(0),
        turns: 50_000_000,
    },
    input: &[
        Bytes(b"caller\n"),
        Puts(0, 16),
        Bytes(b"get 0\ncaller\nget 16\n"),
    ],
    out: &[
        Bytes(b"caller 0\n"),
        Nones(0, 16),
        Bytes(b"18 0\ncaller 1\n17 16\nmap\n"),
        Pairs(0, 16),
        Bytes(b"end\n"),
    ],
    ..SERVED
}];

#[test]
fn a_caller_is_overtaken_in_its_call(rt: HostRuntime) -> Result<(), Wrong> {
    run_each(&rt, rt.alloc(), &WITHIN)
}

/// Caller 0 puts 24 keys and looks for the last one. It is stopped when it has released the root and has the number of the
/// node that has the key, which caller 1 splits meanwhile by putting the next key; and it finds it in the other half.
const SPLIT_AFTER_24: Row = Row {
    stop: Stop::Meet {
        after: 24,
        at: Point::Given(0),
        turns: 50_000_000,
    },
    input: &[
        Bytes(b"caller\n"),
        Puts(0, 23),
        Bytes(b"get 23\ncaller\n"),
        Puts(24, 24),
    ],
    out: &[
        Bytes(b"caller 0\n"),
        Nones(0, 23),
        Bytes(b"25 23\ncaller 1\n"),
        Nones(24, 24),
        Bytes(b"map\n"),
        Pairs(0, 24),
        Bytes(b"end\n"),
    ],
    ..SERVED
};

/// Callers 0 and 1 as in `SPLIT_AFTER_24`, with as many keys as leave the last node of each layout full.
///
/// By giving up the search restarts if the node's range no longer holds the key; in a list it goes on, since the node
/// still leads there, and in a binary tree too, where the full leaf became the parent of its halves.
static SPLITS: [Row; 3] = [
    Row {
        words: &["run bplus giveup 64"],
        ..SPLIT_AFTER_24
    },
    Row {
        words: &["run list giveup 64"],
        stop: Stop::Meet {
            after: 12,
            at: Point::Given(0),
            turns: 50_000_000,
        },
        input: &[
            Bytes(b"caller\n"),
            Puts(0, 11),
            Bytes(b"get 11\ncaller\n"),
            Puts(12, 12),
        ],
        out: &[
            Bytes(b"caller 0\n"),
            Nones(0, 11),
            Bytes(b"13 11\ncaller 1\n"),
            Nones(12, 12),
            Bytes(b"map\n"),
            Pairs(0, 12),
            Bytes(b"end\n"),
        ],
        ..SERVED
    },
    Row {
        words: &["run bst giveup 64"],
        stop: Stop::Meet {
            after: 3,
            at: Point::Given(0),
            turns: 50_000_000,
        },
        input: &[
            Bytes(b"caller\n"),
            Puts(0, 2),
            Bytes(b"get 2\ncaller\n"),
            Puts(3, 3),
        ],
        out: &[
            Bytes(b"caller 0\n"),
            Nones(0, 2),
            Bytes(b"4 2\ncaller 1\n"),
            Nones(3, 3),
            Bytes(b"map\n"),
            Pairs(0, 3),
            Bytes(b"end\n"),
        ],
        ..SERVED
    },
];

#[test]
fn a_search_that_gives_up_ends_right_past_a_split(rt: HostRuntime) -> Result<(), Wrong> {
    run_each(&rt, rt.alloc(), &SPLITS)
}

/// Along links the search moves to the right.
static LINKED_SPLIT: [Row; 1] = [Row {
    words: &["run bplus link 64"],
    ..SPLIT_AFTER_24
}];

#[test]
fn a_search_along_links_moves_right_past_a_split(rt: HostRuntime) -> Result<(), Wrong> {
    run_each(&rt, rt.alloc(), &LINKED_SPLIT)
}

/// Eight keys whose places lie in the lower half, and one in the upper, so that the root has grown. The other caller's put
/// splits the full bucket of the lower half, and the key that is sought goes to the new one.
static TABLE_SPLIT: [Row; 1] = [Row {
    words: &["run hash giveup 64", "run hash link 64"],
    stop: Stop::Meet {
        after: 9,
        at: Point::Given(0),
        turns: 50_000_000,
    },
    input: &[Bytes(
        b"caller\nput 0 1\nput 14987979559889010688 2\nput 11529215046068469760 3\nput 8070450532247928832 4\n\
        put 4611686018427387904 5\nput 1152921504606846976 6\nput 16140901064495857664 7\n\
        put 12682136550675316736 8\nput 9223372036854775808 9\nget 12682136550675316736\ncaller\n\
        put 17582052945254416384 10\n",
    )],
    out: &[Bytes(
        b"caller 0\n0 none\n1 none\n2 none\n3 none\n4 none\n5 none\n6 none\n7 none\n8 none\n10 8\ncaller 1\n\
        9 none\nmap\n0 1\n1152921504606846976 6\n4611686018427387904 5\n8070450532247928832 4\n\
        9223372036854775808 9\n11529215046068469760 3\n12682136550675316736 8\n14987979559889010688 2\n\
        16140901064495857664 7\n17582052945254416384 10\nend\n",
    )],
    ..SERVED
}];

#[test]
fn a_search_in_a_table_ends_right_past_a_split(rt: HostRuntime) -> Result<(), Wrong> {
    run_each(&rt, rt.alloc(), &TABLE_SPLIT)
}

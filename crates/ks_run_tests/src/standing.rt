//! Callers that run beside each other, one of which is stopped while the other makes some calls.

use ks_gate::Point;
use ks_whole_runs::Piece::{Bytes, Nones, Pairs, Puts};
use ks_whole_runs::{Row, SERVED, Stop, Wrong, run_each};

/// Along links: caller 0 is stopped in its last get, when it has released the root and has the number of the leaf,
/// while caller 1 puts the next key and splits that leaf. The get moves to the right and finds its key.
static LINKED_SPLIT: [Row; 1] = [Row {
    words: &["run bplus link 64"],
    stop: Stop::Stand {
        after: 25,
        at: Point::Given(0),
        calls: 1,
        turns: 50_000_000,
    },
    input: &[
        Bytes(b"caller\n"),
        Puts(0, 23),
        Bytes(b"get 0\nget 23\ncaller\nput 24 24\n"),
    ],
    out: &[
        Bytes(b"caller 0\n"),
        Nones(0, 23),
        Bytes(b"24 0\n26 23\ncaller 1\n25 none\nmap\n"),
        Pairs(0, 24),
        Bytes(b"end\n"),
    ],
    ..SERVED
}];

#[test]
fn a_get_along_links_ends_right_past_a_split(rt: HostRuntime) -> Result<(), Wrong> {
    run_each(&rt, rt.alloc(), &LINKED_SPLIT)
}

/// By giving up: caller 1 puts three keys meanwhile, the second of which splits the leaf; the get restarts.
static THREE_CALLS: [Row; 1] = [Row {
    words: &["run bplus giveup 64"],
    stop: Stop::Stand {
        after: 23,
        at: Point::Given(0),
        calls: 3,
        turns: 50_000_000,
    },
    input: &[
        Bytes(b"caller\n"),
        Puts(0, 22),
        Bytes(b"get 22\ncaller\n"),
        Puts(23, 25),
    ],
    out: &[
        Bytes(b"caller 0\n"),
        Nones(0, 22),
        Bytes(b"26 22\ncaller 1\n"),
        Nones(23, 25),
        Bytes(b"map\n"),
        Pairs(0, 25),
        Bytes(b"end\n"),
    ],
    ..SERVED
}];

#[test]
fn a_get_that_gives_up_ends_right_past_three_calls(rt: HostRuntime) -> Result<(), Wrong> {
    run_each(&rt, rt.alloc(), &THREE_CALLS)
}

/// By giving up: caller 0 is stopped in its last get with the number of a leaf, while caller 1 deletes a key, so that
/// the leaf is merged away and the root takes over all. The number is that of a free node: the get restarts.
static MERGE: [Row; 1] = [Row {
    words: &["run bplus giveup 64"],
    stop: Stop::Stand {
        after: 18,
        at: Point::Given(0),
        calls: 2,
        turns: 50_000_000,
    },
    input: &[
        Bytes(b"caller\n"),
        Puts(0, 16),
        Bytes(b"get 0\nget 8\ncaller\ndel 0\nget 1\n"),
    ],
    out: &[
        Bytes(b"caller 0\n"),
        Nones(0, 16),
        Bytes(b"17 0\n20 8\ncaller 1\n18 0\n19 1\nmap\n"),
        Pairs(1, 16),
        Bytes(b"end\n"),
    ],
    ..SERVED
}];

#[test]
fn a_get_that_gives_up_ends_right_past_a_merge(rt: HostRuntime) -> Result<(), Wrong> {
    run_each(&rt, rt.alloc(), &MERGE)
}

/// By giving up: meanwhile caller 1 merges the leaf away and lets the root grow again, so that the node is used for
/// other keys: its range does not hold the key, and the get restarts.
static USED_AGAIN: [Row; 1] = [Row {
    words: &["run bplus giveup 64"],
    stop: Stop::Stand {
        after: 18,
        at: Point::Given(0),
        calls: 3,
        turns: 50_000_000,
    },
    input: &[
        Bytes(b"caller\n"),
        Puts(0, 16),
        Bytes(b"get 0\nget 8\ncaller\ndel 0\nput 100 100\nget 1\n"),
    ],
    out: &[
        Bytes(b"caller 0\n"),
        Nones(0, 16),
        Bytes(b"17 0\n21 8\ncaller 1\n18 0\n19 none\n20 1\nmap\n"),
        Pairs(1, 16),
        Bytes(b"100 100\nend\n"),
    ],
    ..SERVED
}];

#[test]
fn a_get_that_gives_up_ends_right_past_a_node_used_again(rt: HostRuntime) -> Result<(), Wrong> {
    run_each(&rt, rt.alloc(), &USED_AGAIN)
}

/// By giving up in a binary tree: caller 0 is stopped below the root, with the number of the leaf that has its key, while
/// caller 1 deletes a key. The leaf is merged away, its parent takes the other one over, and so does the root then. The
/// number is that of a free node: the get restarts.
static BINARY_MERGE: [Row; 1] = [Row {
    words: &["run bst giveup 64"],
    stop: Stop::Stand {
        after: 8,
        at: Point::Given(1),
        calls: 2,
        turns: 50_000_000,
    },
    input: &[Bytes(
        b"caller\nput 0 0\nput 10 10\nput 20 20\nput 1 1\nput 2 2\ndel 20\ndel 2\nget 0\nget 1\n\
        caller\ndel 0\nget 10\n",
    )],
    out: &[Bytes(
        b"caller 0\n0 none\n1 none\n2 none\n3 none\n4 none\n5 20\n6 2\n7 0\n10 1\ncaller 1\n8 0\n9 10\n\
        map\n1 1\n10 10\nend\n",
    )],
    ..SERVED
}];

#[test]
fn a_get_in_a_binary_tree_ends_right_past_a_merge_below_the_root(
    rt: HostRuntime,
) -> Result<(), Wrong> {
    run_each(&rt, rt.alloc(), &BINARY_MERGE)
}

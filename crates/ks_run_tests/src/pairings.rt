//! The pairings, each over its nodes: splits, and `full` if no node is free.

use ks_whole_runs::Piece::{Bytes, Nones, Pairs, Puts};
use ks_whole_runs::{Row, SERVED, Wrong, run_each};

/// Each pairing that is served, over 64 nodes.
const ALL: [&str; 10] = [
    "run list coupling 64",
    "run bplus coupling 64",
    "run hash coupling 64",
    "run list giveup 64",
    "run bplus giveup 64",
    "run hash giveup 64",
    "run bplus link 64",
    "run hash link 64",
    "run bst coupling 64",
    "run bst giveup 64",
];

/// Puts and gets of the least and the greatest key.
static EXTREMES: [Row; 1] = [Row {
    words: &ALL,
    input: &[Bytes(
        b"caller\nput 0 1\nput 18446744073709551615 2\nget 0\nget 18446744073709551615\n",
    )],
    out: &[Bytes(b"caller 0\n0 none\n1 none\n2 1\n3 2\nmap\n0 1\n18446744073709551615 2\nend\n")],
    ..SERVED
}];

#[test]
fn every_pairing_serves_the_least_and_the_greatest_key(rt: HostRuntime) -> Result<(), Wrong> {
    run_each(&rt, rt.alloc(), &EXTREMES)
}

/// A B+ tree of four nodes has room for 32 ascending keys: the root grows two leaves, one leaf splits into the third
/// node, and then that leaf is full and no node is free.
static TREES: [Row; 1] = [Row {
    words: &[
        "run bplus coupling 4",
        "run bplus giveup 4",
        "run bplus link 4",
    ],
    input: &[Bytes(b"caller\n"), Puts(0, 32)],
    out: &[
        Bytes(b"caller 0\n"),
        Nones(0, 31),
        Bytes(b"32 full\nmap\n"),
        Pairs(0, 31),
        Bytes(b"end\n"),
    ],
    ..SERVED
}];

#[test]
fn four_nodes_of_a_tree_fill(rt: HostRuntime) -> Result<(), Wrong> {
    run_each(&rt, rt.alloc(), &TREES)
}

/// A list of four nodes has room for 20 ascending keys. A key that is there is set although no node is free.
static LISTS: [Row; 1] = [Row {
    words: &["run list coupling 4"],
    input: &[Bytes(b"caller\n"), Puts(0, 20), Bytes(b"put 3 99\n")],
    out: &[
        Bytes(b"caller 0\n"),
        Nones(0, 19),
        Bytes(b"20 full\n21 3\nmap\n"),
        Pairs(0, 2),
        Bytes(b"3 99\n"),
        Pairs(4, 19),
        Bytes(b"end\n"),
    ],
    ..SERVED
}];

#[test]
fn four_nodes_of_a_list_fill(rt: HostRuntime) -> Result<(), Wrong> {
    run_each(&rt, rt.alloc(), &LISTS)
}

/// A binary tree of four nodes has room for three ascending keys: the root grows two leaves, and to grow the right one there
/// is only one node left.
static BINARY_TREES: [Row; 1] = [Row {
    words: &["run bst coupling 4", "run bst giveup 4"],
    input: &[Bytes(b"caller\nput 0 0\nput 1 1\nput 2 2\nput 3 3\nput 2 5\n")],
    out: &[Bytes(b"caller 0\n0 none\n1 none\n2 none\n3 full\n4 2\nmap\n0 0\n1 1\n2 5\nend\n")],
    ..SERVED
}];

#[test]
fn four_nodes_of_a_binary_tree_fill(rt: HostRuntime) -> Result<(), Wrong> {
    run_each(&rt, rt.alloc(), &BINARY_TREES)
}

/// Puts of the keys whose places are 1 to 9, in this order. They lie in the least of 64 slices.
const NEAR_PUTS: &[u8] = b"caller\n\
    put 17428512612931826493 1\n\
    put 16410281152154101370 2\n\
    put 15392049691376376247 3\n\
    put 14373818230598651124 4\n\
    put 13355586769820926001 5\n\
    put 12337355309043200878 6\n\
    put 11319123848265475755 7\n\
    put 10300892387487750632 8\n\
    put 9282660926710025509 9\n";

/// The pairs of the first eight, ascending: the last of them comes first.
const EIGHT_PAIRS: &[u8] = b"\
    10300892387487750632 8\n\
    11319123848265475755 7\n\
    12337355309043200878 6\n\
    13355586769820926001 5\n\
    14373818230598651124 4\n\
    15392049691376376247 3\n\
    16410281152154101370 2\n\
    17428512612931826493 1\n";

/// Nine near keys: the root grows, and the bucket is split until a ninth node beside it takes part of them. With eight
/// nodes there is none left for the last.
static TABLES: [Row; 2] = [
    Row {
        words: &[
            "run hash coupling 9",
            "run hash giveup 9",
            "run hash link 9",
        ],
        input: &[Bytes(NEAR_PUTS)],
        out: &[
            Bytes(b"caller 0\n"),
            Nones(0, 8),
            Bytes(b"map\n9282660926710025509 9\n"),
            Bytes(EIGHT_PAIRS),
            Bytes(b"end\n"),
        ],
        ..SERVED
    },
    Row {
        words: &[
            "run hash coupling 8",
            "run hash giveup 8",
            "run hash link 8",
        ],
        input: &[Bytes(NEAR_PUTS)],
        out: &[
            Bytes(b"caller 0\n"),
            Nones(0, 7),
            Bytes(b"8 full\nmap\n"),
            Bytes(EIGHT_PAIRS),
            Bytes(b"end\n"),
        ],
        ..SERVED
    },
];

#[test]
fn near_keys_of_a_hash_table_fill_its_nodes(rt: HostRuntime) -> Result<(), Wrong> {
    run_each(&rt, rt.alloc(), &TABLES)
}

/// Along links the cut of the seventeenth leaf finds the root full with sixteen children. With nodes to spare the root grows
/// for it. With eighteen nodes none is left: the new leaf stays reached by its neighbour's link, and its keys are found.
static LINKED: [Row; 1] = [Row {
    words: &["run bplus link 18", "run bplus link 64"],
    input: &[
        Bytes(b"caller\n"),
        Puts(0, 143),
        Bytes(b"get 143\nget 128\n"),
    ],
    out: &[
        Bytes(b"caller 0\n"),
        Nones(0, 143),
        Bytes(b"144 143\n145 128\nmap\n"),
        Pairs(0, 143),
        Bytes(b"end\n"),
    ],
    ..SERVED
}];

#[test]
fn a_leaf_that_no_edge_leads_to_is_reached_by_the_link(rt: HostRuntime) -> Result<(), Wrong> {
    run_each(&rt, rt.alloc(), &LINKED)
}

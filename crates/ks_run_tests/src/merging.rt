//! Nodes that dels merge away are used again.

use ks_whole_runs::Piece::{Bytes, Dels, Found, Nones, Pairs, Puts};
use ks_whole_runs::{Row, SERVED, Wrong, run_each};

/// A list of four nodes is filled, emptied and filled again.
static LISTS: [Row; 1] = [Row {
    words: &["run list coupling 4", "run list giveup 4"],
    input: &[Bytes(b"caller\n"), Puts(0, 19), Dels(0, 19), Puts(100, 119)],
    out: &[
        Bytes(b"caller 0\n"),
        Nones(0, 19),
        Found(20, 0, 19),
        Nones(40, 59),
        Bytes(b"map\n"),
        Pairs(100, 119),
        Bytes(b"end\n"),
    ],
    ..SERVED
}];

#[test]
fn four_nodes_of_a_list_are_used_again(rt: HostRuntime) -> Result<(), Wrong> {
    run_each(&rt, rt.alloc(), &LISTS)
}

/// A binary tree of four nodes: the leaf that a del empties takes in the other one, the root takes it over, and grows again.
static BINARY_TREES: [Row; 1] = [Row {
    words: &["run bst coupling 4", "run bst giveup 4"],
    input: &[Bytes(b"caller\nput 0 0\nput 1 1\nput 2 2\ndel 0\nput 9 9\n")],
    out: &[Bytes(b"caller 0\n0 none\n1 none\n2 none\n3 0\n4 none\nmap\n1 1\n2 2\n9 9\nend\n")],
    ..SERVED
}];

#[test]
fn four_nodes_of_a_binary_tree_are_used_again(rt: HostRuntime) -> Result<(), Wrong> {
    run_each(&rt, rt.alloc(), &BINARY_TREES)
}

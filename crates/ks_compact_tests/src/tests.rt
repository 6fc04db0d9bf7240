//! Trials of compaction: what one caller does over nodes of one type, by one technique, and what is left.

use crate::graphs::{chain_of, is_root_alone, live_nodes};
use crate::runs::{Left, Run, left_by};
use ks_arena::Arena;
use ks_bplus::BNode;
use ks_bst::TNode;
use ks_coupling::Coupling;
use ks_giveup::GiveUp;
use ks_list::ListNode;
use ks_node::{Node, WithRange};
use ks_shape::{Compacting, Ruled};
use std::alloc::{AllocError, Global};
use std::process::Abort;
use std::sync::Wait;
use std::test::Fail;

/// What one caller does, and what must be left.
struct Trial<'a> {
    /// What the trial shows.
    name: &'a str,
    /// How many nodes the dictionary has.
    nodes: u32,
    runs: &'a [Run],
    /// Whether the dictionary is compacted until no node is made free.
    compacts: bool,
    /// How many compactions make nodes free, and how many nodes these are.
    rounds: u32,
    freed: u32,
    /// How many nodes are live. If there is one, it is the root, without an edge, and no other node is in use.
    live: usize,
    /// How many branches follow each other from the root on, each over a leaf and the next.
    chain: usize,
    /// The keys that are left, each with its own value: stretches of them, each by its first key and its end.
    keys: &'a [(u64, u64)],
}

/// Whether the pairs are those of these stretches of keys, each key with its own value.
fn has_keys(pairs: &[(u64, u128)], keys: &[(u64, u64)]) -> bool {
    let mut at = 0usize;
    for (first, end) in keys {
        for key in *first..*end {
            if pairs.get(at) != Some(&(key, u128::from(key))) {
                return false;
            }
            at = at.saturating_add(1);
        }
    }
    at == pairs.len()
}

impl<'a> Trial<'a> {
    /// Whether the nodes that are left are those that must be.
    fn has_nodes(&self, left: &Left) -> bool {
        live_nodes(&left.graph) == self.live
            && chain_of(&left.graph) == self.chain
            && (self.live != 1 || is_root_alone(&left.graph, left.pairs.len()))
    }

    /// Whether each call found what it should, and what must be left is left.
    fn went_right(&self, left: &Left) -> bool {
        left.found_all
            && left.rounds == self.rounds
            && left.freed == self.freed
            && self.has_nodes(left)
            && has_keys(left.pairs.as_slice(), self.keys)
    }
}

/// Each trial goes right.
fn go_right<N: Node, T: Ruled + Compacting<N, Arena<N, <T as Ruled>::Rule>>, R: Wait + Abort>(
    rt: &R,
    alloc: Global,
    trials: &[Trial<'_>],
) -> Result<(), AllocError> {
    for trial in trials {
        let nodes = trial.nodes.clamp(4, 1024);
        let left = left_by::<N, T, R>(rt, alloc, nodes, trial.runs, trial.compacts)?;
        assert!(rt; trial.went_right(&left), "{}", trial.name);
    }
    Ok(())
}

const OF_LISTS: [Trial<'static>; 1] = [Trial {
    name: "half full list nodes are merged",
    nodes: 4,
    runs: &[Run::Put(0, 9, 1), Run::Del(8, 1, 1)],
    compacts: true,
    rounds: 1,
    freed: 1,
    live: 1,
    chain: 0,
    keys: &[(0, 8)],
}];

#[test]
fn half_full_list_nodes_are_merged(rt: HostRuntime) -> Result<(), Fail> {
    go_right::<ListNode, Coupling, HostRuntime>(&rt, rt.alloc(), &OF_LISTS)?;
    Ok(())
}

const OF_B_PLUS_TREES: [Trial<'static>; 1] = [Trial {
    name: "a root over one leaf becomes the leaf",
    nodes: 4,
    runs: &[Run::Put(0, 17, 1), Run::Del(16, 1, 1)],
    compacts: true,
    rounds: 1,
    freed: 2,
    live: 1,
    chain: 0,
    keys: &[(0, 16)],
}];

#[test]
fn a_root_over_one_leaf_becomes_the_leaf(rt: HostRuntime) -> Result<(), Fail> {
    go_right::<BNode, Coupling, HostRuntime>(&rt, rt.alloc(), &OF_B_PLUS_TREES)?;
    Ok(())
}

/// Puts 0, 10, 20, 1 and 2, and deletes 20 and 2. In leaves of two pairs, whose full ones become branches where they
/// are, that leaves a leaf of one pair at the right below the root, and beside it a branch over two leaves of one pair.
const THIN: [Run; 4] = [
    Run::Put(0, 3, 10),
    Run::Put(1, 2, 1),
    Run::Del(20, 1, 1),
    Run::Del(2, 1, 1),
];

/// Deletes 0 from the thin tree: its leaf absorbs the one beside it, the branch takes that over, and a second search
/// merges the branch, now a leaf, with the leaf at the right.
const MERGED_BELOW: Trial<'static> = Trial {
    name: "a branch below the root takes its only child over",
    nodes: 5,
    runs: &[
        Run::Put(0, 3, 10),
        Run::Put(1, 2, 1),
        Run::Del(20, 1, 1),
        Run::Del(2, 1, 1),
        Run::Del(0, 1, 1),
    ],
    compacts: false,
    rounds: 0,
    freed: 0,
    live: 1,
    chain: 0,
    keys: &[(1, 2), (10, 11)],
};

/// Forty keys in sorted order.
const SORTED: [Run; 1] = [Run::Put(0, 40, 1)];

/// Forty keys in sorted order, of which all but 5 and 30 are deleted again, in their order.
const THINNED: [Run; 4] = [
    Run::Put(0, 40, 1),
    Run::Del(0, 5, 1),
    Run::Del(6, 24, 1),
    Run::Del(31, 9, 1),
];

/// Each compaction merges the last two leaves, and their branch takes over: the root in the end.
const CHAIN_COMPACTED: Trial<'static> = Trial {
    name: "a chain is compacted branch by branch",
    nodes: 80,
    runs: &THINNED,
    compacts: true,
    rounds: 37,
    freed: 74,
    live: 1,
    chain: 0,
    keys: &[(5, 6), (30, 31)],
};

/// Binary trees: below the root, and chains of branches, each over a leaf and the next.
const OF_BINARY_TREES: [Trial<'static>; 6] = [
    MERGED_BELOW,
    Trial {
        name: "a compaction takes a child over below the root",
        nodes: 5,
        runs: &THIN,
        compacts: true,
        rounds: 1,
        freed: 2,
        live: 3,
        chain: 1,
        keys: &[(0, 2), (10, 11)],
    },
    Trial {
        name: "forty keys in sorted order make 38 branches in a row and 39 leaves",
        nodes: 80,
        runs: &SORTED,
        compacts: false,
        rounds: 0,
        freed: 0,
        live: 77,
        chain: 38,
        keys: &[(0, 40)],
    },
    Trial {
        name: "none of the leaves fits beside another: a compaction makes no node free",
        nodes: 80,
        runs: &SORTED,
        compacts: true,
        rounds: 0,
        freed: 0,
        live: 77,
        chain: 38,
        keys: &[(0, 40)],
    },
    Trial {
        name: "37 of the branches remain without most keys: a leaf beside a branch is not merged",
        nodes: 80,
        runs: &THINNED,
        compacts: false,
        rounds: 0,
        freed: 0,
        live: 75,
        chain: 37,
        keys: &[(5, 6), (30, 31)],
    },
    CHAIN_COMPACTED,
];

#[test]
fn binary_trees_are_merged_below_the_root_and_in_chains(rt: HostRuntime) -> Result<(), Fail> {
    go_right::<TNode, Coupling, HostRuntime>(&rt, rt.alloc(), &OF_BINARY_TREES)?;
    Ok(())
}

const BY_GIVING_UP: [Trial<'static>; 2] = [MERGED_BELOW, CHAIN_COMPACTED];

#[test]
fn binary_trees_are_merged_below_the_root_and_in_chains_by_giving_up(
    rt: HostRuntime,
) -> Result<(), Fail> {
    go_right::<WithRange<TNode>, GiveUp, HostRuntime>(&rt, rt.alloc(), &BY_GIVING_UP)?;
    Ok(())
}

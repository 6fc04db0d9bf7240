//! Records, graphs of nodes, and where a search for a place ends.
//!
//! A dictionary is a graph of nodes. What a live node has is a record: edges, each leading on for the places of a
//! span, and pairs of a place and a value. The definitions over graphs are in `specs/`, to be read in the order Record,
//! Keyset, Walk, Change, Frame, Layout. A search for a place is a walk from node 0, the root, along the edges that carry
//! it; the keyset of a node is the places whose walk ends there.
#![tactic(auto)]

mod few;
mod laws;
mod readers;

pub use few::Few;
pub use laws::{found_law, keyset_law};
pub use readers::{edge_cut, edges_apart, keyset_spans, next_of, walk_end};
use std::marker::Model;

/// The places from `low` to `last`, both included.
#[derive(Clone, Copy, Debug, PartialEq, Eq)]
pub struct Span {
    pub low: u64,
    pub last: u64,
}

/// An edge leads to `node` for the places of its span.
#[derive(Clone, Copy, Debug, PartialEq, Eq)]
pub struct Edge {
    pub span: Span,
    pub node: u32,
}

/// A value at a place.
#[derive(Clone, Copy, Debug, Default, PartialEq, Eq)]
pub struct Pair {
    pub place: u64,
    pub value: u128,
}

/// What a record is to clauses: a list of edges and a list of pairs. No value of it is made; a clause reads an array
/// as a list, of any length.
pub struct Record {
    pub edges: [Edge; 0],
    pub pairs: [Pair; 0],
}

/// What a live node has: its edges and its pairs.
#[derive(Drop)]
pub struct NodeRecord {
    pub edges: Vec<Edge>,
    pub pairs: Vec<Pair>,
}

impl Model for NodeRecord {
    ghost use Rattle.ks_keysets.specs.declared.Record.{Record};

    ghost Value = { Record };

    ghost view = { λ r. record { edges = r.edges.items; pairs = r.pairs.items } };
}

/// What a node is at a moment. A claimed node names the caller that claimed it.
#[derive(Drop)]
pub enum NodeState {
    Free,
    Claimed(u32),
    Live(NodeRecord),
}

/// The states of the nodes, by number.
#[derive(Drop)]
pub struct Graph {
    pub nodes: Vec<NodeState>,
}

impl Model for Graph {
    ghost use Rattle.std.specs.Prelude.{List};
    ghost use Rattle.ks_keysets.specs.declared.NodeState.{NodeState};

    ghost Value = { List NodeState };

    ghost view = { λ g. g.nodes.items };
}

/// What sort of node it is. Inner nodes and directories are branches: they have no pairs.
#[derive(Clone, Copy, Debug, PartialEq, Eq)]
pub enum Kind {
    NoBranch,
    Inner,
    Directory,
}

/// What a body shows beside its record: the least place that it may have, its kind, and, if it has them, its range, its
/// level and the node to which its link leads.
#[derive(Clone, Copy, Debug, PartialEq, Eq)]
pub struct Frame {
    pub low: u64,
    pub kind: Kind,
    pub range: Option<Span>,
    pub level: u32,
    pub link: Option<u32>,
}

/// What a node that a change names becomes. No value of it is made.
pub enum NewState {
    BecomesLive(Record, Frame),
    BecomesFree,
}

/// A change of one node: which it is, and what it becomes. No value of it is made.
pub struct Change {
    pub node: u32,
    pub state: NewState,
}

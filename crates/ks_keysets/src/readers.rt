//! Plain readers of graphs: where the walk of a place ends, and which places are in the keyset of a node.
//!
//! A walk follows the edges that carry its place. One that has made as many steps as there are nodes meets a node
//! twice and never ends. The keyset of a node is read run by run: up to the next end of an edge all places go the same
//! ways, so one walk decides for all of them.

ghost use Rattle.std.specs.Prelude.{ℕ, suc, ◌≡◌, ◌≤◌, ◌<◌, ◌+◌, ◌⊎◌, ◌↔◌, IsTrue, IfSome, IfNone, IfOk, OnOk, Some, All, length, option_and_then, option_copied, slice_get};
ghost use Rattle.ks_keysets.specs.declared.Record.{Record};
ghost use Rattle.ks_keysets.specs.Record.{LeadsTo, LeadsOn, top};
ghost use Rattle.ks_keysets.specs.Keyset.{InKeyset, AreApart, live_record, record_at};
ghost use Rattle.ks_keysets.specs.Walk.{EndsAt, MeetsNotLive, NeverEnds};
ghost use Rattle.ks_keysets.specs.Listed.{graph_of};
ghost use Rattle.ks_keysets.specs.Spans.{AreSpansOf, CarriesAlike, AllCarryAlike, with_run};
ghost use Rattle.ks_keysets.specs.Apart.{AreTwoApart, AreEdgesApart};

use crate::{Edge, Graph, NodeRecord, NodeState, Span};
use std::alloc::{AllocError, Global};

/// Whether the edges of each node are disjoint, as the readers of a graph require.
pub fn edges_apart(graph: &Graph) -> bool
    ensures { IsTrue result ↔ AreApart (graph_of graph.now) }
{
    for node in 0..node_count(graph) {
        if !node_apart(graph, node) {
            return false;
        }
    }
    true
}

/// Whether the edges of the node are disjoint, if it is live.
fn node_apart(graph: &Graph, node: usize) -> bool
    ensures { IsTrue result ↔ ((r : Record) → record_at (graph_of graph.now) node ≡ Some r → AreEdgesApart r.edges) }
{
    match record_of(graph, node) {
        Some(record) => list_apart(&record.edges),
        None => true,
    }
}

/// Whether the edges are disjoint.
fn list_apart(edges: &[Edge]) -> bool
    ensures { IsTrue result ↔ AreEdgesApart edges.now }
{
    for (at, edge) in edges.iter().enumerate() {
        if !apart_from_all(edge, &edges[..at]) {
            return false;
        }
    }
    true
}

/// Whether no place is carried by the edge and by one of the others.
fn apart_from_all(edge: &Edge, others: &[Edge]) -> bool
    ensures { IsTrue result ↔ All (AreTwoApart edge.now) others.now }
{
    for other in others {
        if !two_apart(edge, other) {
            return false;
        }
    }
    true
}

/// Whether no place is carried by both edges.
fn two_apart(edge: &Edge, other: &Edge) -> bool
    ensures { IsTrue result ↔ AreTwoApart edge.now other.now }
{
    edge.span.low.max(other.span.low) > edge.span.last.min(other.span.last)
}

/// The node to which an edge of the record carries the place. None if and only if no edge holds it.
pub fn next_of(node: &NodeRecord, place: u64) -> Option<u32>
    ensures some { IfSome result (λ m. LeadsTo node.now place m) }
    ensures none { IfNone result (¬ LeadsOn node.now place) }
{
    for edge in &node.edges {
        if edge.span.low <= place && place <= edge.span.last {
            return Some(edge.node);
        }
    }
    None
}

/// The node at which the walk of the place from node 0 ends: it is the one whose keyset holds the place. None if and only
/// if that walk meets a node that is not live or never ends; then no keyset holds the place.
pub fn walk_end(graph: &Graph, place: u64) -> Option<u32>
    requires { AreApart (graph_of graph.now) }
    ensures ends { IfSome result (λ n. EndsAt (graph_of graph.now) place n) }
    ensures lost { IfNone result (MeetsNotLive (graph_of graph.now) place ⊎ NeverEnds (graph_of graph.now) place) }
    ensures keyset { IfSome result (λ n. InKeyset (graph_of graph.now) n place) }
    ensures nowhere { IfNone result ((n : ℕ) → ¬ InKeyset (graph_of graph.now) n place) }
{
    let mut at: u32 = 0;
    for _step in 0..node_count(graph) {
        match record_of(graph, at as usize) {
            Some(record) => match next_of(record, place) {
                Some(next) => at = next,
                None => return Some(at),
            },
            None => return None,
        }
    }
    None
}

/// The record of the node, if it is live.
fn record_of(graph: &Graph, node: usize) -> Option<&NodeRecord>
    ensures { option_copied result ≡ option_and_then live_record (slice_get graph.now node) }
{
    match graph.nodes.get(node) {
        Some(NodeState::Live(record)) => Some(record),
        _ => None,
    }
}

/// Whether the place is in the keyset of the node.
fn has_place(graph: &Graph, node: u32, place: u64) -> bool
    requires { AreApart (graph_of graph.now) }
    ensures { IsTrue result ↔ InKeyset (graph_of graph.now) node place }
{
    match walk_end(graph, place) {
        Some(end) => end == node,
        None => false,
    }
}

/// The last place, at most `last`, up to which each edge carries all places from `place` on or none.
fn edges_cut(edges: &[Edge], place: u64, last: u64) -> u64
    requires { place ≤ last }
    ensures above { place ≤ result }
    ensures below { result ≤ last }
    ensures same { (q : ℕ) → place ≤ q → q ≤ result → All (λ e. CarriesAlike e place q) edges.now }
{
    let mut cut = last;
    for edge in edges {
        cut = edge_cut(edge, place, cut);
    }
    cut
}

/// The last place, at most `last`, up to which the edge carries all places from `place` on or none.
pub fn edge_cut(edge: &Edge, place: u64, last: u64) -> u64
    requires { place ≤ last }
    ensures above { place ≤ result }
    ensures below { result ≤ last }
    ensures same { (q : ℕ) → place ≤ q → q ≤ result → CarriesAlike edge.now place q }
    ensures turns { edge.now.span.low ≤ edge.now.span.last → result < last →
        ¬ CarriesAlike edge.now place (suc result) }
{
    if place < edge.span.low {
        last.min(edge.span.low - 1)
    } else if place <= edge.span.last {
        last.min(edge.span.last)
    } else {
        last
    }
}

/// The last place, at most `last`, up to which each edge of the node carries all places from `place` on or none.
fn node_cut(graph: &Graph, node: usize, place: u64, last: u64) -> u64
    requires { place ≤ last }
    ensures above { place ≤ result }
    ensures below { result ≤ last }
    ensures same { (q : ℕ) (r : Record) → place ≤ q → q ≤ result → record_at (graph_of graph.now) node ≡ Some r →
        AllCarryAlike r place q }
{
    match record_of(graph, node) {
        Some(record) => edges_cut(&record.edges, place, last),
        None => last,
    }
}

/// The last place up to which each edge of the graph carries all places from `place` on or none.
fn graph_cut(graph: &Graph, place: u64) -> u64
    ensures above { place ≤ result }
    ensures same { (q n : ℕ) (r : Record) → place ≤ q → q ≤ result → record_at (graph_of graph.now) n ≡ Some r →
        AllCarryAlike r place q }
{
    let mut cut = u64::MAX;
    for node in 0..node_count(graph) {
        cut = node_cut(graph, node, place, cut);
    }
    cut
}

/// How many nodes the graph has.
fn node_count(graph: &Graph) -> usize
    ensures { result ≡ length graph.now }
{
    graph.nodes.len()
}

/// The last place up to which all places from `place` on are in the keyset of the node, if `inside`, or else up to which
/// none is. `inside` says whether `place` is.
fn run_last(graph: &Graph, node: u32, place: u64, inside: bool) -> u64
    requires apart { AreApart (graph_of graph.now) }
    requires inside { IsTrue inside ↔ InKeyset (graph_of graph.now) node place }
    ensures above { place ≤ result }
    ensures same { (q : ℕ) → place ≤ q → q ≤ result → IsTrue inside ↔ InKeyset (graph_of graph.now) node q }
    ensures turns { result < top → IsTrue inside ↔ ¬ InKeyset (graph_of graph.now) node (result + 1) }
{
    let mut last = graph_cut(graph, place);
    while last < u64::MAX {
        if has_place(graph, node, last + 1) != inside {
            return last;
        }
        last = graph_cut(graph, last + 1);
    }
    last
}

/// The keyset of the node as spans, ascending and never adjacent. There are none for a node that is not live or that
/// the graph does not have.
pub fn keyset_spans(alloc: Global, graph: &Graph, node: u32) -> Result<Vec<Span>, AllocError>
    requires { AreApart (graph_of graph.now) }
    ensures spans { IfOk result (λ spans. AreSpansOf spans.items (InKeyset (graph_of graph.now) node)) }
{
    let mut spans = Vec::new(alloc);
    let mut low: u64 = 0;
    loop {
        let inside = has_place(graph, node, low);
        let last = run_last(graph, node, low, inside);
        push_run(&mut spans, inside, low, last)?;
        if last == u64::MAX {
            return Ok(spans);
        }
        low = last + 1;
    }
}

/// Adds the span from `low` to `last` if it is inside.
fn push_run(spans: &mut Vec<Span>, inside: bool, low: u64, last: u64) -> Result<(), AllocError>
    ensures ok { OnOk result (spans.new.items ≡ with_run spans.old.items inside low last) }
{
    if inside {
        spans.push(Span { low, last })?;
    }
    Ok(())
}

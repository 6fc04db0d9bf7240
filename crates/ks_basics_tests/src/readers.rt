//! The readers on a worked graph, on a ring, and on a few hundred small graphs against a program that follows the
//! definitions. Many of those are not good: edges lead to nodes that are not live or that the graph does not have,
//! nodes are not reached, walks go round, the root is free.

use crate::wrong::Wrong;
use ks_keysets::{
    Edge, Graph, NodeRecord, NodeState, Pair, Span, edges_apart, keyset_spans, walk_end,
};
use std::alloc::{AllocError, Global};

/// The places that are read in each small graph.
static PLACES: [u64; 7] = [0, 7, 8, 11, 15, 16, u64::MAX];

/// A record with these edges and no pair.
fn with_edges(alloc: Global, edges: Vec<Edge>) -> NodeState {
    NodeState::Live(NodeRecord {
        edges,
        pairs: Vec::new(alloc),
    })
}

/// An edge to the node for the places from `low` to `last`.
fn edge(low: u64, last: u64, node: u32) -> Edge {
    Edge {
        span: Span { low, last },
        node,
    }
}

/// What `walk_end` returns, if the edges are disjoint as it requires.
fn read_end(graph: &Graph, place: u64) -> Option<Option<u32>> {
    if edges_apart(graph) {
        Some(walk_end(graph, place))
    } else {
        None
    }
}

/// What `keyset_spans` returns, if the edges are disjoint as it requires.
fn read_spans(alloc: Global, graph: &Graph, node: u32) -> Result<Option<Vec<Span>>, AllocError> {
    if edges_apart(graph) {
        Ok(Some(keyset_spans(alloc, graph, node)?))
    } else {
        Ok(None)
    }
}

/// A root with a pair and an edge to a leaf with a pair, and a free node.
fn worked_graph(alloc: Global) -> Result<Graph, AllocError> {
    let root = NodeRecord {
        edges: vec![in alloc; edge(8, u64::MAX, 1)]?,
        pairs: vec![in alloc;
            Pair {
                place: 3,
                value: 30
            },
        ]?,
    };
    let leaf = NodeRecord {
        edges: Vec::new(alloc),
        pairs: vec![in alloc;
            Pair {
                place: 8,
                value: 80
            },
        ]?,
    };
    Ok(Graph {
        nodes: vec![in alloc;
            NodeState::Live(root),
            NodeState::Live(leaf),
            NodeState::Free,
        ]?,
    })
}

/// Nodes of the worked graph, and of each the one span of its keyset, if it has one.
static WORKED: [(u32, Option<Span>); 4] = [
    (0, Some(Span { low: 0, last: 7 })),
    (
        1,
        Some(Span {
            low: 8,
            last: u64::MAX,
        }),
    ),
    (2, None),
    (9, None),
];

/// Whether the edges are disjoint, and the keyset of the node is this span, or is empty.
fn has_span(
    alloc: Global,
    graph: &Graph,
    node: u32,
    wanted: Option<Span>,
) -> Result<bool, AllocError> {
    match read_spans(alloc, graph, node)? {
        Some(spans) => Ok(spans.first().copied() == wanted && spans.len() < 2),
        None => Ok(false),
    }
}

/// Each node has the span of its row.
fn read_each(alloc: Global, graph: &Graph, rows: &[(u32, Option<Span>)]) -> Result<(), Wrong> {
    for (row, &(node, wanted)) in rows.iter().enumerate() {
        if !has_span(alloc, graph, node, wanted)? {
            return Err(Wrong::Row(row));
        }
    }
    Ok(())
}

#[test]
fn reads_a_worked_graph(rt: HostRuntime) -> Result<(), Wrong> {
    let graph = worked_graph(rt.alloc())?;
    assert!(rt; read_end(&graph, 7) == Some(Some(0)));
    assert!(rt; read_end(&graph, 8) == Some(Some(1)));
    read_each(rt.alloc(), &graph, &WORKED)
}

/// Two nodes that lead to each other.
fn ring(alloc: Global) -> Result<Graph, AllocError> {
    let there = vec![in alloc; edge(0, u64::MAX, 1)]?;
    let back = vec![in alloc; edge(0, u64::MAX, 0)]?;
    Ok(Graph {
        nodes: vec![in alloc; with_edges(alloc, there), with_edges(alloc, back)]?,
    })
}

#[test]
fn finds_no_end_in_a_ring(rt: HostRuntime) -> Result<(), AllocError> {
    let ring = ring(rt.alloc())?;
    assert!(rt; read_end(&ring, 5) == Some(None));
    assert!(rt; has_span(rt.alloc(), &ring, 0, None)?);
    Ok(())
}

/// The next number of a sequence that looks random.
fn drawn(number: u64) -> u64 {
    let mixed = number.wrapping_mul(6364136223846793005);
    mixed.wrapping_add(1442695040888963407)
}

/// A node whose state and edges are picked by the digits of the number.
fn small_node(alloc: Global, number: u64) -> Result<NodeState, AllocError> {
    let mut digits = number;
    let kind = digits % 7;
    let mut edges = Vec::new(alloc);
    for (low, last) in [(0, 7), (8, 11), (12, 15), (16, u64::MAX)] {
        digits /= 7;
        let target = (digits % 7) as u32;
        if target < 6 {
            edges.push(edge(low, last, target))?;
        }
    }
    Ok(match kind {
        0 => NodeState::Free,
        1 => NodeState::Claimed(3),
        _ => with_edges(alloc, edges),
    })
}

/// The edges of the node, if it is live.
fn edges_of(graph: &Graph, node: usize) -> Option<&[Edge]> {
    match graph.nodes.get(node) {
        Some(NodeState::Live(record)) => Some(&record.edges),
        _ => None,
    }
}

/// Which of the first five nodes the place reaches: by the definition of insets, edge by edge, as long as any may be
/// missing.
fn reached(graph: &Graph, place: u64) -> [bool; 5] {
    let mut reached = [edges_of(graph, 0).is_some(), false, false, false, false];
    for _round in 0..5 {
        for node in 0..5 {
            if !reached[node] {
                continue;
            }
            for edge in edges_of(graph, node).unwrap_or(&[]) {
                let target = edge.node as usize;
                let carries = edge.span.low <= place && place <= edge.span.last;
                if carries && target < 5 && edges_of(graph, target).is_some() {
                    reached[target] = true;
                }
            }
        }
    }
    reached
}

/// The node that the place reaches and that has no edge for it.
fn naive_end(graph: &Graph, place: u64) -> Option<u32> {
    let reached = reached(graph, place);
    for node in 0..5u32 {
        let edges = edges_of(graph, node as usize).unwrap_or(&[]);
        let goes_on = edges
            .iter()
            .any(|edge| edge.span.low <= place && place <= edge.span.last);
        if reached[node as usize] && !goes_on {
            return Some(node);
        }
    }
    None
}

/// Whether the readers find that the place ends at this node, if at any, and that it is in the keyset of no other one.
fn agrees(alloc: Global, graph: &Graph, place: u64, end: Option<u32>) -> Result<bool, AllocError> {
    if read_end(graph, place) != Some(end) {
        return Ok(false);
    }
    for node in 0..6u32 {
        let Some(spans) = read_spans(alloc, graph, node)? else {
            return Ok(false);
        };
        let holds = spans
            .iter()
            .any(|span| span.low <= place && place <= span.last);
        if holds != (end == Some(node)) {
            return Ok(false);
        }
    }
    Ok(true)
}

/// Reads each place of the graph of this number. It returns how many of them end nowhere.
fn read_places(alloc: Global, read: &Graph, graph: u32, places: &[u64]) -> Result<u32, Wrong> {
    let mut lost: u32 = 0;
    for &place in places {
        let end = naive_end(read, place);
        if !agrees(alloc, read, place, end)? {
            return Err(Wrong::Place { graph, place });
        }
        lost = lost.saturating_add(end.is_none() as u32);
    }
    Ok(lost)
}

/// A graph of five nodes, each of the next number.
fn small_graph(alloc: Global, number: &mut u64) -> Result<Graph, AllocError> {
    let mut nodes = Vec::new(alloc);
    for _node in 0..5u32 {
        *number = drawn(*number);
        nodes.push(small_node(alloc, *number >> 20)?)?;
    }
    Ok(Graph { nodes })
}

/// Reads this many small graphs. It returns how many places of them end nowhere.
fn read_small(alloc: Global, graphs: u32) -> Result<u32, Wrong> {
    let mut number: u64 = 1;
    let mut lost: u32 = 0;
    for graph in 0..graphs {
        let read = small_graph(alloc, &mut number)?;
        let found = read_places(alloc, &read, graph, &PLACES)?;
        lost = lost.saturating_add(found);
    }
    Ok(lost)
}

#[test]
fn agrees_with_the_definition_on_small_graphs(rt: HostRuntime) -> Result<(), Wrong> {
    let lost = read_small(rt.alloc(), 300)?;
    assert!(rt; 200 < lost && lost < 1900);
    Ok(())
}

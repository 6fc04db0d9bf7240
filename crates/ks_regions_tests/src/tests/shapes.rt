//! Shapes over records only: each sends its places as the law of its name requires.

use ks_keysets::{Edge, Graph, NodeRecord, NodeState, Pair, Span};
use std::alloc::{AllocError, Global};

pub fn record_at(graph: &Graph, node: u32) -> Option<&NodeRecord> {
    match graph.nodes.get(node as usize) {
        Some(NodeState::Live(record)) => Some(record),
        _ => None,
    }
}

pub fn set(graph: &mut Graph, node: u32, state: NodeState) {
    if let Some(slot) = graph.nodes.get_mut(node as usize) {
        *slot = state;
    }
}

pub fn empty(alloc: Global) -> NodeRecord {
    NodeRecord {
        edges: Vec::new(alloc),
        pairs: Vec::new(alloc),
    }
}

pub fn edge(low: u64, last: u64, node: u32) -> Edge {
    Edge {
        span: Span { low, last },
        node,
    }
}

/// Nine nodes, of which only the root is live and has these pairs.
pub fn opened(alloc: Global, pairs: Vec<Pair>) -> Result<Graph, AllocError> {
    let root = NodeRecord {
        edges: Vec::new(alloc),
        pairs,
    };
    let mut nodes = vec![in alloc; NodeState::Live(root)]?;
    for _node in 1..9u32 {
        nodes.push(NodeState::Free)?;
    }
    Ok(Graph { nodes })
}

/// Adds the edges of the record, cut to the span, and its pairs in the span; no edge to the node that is left out.
fn add(
    part: &mut NodeRecord,
    record: &NodeRecord,
    span: Span,
    without: Option<u32>,
) -> Result<(), AllocError> {
    for old in &record.edges {
        let low = old.span.low.max(span.low);
        let last = old.span.last.min(span.last);
        if low <= last && without != Some(old.node) {
            part.edges.push(edge(low, last, old.node))?;
        }
    }
    for pair in &record.pairs {
        if span.low <= pair.place && pair.place <= span.last {
            part.pairs.push(*pair)?;
        }
    }
    Ok(())
}

/// What the node has below the cut, and from it on.
pub fn parts(
    alloc: Global,
    graph: &Graph,
    node: u32,
    cut: u64,
) -> Result<(NodeRecord, NodeRecord), AllocError> {
    let mut lower = empty(alloc);
    let mut upper = empty(alloc);
    if let Some(record) = record_at(graph, node) {
        let below = Span {
            low: 0,
            last: cut.saturating_sub(1),
        };
        add(&mut lower, record, below, None)?;
        let above = Span {
            low: cut,
            last: u64::MAX,
        };
        add(&mut upper, record, above, None)?;
    }
    Ok((lower, upper))
}

/// The node leads to `right` for what it had from the cut on.
pub fn split_own(
    alloc: Global,
    graph: &mut Graph,
    node: u32,
    right: u32,
    cut: u64,
) -> Result<(), AllocError> {
    let (mut lower, upper) = parts(alloc, graph, node, cut)?;
    lower.edges.push(edge(cut, u64::MAX, right))?;
    set(graph, node, NodeState::Live(lower));
    set(graph, right, NodeState::Live(upper));
    Ok(())
}

/// The node becomes a branch over its two parts.
pub fn grow(
    alloc: Global,
    graph: &mut Graph,
    node: u32,
    children: (u32, u32),
    cut: u64,
) -> Result<(), AllocError> {
    let (lower, upper) = parts(alloc, graph, node, cut)?;
    let (left, right) = children;
    let mut branch = empty(alloc);
    branch.edges.push(edge(0, cut.saturating_sub(1), left))?;
    branch.edges.push(edge(cut, u64::MAX, right))?;
    set(graph, node, NodeState::Live(branch));
    set(graph, left, NodeState::Live(lower));
    set(graph, right, NodeState::Live(upper));
    Ok(())
}

/// The parent leads to `right` for what the node had from the cut on.
pub fn split_under(
    alloc: Global,
    graph: &mut Graph,
    parent: u32,
    node: u32,
    right: u32,
    cut: u64,
) -> Result<(), AllocError> {
    let (lower, upper) = parts(alloc, graph, node, cut)?;
    let mut above = empty(alloc);
    if let Some(record) = record_at(graph, parent) {
        above.pairs.extend(record.pairs.iter().copied())?;
        for old in &record.edges {
            if old.node == node && old.span.low < cut && cut <= old.span.last {
                above.edges.push(edge(old.span.low, cut - 1, node))?;
                above.edges.push(edge(cut, old.span.last, right))?;
            } else {
                above.edges.push(*old)?;
            }
        }
    }
    set(graph, parent, NodeState::Live(above));
    set(graph, node, NodeState::Live(lower));
    set(graph, right, NodeState::Live(upper));
    Ok(())
}

/// The node takes what it leads `child` to, its own edge or only child or any other: the child goes away.
pub fn absorb(alloc: Global, graph: &mut Graph, node: u32, child: u32) -> Result<(), AllocError> {
    let mut whole = empty(alloc);
    if let (Some(record), Some(below)) = (record_at(graph, node), record_at(graph, child)) {
        let all = Span {
            low: 0,
            last: u64::MAX,
        };
        add(&mut whole, record, all, Some(child))?;
        for old in &record.edges {
            if old.node == child {
                add(&mut whole, below, old.span, None)?;
            }
        }
    }
    set(graph, node, NodeState::Live(whole));
    set(graph, child, NodeState::Free);
    Ok(())
}

/// The node takes what the parent leads to the other one by the next edge: that one goes away.
pub fn absorb_under(
    alloc: Global,
    graph: &mut Graph,
    parent: u32,
    node: u32,
    next: Edge,
) -> Result<(), AllocError> {
    let (mut whole, _gone) = parts(alloc, graph, node, next.span.low)?;
    let (_none, upper) = parts(alloc, graph, next.node, next.span.low)?;
    whole.edges.extend(upper.edges)?;
    whole.pairs.extend(upper.pairs)?;
    let mut above = empty(alloc);
    if let Some(record) = record_at(graph, parent) {
        above.pairs.extend(record.pairs.iter().copied())?;
        for old in &record.edges {
            if old.node == node {
                above.edges.push(edge(old.span.low, next.span.last, node))?;
            } else if old.node != next.node {
                above.edges.push(*old)?;
            }
        }
    }
    set(graph, parent, NodeState::Live(above));
    set(graph, node, NodeState::Live(whole));
    set(graph, next.node, NodeState::Free);
    Ok(())
}

//! What a graph that is left shows of its nodes.

use ks_keysets::{Edge, Graph, NodeState};

/// Whether node 0 is live with `pairs` pairs and no edge, and no other node is in use.
pub(crate) fn is_root_alone(graph: &Graph, pairs: usize) -> bool {
    graph.nodes.iter().enumerate().all(|(node, state)| match state {
        NodeState::Live(record) => {
            node == 0 && record.edges.is_empty() && record.pairs.len() == pairs
        }
        NodeState::Free => node != 0,
        NodeState::Claimed(_) => false,
    })
}

/// How many nodes are live.
pub(crate) fn live_nodes(graph: &Graph) -> usize {
    graph
        .nodes
        .iter()
        .filter(|state| matches!(state, NodeState::Live(_)))
        .count()
}

/// The edges of a node; none if it is not live.
fn edges_of(graph: &Graph, node: u32) -> &[Edge] {
    match graph.nodes.get(node as usize) {
        Some(NodeState::Live(record)) => record.edges.as_slice(),
        _ => &[],
    }
}

/// The child at the right of a branch that has a leaf at its left.
fn beside_leaf(graph: &Graph, node: u32) -> Option<u32> {
    let edges = edges_of(graph, node);
    if edges.len() == 2 && edges_of(graph, edges[0].node).is_empty() {
        Some(edges[1].node)
    } else {
        None
    }
}

/// How many branches follow each other from the root on, each with a leaf at its left and the next at its right.
pub(crate) fn chain_of(graph: &Graph) -> usize {
    let mut node = 0;
    for branches in 0..graph.nodes.len() {
        let Some(next) = beside_leaf(graph, node) else {
            return branches;
        };
        node = next;
    }
    graph.nodes.len()
}

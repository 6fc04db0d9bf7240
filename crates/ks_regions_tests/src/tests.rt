//! Some hundred small graphs, each made from one node by random shapes: each stays good, the same is found, and nodes
//! beside a shape keep their keysets. And ways to spoil a shape, each of which its premises exclude: the readers of
//! graphs see each go wrong.

mod shapes;

use crate::tests::shapes::{
    absorb, absorb_under, edge, empty, grow, opened, parts, record_at, set, split_own, split_under,
};
use ks_keysets::{Edge, Graph, NodeState, Pair, Span, edges_apart, keyset_spans, walk_end};
use std::alloc::{AllocError, Global};

/// What is found at a place, of those up to 32: each third one has a value.
fn wanted(place: u64) -> Option<u128> {
    if place % 3 == 0 && place < 33 {
        Some(place as u128 + 100)
    } else {
        None
    }
}

/// The node where the walk of the place ends, if the edges of each node are disjoint.
fn end_of(graph: &Graph, place: u64) -> Option<u32> {
    if edges_apart(graph) {
        walk_end(graph, place)
    } else {
        None
    }
}

/// The keyset of the node, if the edges of each node are disjoint.
fn keyset_of(alloc: Global, graph: &Graph, node: u32) -> Result<Vec<Span>, AllocError> {
    if edges_apart(graph) {
        keyset_spans(alloc, graph, node)
    } else {
        Ok(Vec::new(alloc))
    }
}

/// Whether each place up to 33, and the last one, ends at a node that has what is wanted there.
fn finds_all(graph: &Graph) -> bool {
    for place in (0..34u64).chain([u64::MAX]) {
        let record = match end_of(graph, place) {
            Some(node) => record_at(graph, node),
            None => return false,
        };
        let found = record.and_then(|record| record.pairs.iter().find(|pair| pair.place == place));
        if found.map(|pair| pair.value) != wanted(place) {
            return false;
        }
    }
    true
}

/// Whether the edges of the node lead to live nodes, and each of its pairs is there once, where its place ends.
fn stands(graph: &Graph, node: u32) -> bool {
    let Some(record) = record_at(graph, node) else {
        return true;
    };
    let led = record
        .edges
        .iter()
        .all(|edge| record_at(graph, edge.node).is_some());
    let stored = record.pairs.iter().all(|pair| {
        let places = record
            .pairs
            .iter()
            .filter(|other| other.place == pair.place);
        places.count() == 1 && end_of(graph, pair.place) == Some(node)
    });
    led && stored
}

/// Whether the graph is good, and what is wanted is found.
fn is_good(graph: &Graph) -> bool {
    finds_all(graph) && (0..9u32).all(|node| stands(graph, node))
}

/// The next of a row of pseudo-random numbers.
fn drawn(number: u64) -> u64 {
    let mixed = number.wrapping_mul(6364136223846793005);
    mixed.wrapping_add(1442695040888963407)
}

/// A node of the first nine that is not live and not the other one.
fn fresh(graph: &Graph, other: u32) -> Option<u32> {
    (1..9u32).find(|node| *node != other && record_at(graph, *node).is_none())
}

/// Where a place comes in a graph: a node on its walk, the one before it, and the edge between them.
#[derive(Clone, Copy)]
struct Visit {
    node: u32,
    parent: Option<u32>,
    span: Span,
}

/// The edge of the node that carries the place.
fn edge_at(graph: &Graph, node: u32, place: u64) -> Option<Edge> {
    let record = record_at(graph, node)?;
    for edge in &record.edges {
        if edge.span.low <= place && place <= edge.span.last {
            return Some(*edge);
        }
    }
    None
}

/// The node that the place comes to after this number of steps, or where its walk ends before.
fn walked(graph: &Graph, place: u64, steps: u64) -> Visit {
    let mut at = Visit {
        node: 0,
        parent: None,
        span: Span {
            low: 0,
            last: u64::MAX,
        },
    };
    for _step in 0..steps.min(9) {
        if let Some(edge) = edge_at(graph, at.node, place) {
            at = Visit {
                node: edge.node,
                parent: Some(at.node),
                span: edge.span,
            };
        }
    }
    at
}

/// Whether the place comes to the node.
fn comes(graph: &Graph, place: u64, node: u32) -> bool {
    (0..9u64).any(|steps| walked(graph, place, steps).node == node)
}

/// A shape at a node on the path of a drawn place, and the nodes that it names; none if it has no room or no sense.
fn shape(alloc: Global, graph: &mut Graph, number: u64) -> Result<[u32; 3], AllocError> {
    let place = (number >> 8) % 33;
    let at = walked(graph, place, (number >> 16) % 4);
    let node = at.node;
    let child = edge_at(graph, node, place);
    let cut = child.map_or(place, |edge| edge.span.low);
    let splits = 0 < cut && comes(graph, cut, node) && comes(graph, cut.saturating_sub(1), node);
    let right = fresh(graph, 0);
    match (number % 7, at.parent, right, child) {
        (0, _, Some(right), _) if splits => {
            split_own(alloc, graph, node, right, cut)?;
            Ok([node, right, right])
        }
        (1 | 2, Some(parent), Some(right), _) if splits => {
            split_under(alloc, graph, parent, node, right, cut)?;
            Ok([parent, node, right])
        }
        (3, _, Some(left), _) if splits => grow_in(alloc, graph, node, left, cut),
        (4 | 5, _, _, Some(edge)) => {
            absorb(alloc, graph, node, edge.node)?;
            Ok([node, edge.node, edge.node])
        }
        (6, Some(parent), _, _) => join(alloc, graph, parent, at),
        _ => Ok([node, node, node]),
    }
}

/// The node grows, if there is a second node for it.
fn grow_in(
    alloc: Global,
    graph: &mut Graph,
    node: u32,
    left: u32,
    cut: u64,
) -> Result<[u32; 3], AllocError> {
    let Some(right) = fresh(graph, left) else {
        return Ok([node, node, node]);
    };
    grow(alloc, graph, node, (left, right), cut)?;
    Ok([node, left, right])
}

/// The node takes over the one to which its parent leads next, if there is one.
fn join(alloc: Global, graph: &mut Graph, parent: u32, at: Visit) -> Result<[u32; 3], AllocError> {
    let node = at.node;
    let seam = at.span.last.saturating_add(1);
    let Some(edge) = edge_at(graph, parent, seam) else {
        return Ok([parent, node, node]);
    };
    if edge.node == node {
        return Ok([parent, node, node]);
    }
    absorb_under(alloc, graph, parent, node, edge)?;
    Ok([parent, node, edge.node])
}

/// The keysets of the nine nodes.
fn keysets(alloc: Global, graph: &Graph) -> Result<Vec<Vec<Span>>, AllocError> {
    let mut all = Vec::new(alloc);
    for node in 0..9u32 {
        all.push(keyset_of(alloc, graph, node)?)?;
    }
    Ok(all)
}

/// All pairs that are wanted.
fn all_pairs(alloc: Global) -> Result<Vec<Pair>, AllocError> {
    let mut pairs = Vec::new(alloc);
    for place in 0..33u64 {
        if let Some(value) = wanted(place) {
            pairs.push(Pair { place, value })?;
        }
    }
    Ok(pairs)
}

/// Why a test fails.
#[derive(Debug, Drop)]
enum Wrong {
    /// Memory ran out.
    Memory,
    /// The shape of this number, of this graph, left a graph that is not good.
    Graph { graph: u32, number: u64 },
    /// The shape of this number, of this graph, changed the keyset of a node that it does not name.
    Keyset { graph: u32, number: u64 },
    /// The step of this number, which has to keep the graph good and the left child as it was, did not.
    Step(u32),
    /// The graph that is spoiled in this way is called good.
    Unseen(u32),
}

impl From<AllocError> for Wrong {
    fn from(_: AllocError) -> Wrong {
        Wrong::Memory
    }
}

/// Whether each node that is not named has the keyset that it had.
fn others_stay(before: &[Vec<Span>], after: &[Vec<Span>], named: [u32; 3]) -> bool {
    (0..9u32).all(|node| {
        let stays = before.get(node as usize) == after.get(node as usize);
        stays || named.contains(&node)
    })
}

/// Tries the shape that the number picks. It returns whether there was one.
fn try_shape(alloc: Global, tried: &mut Graph, graph: u32, number: u64) -> Result<bool, Wrong> {
    let before = keysets(alloc, tried)?;
    let named = shape(alloc, tried, number >> 20)?;
    let after = keysets(alloc, tried)?;
    if !is_good(tried) {
        return Err(Wrong::Graph { graph, number });
    }
    if !others_stay(&before, &after, named) {
        return Err(Wrong::Keyset { graph, number });
    }
    Ok(named[0] != named[1])
}

/// Tries this many shapes in each of this many graphs. It returns how many shapes there were.
fn try_shapes(alloc: Global, graphs: u32, draws: u32) -> Result<u32, Wrong> {
    let mut number: u64 = 1;
    let mut shapes: u32 = 0;
    for graph in 0..graphs {
        let mut tried = opened(alloc, all_pairs(alloc)?)?;
        for _shape in 0..draws {
            number = drawn(number);
            let made = try_shape(alloc, &mut tried, graph, number)?;
            shapes = shapes.saturating_add(made as u32);
        }
    }
    Ok(shapes)
}

#[test]
fn random_shapes_keep_graphs_good(rt: HostRuntime) -> Result<(), Wrong> {
    let shapes = try_shapes(rt.alloc(), 40, 12)?;
    assert!(rt; 200 < shapes);
    Ok(())
}

/// A node over those that these edges lead to.
fn branch(alloc: Global, edges: &[(u64, u64, u32)]) -> Result<NodeState, AllocError> {
    let mut record = empty(alloc);
    for (low, last, node) in edges {
        record.edges.push(edge(*low, *last, *node))?;
    }
    Ok(NodeState::Live(record))
}

/// What a wrong split under the root leaves of node 1 or 3, or of the root, by the premise that excludes it.
fn wrong_part(alloc: Global, graph: &Graph, way: u32) -> Result<(u32, NodeState), AllocError> {
    let (_none, mut record) = parts(alloc, graph, 3, 0)?;
    let changed = match (way, record.pairs.pop()) {
        // a value that the node had not
        (6, Some(pair)) => Some(Pair {
            place: pair.place,
            value: pair.value ^ 1,
        }),
        // a pair that is not in the keyset
        (7, Some(pair)) => Some(Pair {
            place: 20,
            value: pair.value,
        }),
        // a pair lost
        _ => None,
    };
    if let Some(pair) = changed {
        record.pairs.push(pair)?;
    }
    Ok((3, NodeState::Live(record)))
}

/// The root after a wrong split of node 1, by the premise that excludes it.
fn wrong_root(alloc: Global, way: u32) -> Result<NodeState, AllocError> {
    let (lower, upper) = match way {
        // edges that are not disjoint
        0 => ((0, 8, 1), (8, 15, 3)),
        // places below the cut that node does not get
        1 => ((0, 5, 1), (8, 15, 3)),
        // places from the cut on that right does not get
        2 => ((0, 7, 1), (10, 15, 3)),
        // the parts exchanged
        3 => ((0, 7, 3), (8, 15, 1)),
        // the root led to
        4 => ((0, 7, 0), (8, 15, 3)),
        // a node led to that is not live
        _ => ((0, 7, 1), (8, 15, 5)),
    };
    branch(alloc, &[lower, upper, (16, u64::MAX, 2)])
}

/// Three nodes under the root, after a split.
fn split(alloc: Global) -> Result<Graph, AllocError> {
    let mut graph = opened(alloc, all_pairs(alloc)?)?;
    grow(alloc, &mut graph, 0, (1, 2), 16)?;
    split_under(alloc, &mut graph, 0, 1, 3, 8)?;
    Ok(graph)
}

/// The split, spoiled in one of eleven ways: the root, a part, or the state of node 3 is wrong.
fn spoiled_split(alloc: Global, way: u32) -> Result<Graph, AllocError> {
    let mut graph = split(alloc)?;
    let (node, state) = match way {
        0..=5 => (0, wrong_root(alloc, way)?),
        6..=8 => wrong_part(alloc, &graph, way)?,
        9 => (3, NodeState::Free),
        _ => (3, NodeState::Claimed(0)),
    };
    set(&mut graph, node, state);
    Ok(graph)
}

/// Each of the eleven ways to spoil the split is seen.
fn see_spoiled_splits(alloc: Global) -> Result<(), Wrong> {
    for way in 0..11u32 {
        if is_good(&spoiled_split(alloc, way)?) {
            return Err(Wrong::Unseen(way));
        }
    }
    Ok(())
}

#[test]
fn spoiled_shapes_are_seen(rt: HostRuntime) -> Result<(), Wrong> {
    assert!(rt; is_good(&split(rt.alloc())?));
    see_spoiled_splits(rt.alloc())
}

/// A split whose left part keeps all.
fn split_in_vain(alloc: Global) -> Result<Graph, AllocError> {
    let mut graph = opened(alloc, all_pairs(alloc)?)?;
    grow(alloc, &mut graph, 0, (1, 2), 16)?;
    let (_none, whole) = parts(alloc, &graph, 1, 0)?;
    split_under(alloc, &mut graph, 0, 1, 3, 8)?;
    set(&mut graph, 1, NodeState::Live(whole));
    Ok(graph)
}

#[test]
fn the_left_part_may_not_keep_all(rt: HostRuntime) -> Result<(), AllocError> {
    assert!(rt; !is_good(&split_in_vain(rt.alloc())?));
    Ok(())
}

/// The root has grown.
fn branched(alloc: Global) -> Result<Graph, AllocError> {
    let mut graph = opened(alloc, all_pairs(alloc)?)?;
    grow(alloc, &mut graph, 0, (1, 2), 8)?;
    Ok(graph)
}

/// The root has grown, and then its right child, at a place that has a value.
fn grown(alloc: Global) -> Result<Graph, AllocError> {
    let mut graph = branched(alloc)?;
    grow(alloc, &mut graph, 2, (3, 4), 15)?;
    Ok(graph)
}

/// The halves of the right child are joined again, under it.
fn joined(alloc: Global) -> Result<Graph, AllocError> {
    let mut graph = grown(alloc)?;
    absorb_under(alloc, &mut graph, 2, 3, edge(15, u64::MAX, 4))?;
    Ok(graph)
}

/// The right child has taken over what was joined.
fn taken_over(alloc: Global) -> Result<Graph, AllocError> {
    let mut graph = joined(alloc)?;
    absorb(alloc, &mut graph, 2, 3)?;
    Ok(graph)
}

/// The graph after the step of this number.
fn stepped(alloc: Global, step: u32) -> Result<Graph, AllocError> {
    match step {
        0 => grown(alloc),
        1 => joined(alloc),
        _ => taken_over(alloc),
    }
}

/// Each of the three steps keeps the graph good, and the left child as it was.
fn take_steps(alloc: Global) -> Result<(), Wrong> {
    let before = branched(alloc)?;
    let left = keyset_of(alloc, &before, 1)?;
    for step in 0..3u32 {
        let graph = stepped(alloc, step)?;
        if !is_good(&graph) || keyset_of(alloc, &graph, 1)? != left {
            return Err(Wrong::Step(step));
        }
    }
    Ok(())
}

#[test]
fn a_node_below_the_root_grows_and_takes_its_child_over(rt: HostRuntime) -> Result<(), Wrong> {
    let alloc = rt.alloc();
    take_steps(alloc)?;
    assert!(rt; keysets(alloc, &taken_over(alloc)?)? == keysets(alloc, &branched(alloc)?)?);
    Ok(())
}

/// What is wrong of which node after a growth below the root, or after the child was taken over.
fn wrong_growth(alloc: Global, way: u32) -> Result<(u32, NodeState), AllocError> {
    Ok(match way {
        // the right edge of the node that grew begins one late
        0 => (2, branch(alloc, &[(0, 14, 3), (16, u64::MAX, 4)])?),
        // the left half keeps the upper pairs
        1 => {
            let (_none, whole) = parts(alloc, &joined(alloc)?, 3, 0)?;
            (3, NodeState::Live(whole))
        }
        // the node still leads to the child that it took over
        2 => (2, branch(alloc, &[(0, u64::MAX, 3)])?),
        // it has none of the pairs of that child
        _ => (2, NodeState::Live(empty(alloc))),
    })
}

/// Each of the four ways to spoil a growth below the root is seen: two after it, and two after the child was taken over.
fn see_spoiled_growths(alloc: Global) -> Result<(), Wrong> {
    for way in 0..4u32 {
        let step = if way < 2 { 0 } else { 2 };
        let mut graph = stepped(alloc, step)?;
        let (node, state) = wrong_growth(alloc, way)?;
        set(&mut graph, node, state);
        if is_good(&graph) {
            return Err(Wrong::Unseen(way));
        }
    }
    Ok(())
}

#[test]
fn spoiled_growths_below_the_root_are_seen(rt: HostRuntime) -> Result<(), Wrong> {
    see_spoiled_growths(rt.alloc())
}

/// The right child of the root leads on by an edge of its own, which begins below its low.
fn with_an_own_edge(alloc: Global) -> Result<Graph, AllocError> {
    let mut graph = opened(alloc, all_pairs(alloc)?)?;
    grow(alloc, &mut graph, 0, (1, 2), 16)?;
    split_own(alloc, &mut graph, 2, 4, 16)?;
    set(&mut graph, 2, branch(alloc, &[(5, u64::MAX, 4)])?);
    Ok(graph)
}

/// The left child has taken over that right child.
fn merged(alloc: Global) -> Result<Graph, AllocError> {
    let mut graph = with_an_own_edge(alloc)?;
    absorb_under(alloc, &mut graph, 0, 1, edge(16, u64::MAX, 2))?;
    Ok(graph)
}

/// The left child has taken over that edge uncut, from below the low of the right child.
fn merged_whole(alloc: Global) -> Result<Graph, AllocError> {
    let mut graph = merged(alloc)?;
    let (_none, mut record) = parts(alloc, &graph, 1, 0)?;
    for old in &mut record.edges {
        *old = edge(5, old.span.last, old.node);
    }
    set(&mut graph, 1, NodeState::Live(record));
    Ok(graph)
}

#[test]
fn an_own_edge_below_the_low_spoils_a_merge(rt: HostRuntime) -> Result<(), AllocError> {
    assert!(rt; is_good(&with_an_own_edge(rt.alloc())?));
    assert!(rt; is_good(&merged(rt.alloc())?));
    assert!(rt; !is_good(&merged_whole(rt.alloc())?));
    Ok(())
}

//! The pairs and the graph of an arena that has ended.
ghost use Rattle.std.specs.Prelude.{◌≡◌, ℕ, ◌<◌, ◌++◌, map, length, IfOk, OnOk};
ghost use Rattle.ks_keysets.specs.Listed.{graph_of};
ghost use Rattle.ks_node.specs.Edges.{edges_of};
ghost use Rattle.ks_history.specs.Map.{map_after};
ghost use Rattle.ks_history.specs.Served.{IsListing};
ghost use Rattle.ks_history.specs.Trace.{calls_of, graph_after};
ghost use Rattle.ks_arena.specs.Sound.{sort_of};
ghost use Rattle.ks_arena.specs.Clauses.{IsRun, nodes_in, trace_of};
ghost use Rattle.ks_arena.specs.Ended.{AreFound, IsReadAs, entries_below, entry_of};

use crate::run::Run;
use crate::spots::turn_at;
use ks_history::keyset_theorem;
use ks_keysets::{Edge, Graph, NodeRecord, NodeState, Pair};
use ks_node::Node;
use std::alloc::{AllocError, Global};

/// The edges of the body's record, in their order.
fn edges_in<N: Node>(alloc: Global, body: &N) -> Result<Vec<Edge>, AllocError>
    ensures { IfOk result (λ edges. edges.items ≡ edges_of (N.body body.now)) }
{
    let held = body.edges_held();
    let mut edges = Vec::with_capacity(alloc, held as usize)?;
    for n in 0..held {
        edges.push(body.edge_at(n))?;
    }
    Ok(edges)
}

/// Its pairs, in their order.
fn pairs_in<N: Node>(alloc: Global, body: &N) -> Result<Vec<Pair>, AllocError>
    ensures { IfOk result (λ pairs. pairs.items ≡ (N.body body.now).pairs) }
{
    let held = body.pairs_held();
    let mut pairs = Vec::with_capacity(alloc, held as usize)?;
    for n in 0..held {
        pairs.push(body.pair_at(n))?;
    }
    Ok(pairs)
}

/// Adds the places and values of the body's pairs.
fn add_entries<N: Node>(body: &N, entries: &mut Vec<(u64, u128)>) -> Result<(), AllocError>
    ensures { OnOk result (entries.new.items ≡ entries.old.items ++ map entry_of (N.body body.now).pairs) }
{
    for n in 0..body.pairs_held() {
        let pair = body.pair_at(n);
        entries.push((pair.place, pair.value))?;
    }
    Ok(())
}

impl<N: Node> Run<N> {
    /// The body of a node, if the node is live.
    fn live(&self, node: usize) -> Option<&N>
        requires run { (nodes : ℕ) × IsRun (sort_of N.layout N.ranged) N.body nodes self.now }
        requires node { node < nodes_in self.now }
        ensures { IsReadAs N.body (graph_after (trace_of self.now) node) result }
    {
        if self.remains.closed.word(turn_at(node)) == 0 {
            return None;
        }
        self.remains.closed.get(node).as_ref()
    }

    /// The places and values of all pairs, node after node.
    fn entries(&self, alloc: Global) -> Result<Vec<(u64, u128)>, AllocError>
        requires { (nodes : ℕ) × IsRun (sort_of N.layout N.ranged) N.body nodes self.now }
        ensures { IfOk result
            (λ entries. entries.items ≡ entries_below (graph_after (trace_of self.now)) (nodes_in self.now)) }
    {
        let mut entries = Vec::new(alloc);
        for node in 0..self.remains.closed.slot_count() {
            match self.live(node) {
                Some(body) => add_entries(body, &mut entries)?,
                None => {}
            }
        }
        Ok(entries)
    }

    /// What the graph holds at the end: the stored places with their values, ascending by place. It is the map after the
    /// calls. It fails only if memory runs out.
    pub fn pairs(&self, alloc: Global) -> Result<Vec<(u64, u128)>, AllocError>
        requires { (nodes : ℕ) × IsRun (sort_of N.layout N.ranged) N.body nodes self.now }
        ensures found { IfOk result (λ entries. AreFound (graph_after (trace_of self.now)) entries.items) }
        ensures map { IfOk result (λ entries. IsListing (map_after (calls_of (trace_of self.now))) entries.items) }
    {
        keyset_theorem();
        let mut entries = self.entries(alloc)?;
        entries.sort_unstable_by_key(|entry| entry.0);
        Ok(entries)
    }

    /// The state of a node.
    fn state(&self, alloc: Global, node: usize) -> Result<NodeState, AllocError>
        requires run { (nodes : ℕ) × IsRun (sort_of N.layout N.ranged) N.body nodes self.now }
        requires node { node < nodes_in self.now }
        ensures { IfOk result (λ state. state ≡ graph_after (trace_of self.now) node) }
    {
        match self.live(node) {
            None => Ok(NodeState::Free),
            Some(body) => Ok(NodeState::Live(NodeRecord {
                edges: edges_in(alloc, body)?,
                pairs: pairs_in(alloc, body)?,
            })),
        }
    }

    /// The graph at the end, with as many nodes as the arena had. It fails only if memory runs out.
    pub fn graph(&self, alloc: Global) -> Result<Graph, AllocError>
        requires { (nodes : ℕ) × IsRun (sort_of N.layout N.ranged) N.body nodes self.now }
        ensures nodes { (nodes : ℕ) → IsRun (sort_of N.layout N.ranged) N.body nodes self.now →
            IfOk result (λ graph. length graph ≡ nodes) }
        ensures states { IfOk result
            (λ graph. (node : ℕ) → graph_of graph node ≡ graph_after (trace_of self.now) node) }
    {
        let count = self.remains.closed.slot_count();
        let mut nodes = Vec::with_capacity(alloc, count)?;
        for node in 0..count {
            nodes.push(self.state(alloc, node)?)?;
        }
        Ok(Graph { nodes })
    }
}

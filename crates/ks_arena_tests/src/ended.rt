//! An arena that has ended is read out: its pairs and its graph.
ghost use Rattle.std.specs.Prelude.{IfOk};
ghost use Rattle.ks_arena.specs.Clauses.{IsRun};
ghost use Rattle.ks_arena.specs.Sound.{sort_of};

use crate::tests::two_callers;
use crate::wrong::{Wrong, must};
use ks_arena::{Arena, Run, fits_threads};
use ks_flow::Tree;
use ks_keysets::NodeState;
use ks_list::ListNode;
use ks_node::Node;
use std::alloc::{AllocError, Global};
use std::sync::Wait;

/// Whether the node is live and has neither an edge nor a pair.
fn is_empty(state: &NodeState) -> bool {
    match state {
        NodeState::Live(record) => record.edges.is_empty() && record.pairs.is_empty(),
        _ => false,
    }
}

fn is_free(state: &NodeState) -> bool {
    match state {
        NodeState::Free => true,
        _ => false,
    }
}

/// What is left of an arena of four nodes that ends at once.
fn ended_at_once<N: Node>(alloc: Global) -> Result<Run<N>, AllocError>
    ensures { IfOk result (λ run. IsRun (sort_of N.layout N.ranged) N.body 4 run) }
{
    let (arena, passes) = Arena::<N, Tree>::start(alloc, 4, 2)?;
    Ok(arena.close(passes))
}

/// Whether there are four nodes, node 0 is empty, and each other one is free.
fn has_empty_root(nodes: &[NodeState]) -> bool {
    for (node, state) in nodes.iter().enumerate() {
        let is_new = if node == 0 {
            is_empty(state)
        } else {
            is_free(state)
        };
        if !is_new {
            return false;
        }
    }
    nodes.len() == 4
}

/// Ends an arena at once, and reads it out.
fn end_at_once<N: Node>(alloc: Global) -> Result<(), Wrong> {
    let run = ended_at_once::<N>(alloc)?;
    let pairs = run.pairs(alloc)?;
    let graph = run.graph(alloc)?;
    must(pairs.is_empty(), "no pair is left")?;
    must(
        has_empty_root(graph.nodes.as_slice()),
        "node 0 is empty, and three nodes are free",
    )
}

#[test]
fn an_arena_that_ends_at_once_has_an_empty_root(rt: HostRuntime) -> Result<(), Wrong> {
    end_at_once::<ListNode>(rt.alloc())
}

/// Hands all that an arena hands out to a function that wants it to be fit for other threads.
fn hand_out<N: Node + Send, R: Wait>(rt: &R, alloc: Global) -> Result<(), Wrong> {
    let run = ended_at_once::<N>(alloc)?;
    let (arena, mut pass, _) = two_callers::<N>(alloc)?;
    let Some(held) = arena.take(rt, &mut pass, 0) else {
        return Err(Wrong::Not("the root is there"));
    };
    let note = arena.note(&mut pass);
    fits_threads(&arena, &pass, &note, &held, &run);
    arena.give(&mut pass, held);
    Ok(())
}

/// It is proved of the arena, of a pass, a note and a held node, and of what is left of an arena.
#[test]
fn an_arena_and_what_it_hands_out_may_go_to_other_threads(rt: HostRuntime) -> Result<(), Wrong> {
    hand_out::<ListNode, HostRuntime>(&rt, rt.alloc())
}

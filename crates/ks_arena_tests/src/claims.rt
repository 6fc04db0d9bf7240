//! All nodes of an arena of several free words are claimed.
ghost use Rattle.std.specs.Prelude.{◌≡◌, ◌<◌, ◌≤◌};
ghost use Rattle.ks_arena.specs.Clauses.{hand_of};
ghost use Rattle.ks_arena.specs.Of.{IsPassOf, StayCurrent, callers_of, nodes_of, SameCaller, caller_of};

use crate::claim_of_many;
use crate::wrong::{Wrong, must};
use ks_arena::{Arena, Pass};
use ks_flow::{Discipline, Tree};
use ks_list::ListNode;
use ks_node::Node;
use std::alloc::Global;

/// Claims the nodes from `next` on until none is left, and releases them. Returns whether they came in order, up to the
/// last.
fn claim_from<N: Node, D: Discipline>(arena: &Arena<N, D>, pass: &mut Pass<N, D>, next: u32) -> bool
    requires pass { IsPassOf arena.now pass.old }
    requires size { nodes_of arena.now ≡ 200 }
    requires alone { (callers_of arena.now ≡ 1) × (caller_of pass.old ≡ 0) }
    requires next { next ≤ 200 }
    ensures pass { IsPassOf arena.now pass.new }
    ensures caller { SameCaller pass.old pass.new }
    ensures hand { hand_of pass.new ≡ hand_of pass.old }
    ensures still { StayCurrent arena.now pass.old pass.new }
{
    let Some(held) = claim_of_many(arena, pass) else {
        return next == 200;
    };
    let in_order = held.node == next && claim_from(arena, pass, next + 1);
    arena.give(pass, held);
    in_order
}

/// One caller claims all nodes of an arena of 200.
fn claim_all<N: Node>(alloc: Global) -> Result<(), Wrong> {
    let (arena, mut passes) = Arena::<N, Tree>::start(alloc, 200, 1)?;
    let Some(mut pass) = passes.pop() else {
        return Err(Wrong::Not("there is a pass"));
    };
    let in_order = claim_from(&arena, &mut pass, 1);
    must(in_order, "the nodes are claimed in order, up to the last")
}

#[test]
fn one_caller_claims_each_of_200_nodes_in_order_in_few_steps(rt: HostRuntime) -> Result<(), Wrong> {
    claim_all::<ListNode>(rt.alloc())
}

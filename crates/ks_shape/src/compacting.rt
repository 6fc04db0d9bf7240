//! What a technique offers that can merge nodes all over the graph.
ghost use Rattle.std.specs.Prelude.{◌≡◌};
ghost use Rattle.ks_shape.specs.Idle.{IsIdle, Site};
ghost use Rattle.ks_shape.specs.Compacts.{HasFreed, HasLeftBy, IsTightIn, WasUndisturbed};
ghost use Rattle.ks_arena.specs.Of.{SameCaller};

use crate::template::{Shelf, Template};
use ks_arena::Pass;
use ks_gate::Gate;
use ks_node::Node;
use std::sync::Wait;

/// A technique that can merge nodes all over the graph, also if nothing was deleted.
pub trait Compacting<N: Node, A: Shelf>: Template<N, A> {
    /// Merges what fits, node after node, and returns how many nodes it made free, modulo 2^32. It is no call of the
    /// history and claims no node. If no other caller did anything meanwhile and it made none free, no live node fits with
    /// its right neighbour, and the root is no branch over one child: so while no other caller acts, a caller repeats it
    /// until it returns 0, in an arena of fewer than 2^32 nodes.
    fn compact<R: Wait, G: Gate>(rt: &R, arena: &A, pass: &mut Pass<N, Self::Rule>, gate: &G) -> u32
        requires pass { IsIdle (A.site arena.now) pass.old }
        ensures pass { IsIdle (A.site arena.now) pass.new }
        ensures caller { SameCaller pass.old pass.new }
        ensures left { HasLeftBy Self.technique pass.old pass.new }
        ensures frees { HasFreed pass.old pass.new result }
        ensures tight { WasUndisturbed pass.old pass.new → IsTightIn (A.site arena.now) pass.new };
}

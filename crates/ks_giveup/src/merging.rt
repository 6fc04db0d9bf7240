//! Compaction for the technique of giving up, by lock coupling.
ghost use Rattle.std.specs.Prelude.{◌≡◌};
ghost use Rattle.ks_history.specs.Done.{give_up};
ghost use Rattle.ks_arena.specs.Of.{IsEmptyPassOf, SameCaller};
ghost use Rattle.ks_shape.specs.Compacts.{HasFreed, HasLeftBy, IsTightOf, WasUndisturbed};

use crate::technique::GiveUp;
use ks_arena::{Arena, Pass};
use ks_flow::Tree;
use ks_gate::{Gate, Point};
use ks_node::{Ranged, Unlinked};
use ks_shape::Compacting;
use ks_tidy::pair_compact;
use std::sync::Wait;

/// Merges nodes that fit, node after node; returns how many it made free, modulo 2^32. It goes by lock coupling from
/// the root, holds three nodes at most, and is no call of the history. If no other caller did anything meanwhile and it
/// made none free, no live node fits with its right neighbour, and the root is no branch over one child.
pub fn compact<N: Ranged + Unlinked, R: Wait, G: Gate>(
    rt: &R,
    arena: &Arena<N, Tree>,
    pass: &mut Pass<N, Tree>,
    gate: &G,
) -> u32
    requires pass { IsEmptyPassOf arena.now pass.old }
    ensures pass { IsEmptyPassOf arena.now pass.new }
    ensures caller { SameCaller pass.old pass.new }
    ensures left { HasLeftBy give_up pass.old pass.new }
    ensures frees { HasFreed pass.old pass.new result }
    ensures tight { WasUndisturbed pass.old pass.new → IsTightOf arena.now pass.new }
{
    gate.at(pass.caller(), Point::Begin);
    pair_compact(rt, arena, pass, gate)
}

impl<N: Ranged + Unlinked> Compacting<N, Arena<N, Tree>> for GiveUp {
    fn compact<R: Wait, G: Gate>(
        rt: &R,
        arena: &Arena<N, Tree>,
        pass: &mut Pass<N, Tree>,
        gate: &G,
    ) -> u32 {
        compact(rt, arena, pass, gate)
    }
}

//! Ordered scans along links: one part of a scan is one call, which lists the pairs of one node.
ghost use Rattle.std.specs.Prelude.{◌≤◌};
ghost use Rattle.ks_history.specs.Done.{link_move};
ghost use Rattle.ks_arena.specs.Of.{IsEmptyPassOf, SameCaller};
ghost use Rattle.ks_shape.specs.Does.{OnlySearches};
ghost use Rattle.ks_shape.specs.Parts.{DonePartOf};

use crate::descent::{find, span_law};
use ks_arena::laws::sound_law;
use ks_arena::{Arena, Pass};
use ks_flow::Link;
use ks_gate::Gate;
use ks_node::{Linked, Listed};
use ks_shape::{Part, part_here};
use std::sync::Wait;

/// Lists the pairs from `low` on, at most to `last`, both included, at the node where the search for `low` ends. If its
/// range ends below `last`, the part ends there, and the link of the node leads on to the next place. The caller holds
/// one node at a time.
pub fn scan_part<N: Linked + Listed, R: Wait, G: Gate>(
    rt: &R,
    arena: &Arena<N, Link>,
    pass: &mut Pass<N, Link>,
    gate: &G,
    low: u64,
    last: u64,
) -> Part
    requires pass { IsEmptyPassOf arena.now pass.old }
    requires span { low ≤ last }
    ensures pass { IsEmptyPassOf arena.now pass.new }
    ensures caller { SameCaller pass.old pass.new }
    ensures leaves { OnlySearches pass.old pass.new }
    ensures done { DonePartOf arena.now link_move low last pass.old pass.new result }
{
    sound_law::<Link>();
    let held = find(rt, arena, pass, gate, low);
    let end = last.min(held.body.range().last);
    span_law(arena, pass, &held, low);
    part_here(arena, pass, gate, low, end, held)
}

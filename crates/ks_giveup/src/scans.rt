//! Ordered scans by giving up.
ghost use Rattle.std.specs.Prelude.{◌≤◌};
ghost use Rattle.ks_history.specs.Done.{give_up};
ghost use Rattle.ks_arena.specs.Of.{IsEmptyPassOf, SameCaller};
ghost use Rattle.ks_shape.specs.Does.{OnlySearches};
ghost use Rattle.ks_shape.specs.Parts.{DonePartOf};
ghost use Rattle.ks_giveup.specs.Goes.{GoesTowards};

use crate::descent::find;
use crate::technique::GiveUp;
use ks_arena::laws::sound_law;
use ks_arena::{Arena, Pass};
use ks_flow::Tree;
use ks_gate::{Gate, Point};
use ks_node::{Listed, Unlinked, listed_law, node_law};
use ks_shape::{Part, Scanning, part_here};
use std::sync::Wait;

/// Lists the pairs from `low` on, to `last` or to the end of the range of the node that has `low`, whichever is less. It
/// searches for `low` as `get` does, and holds one node at a time.
pub fn scan_part<N: Listed + Unlinked, R: Wait, G: Gate>(
    rt: &R,
    arena: &Arena<N, Tree>,
    pass: &mut Pass<N, Tree>,
    gate: &G,
    low: u64,
    last: u64,
) -> Part
    requires pass { IsEmptyPassOf arena.now pass.old }
    requires span { low ≤ last }
    ensures pass { IsEmptyPassOf arena.now pass.new }
    ensures caller { SameCaller pass.old pass.new }
    ensures leaves { OnlySearches pass.old pass.new }
    ensures done { DonePartOf arena.now give_up low last pass.old pass.new result }
    ensures goes { GoesTowards low pass.old pass.new }
{
    sound_law::<Tree>();
    listed_law::<N>();
    gate.at(pass.caller(), Point::Begin);
    let held = find(rt, arena, pass, gate, low);
    node_law(&held.body);
    let range = held.body.range();
    let end = last.min(range.last);
    part_here(arena, pass, gate, low, end, held)
}

impl<N: Listed + Unlinked> Scanning<N, Arena<N, Tree>> for GiveUp {
    ghost plain = { N.plain };

    fn scan_part<R: Wait, G: Gate>(
        rt: &R,
        arena: &Arena<N, Tree>,
        pass: &mut Pass<N, Tree>,
        gate: &G,
        low: u64,
        last: u64,
    ) -> Part {
        scan_part(rt, arena, pass, gate, low, last)
    }
}

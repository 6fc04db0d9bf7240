//! Room for a place, for a call that is decided later, and elsewhere: nothing remains held.
ghost use Rattle.std.specs.Prelude.{◌≡◌, true, false};
ghost use Rattle.ks_arena.specs.Of.{IsEmptyPassOf, SameCaller};
ghost use Rattle.ks_shape.specs.Does.{OnlyFills};
ghost use Rattle.ks_shape.specs.Of.{IsStretch, NoneWasFree};
ghost use Rattle.ks_put.specs.Of.{HadRoomFor};

use crate::room::make_room;
use ks_arena::{Arena, Pass};
use ks_flow::Tree;
use ks_gate::Gate;
use ks_node::{Unlinked, node_law};
use ks_shape::give_last;
use std::sync::Wait;

/// Makes room for a place, as a put does that searches by pairs, and releases all nodes. Returns whether the node where the
/// search for the place ended had the place, or room for it; others may use that room before the caller does. If not, no
/// node was found free. It does not notify the gate that a call begins.
pub fn clear_room<N: Unlinked, R: Wait, G: Gate>(
    rt: &R,
    arena: &Arena<N, Tree>,
    pass: &mut Pass<N, Tree>,
    gate: &G,
    place: u64,
) -> bool
    requires pass { IsEmptyPassOf arena.now pass.old }
    ensures pass { IsEmptyPassOf arena.now pass.new }
    ensures caller { SameCaller pass.old pass.new }
    ensures fills { OnlyFills N.layout N.ranged place pass.old pass.new }
    ensures room { result ≡ true → HadRoomFor arena.now place pass.old pass.new }
    ensures refused { result ≡ false → NoneWasFree arena.now place pass.old pass.new }
    ensures stretch { IsStretch pass.old pass.new }
{
    match make_room(rt, arena, pass, gate, place) {
        Ok(held) => {
            node_law(&held.body);
            give_last(arena, pass, gate, held);
            true
        }
        Err(held) => {
            give_last(arena, pass, gate, held);
            false
        }
    }
}

//! Non-blocking puts and adds: a search for room, and then the Call.
ghost use Rattle.std.specs.Prelude.{◌≡◌};
ghost use Rattle.ks_arena.specs.Of.{IsEmptyPassOf, SameCaller};
ghost use Rattle.ks_shape.specs.Fills.{filling};
ghost use Rattle.ks_put.specs.Tries.{FinishesTry};
ghost use Rattle.ks_shape.specs.Does.{OnlyFills};

use crate::try_room::try_make_room;
use ks_arena::{Arena, Pass};
use ks_flow::Tree;
use ks_gate::Gate;
use ks_node::Unlinked;
use ks_shape::{Fill, Numbered, PutLater, fill_at, not_put_off};

/// Puts or adds a value at a place without waiting. Returns the number of the call, and the value that was there. It
/// ends a call by coupling or by giving up that took the root at most once before, and does not notify the gate that one
/// begins.
///
/// # Errors
///
/// `Full`, with the number of the call, if the node is full and none was found free. `Busy` if another caller holds the
/// next node on the search path; `Far` if as many nodes were taken as there are, while another caller changed some: then
/// the call is none of the history. Splits that were made before stay in each case.
pub fn try_pair_fill<N: Unlinked, G: Gate>(
    arena: &Arena<N, Tree>,
    pass: &mut Pass<N, Tree>,
    gate: &G,
    place: u64,
    fill: Fill,
) -> Result<Numbered, PutLater>
    requires pass { IsEmptyPassOf arena.now pass.old }
    ensures pass { IsEmptyPassOf arena.now pass.new }
    ensures caller { SameCaller pass.old pass.new }
    ensures fills { OnlyFills N.layout N.ranged place pass.old pass.new }
    ensures tried { FinishesTry arena.now (filling place fill) pass.old pass.new result }
{
    match try_make_room(arena, pass, gate, place) {
        Ok(found) => not_put_off(fill_at(arena, pass, gate, place, fill, found)),
        Err(later) => Err(PutLater::Later(later)),
    }
}

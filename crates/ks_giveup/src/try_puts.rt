//! Non-blocking puts and adds by giving up.
ghost use Rattle.std.specs.Prelude.{◌≡◌};
ghost use Rattle.ks_history.specs.declared.Op.TheVariants.{Add, Put};
ghost use Rattle.ks_history.specs.Done.{give_up};
ghost use Rattle.ks_arena.specs.Of.{IsEmptyPassOf, SameCaller};
ghost use Rattle.ks_shape.specs.Fills.{filling};
ghost use Rattle.ks_shape.specs.Of.{TriedPutOf};
ghost use Rattle.ks_giveup.specs.Goes.{GoesTowards};
ghost use Rattle.ks_shape.specs.Does.{OnlyFills};

use crate::try_descent::try_find;
use ks_arena::{Arena, Pass};
use ks_flow::Tree;
use ks_gate::Gate;
use ks_node::{Ranged, Unlinked};
use ks_put::try_pair_fill;
use ks_shape::{Fill, Numbered, PutLater, fill_at, give_last, has_room, not_put_off};

/// Puts or adds a value at a place, without waiting.
fn try_fill<N: Ranged + Unlinked, G: Gate>(
    arena: &Arena<N, Tree>,
    pass: &mut Pass<N, Tree>,
    gate: &G,
    place: u64,
    fill: Fill,
) -> Result<Numbered, PutLater>
    requires pass { IsEmptyPassOf arena.now pass.old }
    ensures pass { IsEmptyPassOf arena.now pass.new }
    ensures caller { SameCaller pass.old pass.new }
    ensures fills { OnlyFills N.layout N.ranged place pass.old pass.new }
    ensures tried { TriedPutOf arena.now give_up (filling place fill) pass.old pass.new result }
    ensures goes { GoesTowards place pass.old pass.new }
{
    match try_find(arena, pass, gate, place) {
        Ok(held) => {
            if has_room(&held, place) {
                return not_put_off(fill_at(arena, pass, gate, place, fill, Ok(held)));
            }
            give_last(arena, pass, gate, held);
            try_pair_fill(arena, pass, gate, place, fill)
        }
        Err(later) => Err(PutLater::Later(later)),
    }
}

/// Sets the value at a place; returns the value that was there, and the number of the call. It holds one node at a
/// time, and waits for none; if the node has no room it goes on by lock coupling, from the root, splits full nodes, and
/// holds three nodes at most.
///
/// # Errors
///
/// `Full` if the node has no room, the place has no value, and no node was found free: the call has its number, and
/// splits that it made before stay. Else it is put off as `try_get` is: the call is none of the history; splits that it
/// made stay.
pub fn try_put<N: Ranged + Unlinked, G: Gate>(
    arena: &Arena<N, Tree>,
    pass: &mut Pass<N, Tree>,
    gate: &G,
    place: u64,
    value: u128,
) -> Result<Numbered, PutLater>
    requires pass { IsEmptyPassOf arena.now pass.old }
    ensures pass { IsEmptyPassOf arena.now pass.new }
    ensures caller { SameCaller pass.old pass.new }
    ensures fills { OnlyFills N.layout N.ranged place pass.old pass.new }
    ensures tried { TriedPutOf arena.now give_up (Put place value) pass.old pass.new result }
    ensures goes { GoesTowards place pass.old pass.new }
{
    try_fill(arena, pass, gate, place, Fill::Put(value))
}

/// Sets the value at a place that has none; returns the value that was there, which then stays, and the number of the
/// call. It searches as `try_put` does.
///
/// # Errors
///
/// As for `try_put`.
pub fn try_add<N: Ranged + Unlinked, G: Gate>(
    arena: &Arena<N, Tree>,
    pass: &mut Pass<N, Tree>,
    gate: &G,
    place: u64,
    value: u128,
) -> Result<Numbered, PutLater>
    requires pass { IsEmptyPassOf arena.now pass.old }
    ensures pass { IsEmptyPassOf arena.now pass.new }
    ensures caller { SameCaller pass.old pass.new }
    ensures fills { OnlyFills N.layout N.ranged place pass.old pass.new }
    ensures tried { TriedPutOf arena.now give_up (Add place value) pass.old pass.new result }
    ensures goes { GoesTowards place pass.old pass.new }
{
    try_fill(arena, pass, gate, place, Fill::Add(value))
}

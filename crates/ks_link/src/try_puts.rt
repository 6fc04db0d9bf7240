//! Non-blocking puts and adds along links.
ghost use Rattle.std.specs.Prelude.{◌≡◌};
ghost use Rattle.ks_history.specs.declared.Op.TheVariants.{Add, Put};
ghost use Rattle.ks_history.specs.Done.{link_move};
ghost use Rattle.ks_arena.specs.Of.{IsEmptyPassOf, SameCaller};
ghost use Rattle.ks_shape.specs.Fills.{filling};
ghost use Rattle.ks_shape.specs.Of.{TriedPutOf};
ghost use Rattle.ks_shape.specs.Does.{OnlyFills};

use crate::puts::fill_from;
use crate::try_attaches::try_attach_all;
use crate::try_descent::try_find;
use arrayvec::ArrayVec;
use ks_arena::{Arena, Pass};
use ks_flow::Link;
use ks_gate::Gate;
use ks_node::Linked;
use ks_shape::{Fill, Numbered, PutLater, not_put_off};

/// Puts or adds a value at a place, without waiting. What was split off is attached after the call has been decided,
/// unless a busy node ends that.
fn try_fill<N: Linked, G: Gate>(
    arena: &Arena<N, Link>,
    pass: &mut Pass<N, Link>,
    gate: &G,
    place: u64,
    fill: Fill,
) -> Result<Numbered, PutLater>
    requires pass { IsEmptyPassOf arena.now pass.old }
    ensures pass { IsEmptyPassOf arena.now pass.new }
    ensures caller { SameCaller pass.old pass.new }
    ensures fills { OnlyFills N.layout N.ranged place pass.old pass.new }
    ensures tried { TriedPutOf arena.now link_move (filling place fill) pass.old pass.new result }
{
    match try_find(arena, pass, gate, place) {
        Ok(held) => {
            let mut waiting = ArrayVec::new();
            let answer = fill_from(arena, pass, gate, place, fill, held, &mut waiting);
            try_attach_all(arena, pass, gate, waiting.as_slice());
            not_put_off(answer)
        }
        Err(later) => Err(PutLater::Later(later)),
    }
}

/// Sets the value at a place; returns the value that was there, and the number of the call. It does not wait. If the
/// place has none, a full node is split before, if a node is free. What was split off is attached after the call has
/// been decided, if it can be; if a node on the search path to its parent is busy, it is left without an edge for good,
/// and stays reached by its left neighbour's link.
///
/// # Errors
///
/// `Later` with `Busy`, which names a node on the search path and the other caller that held it: the call is then no
/// call of the history, and no node was split. `Full` as for `put`.
pub fn try_put<N: Linked, G: Gate>(
    arena: &Arena<N, Link>,
    pass: &mut Pass<N, Link>,
    gate: &G,
    place: u64,
    value: u128,
) -> Result<Numbered, PutLater>
    requires pass { IsEmptyPassOf arena.now pass.old }
    ensures pass { IsEmptyPassOf arena.now pass.new }
    ensures caller { SameCaller pass.old pass.new }
    ensures fills { OnlyFills N.layout N.ranged place pass.old pass.new }
    ensures tried { TriedPutOf arena.now link_move (Put place value) pass.old pass.new result }
{
    try_fill(arena, pass, gate, place, Fill::Put(value))
}

/// Sets the value at a place that has none; returns the value that was there, which then stays, and the number of the
/// call. It does not wait, and makes room as `try_put` does.
///
/// # Errors
///
/// `Later` and `Full` as for `try_put`.
pub fn try_add<N: Linked, G: Gate>(
    arena: &Arena<N, Link>,
    pass: &mut Pass<N, Link>,
    gate: &G,
    place: u64,
    value: u128,
) -> Result<Numbered, PutLater>
    requires pass { IsEmptyPassOf arena.now pass.old }
    ensures pass { IsEmptyPassOf arena.now pass.new }
    ensures caller { SameCaller pass.old pass.new }
    ensures fills { OnlyFills N.layout N.ranged place pass.old pass.new }
    ensures tried { TriedPutOf arena.now link_move (Add place value) pass.old pass.new result }
{
    try_fill(arena, pass, gate, place, Fill::Add(value))
}

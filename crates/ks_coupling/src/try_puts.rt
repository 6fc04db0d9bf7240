//! Non-blocking puts and adds by lock coupling.
ghost use Rattle.std.specs.Prelude.{◌≡◌};
ghost use Rattle.ks_history.specs.declared.Op.TheVariants.{Add, Put};
ghost use Rattle.ks_history.specs.Done.{coupling};
ghost use Rattle.ks_arena.specs.Of.{IsEmptyPassOf, SameCaller};
ghost use Rattle.ks_shape.specs.Fills.{filling};
ghost use Rattle.ks_shape.specs.Of.{TriedPutOf};
ghost use Rattle.ks_shape.specs.Does.{OnlyFills};

use ks_arena::{Arena, Pass};
use ks_flow::Tree;
use ks_gate::{Gate, Point};
use ks_node::Unlinked;
use ks_put::try_pair_fill;
use ks_shape::{Fill, Numbered, PutLater};

/// Puts or adds a value at a place, without waiting.
fn try_fill<N: Unlinked, G: Gate>(
    arena: &Arena<N, Tree>,
    pass: &mut Pass<N, Tree>,
    gate: &G,
    place: u64,
    fill: Fill,
) -> Result<Numbered, PutLater>
    requires pass { IsEmptyPassOf arena.now pass.old }
    ensures pass { IsEmptyPassOf arena.now pass.new }
    ensures caller { SameCaller pass.old pass.new }
    ensures fills { OnlyFills N.layout N.ranged place pass.old pass.new }
    ensures tried { TriedPutOf arena.now coupling (filling place fill) pass.old pass.new result }
{
    gate.at(pass.caller(), Point::Begin);
    try_pair_fill(arena, pass, gate, place, fill)
}

/// Sets the value at a place; returns the value that was there, and the number of the call. It splits full nodes as
/// `put` does, holds three nodes at most, and waits for none.
///
/// # Errors
///
/// `Full` if the node has no room, the place has no value, and no node was found free: the call has its number, and
/// splits that it made before stay. `Busy` if another caller holds the next node on the search path; `Far` if as many
/// nodes were taken as there are, while another caller changed some. Then the call is none of the history; splits that
/// it made stay.
pub fn try_put<N: Unlinked, G: Gate>(
    arena: &Arena<N, Tree>,
    pass: &mut Pass<N, Tree>,
    gate: &G,
    place: u64,
    value: u128,
) -> Result<Numbered, PutLater>
    requires pass { IsEmptyPassOf arena.now pass.old }
    ensures pass { IsEmptyPassOf arena.now pass.new }
    ensures caller { SameCaller pass.old pass.new }
    ensures fills { OnlyFills N.layout N.ranged place pass.old pass.new }
    ensures tried { TriedPutOf arena.now coupling (Put place value) pass.old pass.new result }
{
    try_fill(arena, pass, gate, place, Fill::Put(value))
}

/// Sets the value at a place that has none; returns the value that was there, which then stays, and the number of the
/// call. It searches as `try_put` does.
///
/// # Errors
///
/// As for `try_put`.
pub fn try_add<N: Unlinked, G: Gate>(
    arena: &Arena<N, Tree>,
    pass: &mut Pass<N, Tree>,
    gate: &G,
    place: u64,
    value: u128,
) -> Result<Numbered, PutLater>
    requires pass { IsEmptyPassOf arena.now pass.old }
    ensures pass { IsEmptyPassOf arena.now pass.new }
    ensures caller { SameCaller pass.old pass.new }
    ensures fills { OnlyFills N.layout N.ranged place pass.old pass.new }
    ensures tried { TriedPutOf arena.now coupling (Add place value) pass.old pass.new result }
{
    try_fill(arena, pass, gate, place, Fill::Add(value))
}

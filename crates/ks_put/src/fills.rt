//! Puts and adds: a search for room, and then the Call.
ghost use Rattle.std.specs.Prelude.{◌≡◌, IfOk};
ghost use Rattle.ks_shape.specs.Answers.{number_at, number_in, reply_at, reply_in};
ghost use Rattle.ks_shape.specs.Fills.{filling};
ghost use Rattle.ks_arena.specs.Of.{IsEmptyPassOf, SameCaller};
ghost use Rattle.ks_shape.specs.Hinted.{IsWhere};
ghost use Rattle.ks_shape.specs.Located.{FinishesFillWhere};
ghost use Rattle.ks_shape.specs.Of.{FinishesAny};
ghost use Rattle.ks_shape.specs.Does.{OnlyFills};

use crate::room::make_room;
use ks_arena::{Arena, Pass};
use ks_flow::Tree;
use ks_gate::Gate;
use ks_node::{Ranged, Unlinked};
use ks_shape::{Above, Fill, Full, Numbered, NumberedAt, fill_at, fill_located};
use std::sync::Wait;

/// Puts or adds a value at a place. Returns the number of the call, and the value that was there; or only the number, if
/// the node is full and none was found free; splits that were made before stay. It ends a call by any technique, and does
/// not notify the gate that one begins.
pub fn pair_fill<N: Unlinked, R: Wait, G: Gate>(
    rt: &R,
    arena: &Arena<N, Tree>,
    pass: &mut Pass<N, Tree>,
    gate: &G,
    place: u64,
    fill: Fill,
) -> Result<Numbered, Full>
    requires pass { IsEmptyPassOf arena.now pass.old }
    ensures pass { IsEmptyPassOf arena.now pass.new }
    ensures caller { SameCaller pass.old pass.new }
    ensures fills { OnlyFills N.layout N.ranged place pass.old pass.new }
    ensures done { FinishesAny arena.now (filling place fill) pass.old pass.new (reply_in result) (number_in result) }
{
    let found = make_room(rt, arena, pass, gate, place);
    fill_at(arena, pass, gate, place, fill, found)
}

/// Puts or adds a value at a place, as `pair_fill`. Unless the node is full, returns also at which node, and with which
/// range, the call was decided, and `above` as it was given.
pub fn pair_fill_at<N: Ranged + Unlinked, R: Wait, G: Gate>(
    rt: &R,
    arena: &Arena<N, Tree>,
    pass: &mut Pass<N, Tree>,
    gate: &G,
    place: u64,
    fill: Fill,
    above: Option<Above>,
) -> Result<NumberedAt, Full>
    requires pass { IsEmptyPassOf arena.now pass.old }
    ensures pass { IsEmptyPassOf arena.now pass.new }
    ensures caller { SameCaller pass.old pass.new }
    ensures fills { OnlyFills N.layout N.ranged place pass.old pass.new }
    ensures done { FinishesAny arena.now (filling place fill) pass.old pass.new (reply_at result) (number_at result) }
    ensures at { FinishesFillWhere arena.now (filling place fill) pass.old pass.new result }
    ensures within { IfOk result (IsWhere place) }
    ensures above { IfOk result (λ answer. answer.above ≡ above) }
{
    let found = make_room(rt, arena, pass, gate, place);
    fill_located(arena, pass, gate, place, fill, found, above)
}

//! The calls of a dictionary by giving up.
ghost use Rattle.std.specs.Prelude.{◌≡◌, ◌≢◌, None};
ghost use Rattle.ks_history.specs.declared.Op.TheVariants.{Add, Del, Get, Put, Swap};
ghost use Rattle.ks_history.specs.Map.{told};
ghost use Rattle.ks_history.specs.Done.{give_up};
ghost use Rattle.ks_shape.specs.Answers.{number_in, reply_in};
ghost use Rattle.ks_arena.specs.Of.{IsEmptyPassOf, WasAlone, SameCaller};
ghost use Rattle.ks_shape.specs.Of.{DoneOf};
ghost use Rattle.ks_giveup.specs.Goes.{GoesTowards};
ghost use Rattle.ks_tidy.specs.Of.{IsTidyOf};
ghost use Rattle.ks_shape.specs.Does.{OnlyDels, OnlyFills, OnlySearches};

use crate::descent::{find, find_room};
use ks_arena::{Arena, Pass};
use ks_flow::Tree;
use ks_gate::{Gate, Point};
use ks_node::{Ranged, Unlinked};
use ks_put::pair_fill;
use ks_shape::{Fill, Full, Numbered, add_here, get_here, put_here, swap_here};
use ks_tidy::del_alone;
use std::sync::Wait;

/// Returns the value at a place, and the number of the call. It holds one node at a time: the root, or the one to which
/// an edge of the node that it released just before led.
pub fn get<N: Ranged + Unlinked, R: Wait, G: Gate>(
    rt: &R,
    arena: &Arena<N, Tree>,
    pass: &mut Pass<N, Tree>,
    gate: &G,
    place: u64,
) -> Numbered
    requires pass { IsEmptyPassOf arena.now pass.old }
    ensures pass { IsEmptyPassOf arena.now pass.new }
    ensures caller { SameCaller pass.old pass.new }
    ensures leaves { OnlySearches pass.old pass.new }
    ensures done { DoneOf arena.now give_up (Get place) pass.old pass.new (told result.found) result.number }
    ensures goes { GoesTowards place pass.old pass.new }
{
    gate.at(pass.caller(), Point::Begin);
    let held = find(rt, arena, pass, gate, place);
    get_here(arena, pass, gate, place, held)
}

/// Puts a value at a place; returns the value that was there, and the number of the call. It searches as `get` does; if
/// the node has no room it goes on by lock coupling, from the root, splits full nodes, and holds three nodes at most.
///
/// # Errors
///
/// `Full` if the node has no room, the place has no value, and no node was found free: the call has its number, and
/// splits that it made before stay.
pub fn put<N: Ranged + Unlinked, R: Wait, G: Gate>(
    rt: &R,
    arena: &Arena<N, Tree>,
    pass: &mut Pass<N, Tree>,
    gate: &G,
    place: u64,
    value: u128,
) -> Result<Numbered, Full>
    requires pass { IsEmptyPassOf arena.now pass.old }
    ensures pass { IsEmptyPassOf arena.now pass.new }
    ensures caller { SameCaller pass.old pass.new }
    ensures fills { OnlyFills N.layout N.ranged place pass.old pass.new }
    ensures done { DoneOf arena.now give_up (Put place value) pass.old pass.new (reply_in result) (number_in result) }
    ensures goes { GoesTowards place pass.old pass.new }
{
    match find_room(rt, arena, pass, gate, place) {
        Some(held) => Ok(put_here(arena, pass, gate, place, value, held)),
        None => pair_fill(rt, arena, pass, gate, place, Fill::Put(value)),
    }
}

/// Puts a value at a place that has none; returns the value that was there, which then stays, and the number of the
/// call. It searches as `put` does.
///
/// # Errors
///
/// `Full` as for `put`.
pub fn add<N: Ranged + Unlinked, R: Wait, G: Gate>(
    rt: &R,
    arena: &Arena<N, Tree>,
    pass: &mut Pass<N, Tree>,
    gate: &G,
    place: u64,
    value: u128,
) -> Result<Numbered, Full>
    requires pass { IsEmptyPassOf arena.now pass.old }
    ensures pass { IsEmptyPassOf arena.now pass.new }
    ensures caller { SameCaller pass.old pass.new }
    ensures fills { OnlyFills N.layout N.ranged place pass.old pass.new }
    ensures done { DoneOf arena.now give_up (Add place value) pass.old pass.new (reply_in result) (number_in result) }
    ensures goes { GoesTowards place pass.old pass.new }
{
    match find_room(rt, arena, pass, gate, place) {
        Some(held) => Ok(add_here(arena, pass, gate, place, value, held)),
        None => pair_fill(rt, arena, pass, gate, place, Fill::Add(value)),
    }
}

/// Puts `new` at a place if the value there is `old`; returns the value that was there, and the number of the call. It
/// searches as `get` does.
pub fn swap<N: Ranged + Unlinked, R: Wait, G: Gate>(
    rt: &R,
    arena: &Arena<N, Tree>,
    pass: &mut Pass<N, Tree>,
    gate: &G,
    place: u64,
    old: u128,
    new: u128,
) -> Numbered
    requires pass { IsEmptyPassOf arena.now pass.old }
    ensures pass { IsEmptyPassOf arena.now pass.new }
    ensures caller { SameCaller pass.old pass.new }
    ensures leaves { OnlySearches pass.old pass.new }
    ensures done { DoneOf arena.now give_up (Swap place old new) pass.old pass.new (told result.found) result.number }
    ensures goes { GoesTowards place pass.old pass.new }
{
    gate.at(pass.caller(), Point::Begin);
    let held = find(rt, arena, pass, gate, place);
    swap_here(arena, pass, gate, place, old, new, held)
}

/// Deletes what is at a place; returns the value that was there, and the number of the call. It searches as `get` does.
/// If it removed a pair and left the node low, it releases the node and goes on by lock coupling, from the root, to
/// merge on the search path and at its end, and holds three nodes at most.
pub fn del<N: Ranged + Unlinked, R: Wait, G: Gate>(
    rt: &R,
    arena: &Arena<N, Tree>,
    pass: &mut Pass<N, Tree>,
    gate: &G,
    place: u64,
) -> Numbered
    requires pass { IsEmptyPassOf arena.now pass.old }
    ensures pass { IsEmptyPassOf arena.now pass.new }
    ensures caller { SameCaller pass.old pass.new }
    ensures dels { OnlyDels N.layout N.ranged pass.old pass.new }
    ensures done { DoneOf arena.now give_up (Del place) pass.old pass.new (told result.found) result.number }
    ensures goes { GoesTowards place pass.old pass.new }
    ensures tidy { result.found ≢ None → WasAlone pass.old pass.new → IsTidyOf arena.now pass.new place }
{
    gate.at(pass.caller(), Point::Begin);
    let held = find(rt, arena, pass, gate, place);
    del_alone(rt, arena, pass, gate, place, held)
}

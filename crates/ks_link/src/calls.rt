//! The calls of a dictionary along links.
ghost use Rattle.std.specs.Prelude.{◌≡◌};
ghost use Rattle.ks_history.specs.declared.Op.TheVariants.{Del, Get, Swap};
ghost use Rattle.ks_history.specs.Map.{told};
ghost use Rattle.ks_history.specs.Done.{link_move};
ghost use Rattle.ks_arena.specs.Of.{IsEmptyPassOf, SameCaller};
ghost use Rattle.ks_shape.specs.Of.{DoneOf};
ghost use Rattle.ks_shape.specs.Does.{OnlySearches};

use crate::descent::find;
use ks_arena::{Arena, Pass};
use ks_flow::Link;
use ks_gate::Gate;
use ks_node::Linked;
use ks_shape::{Numbered, del_here, get_here, swap_here};
use std::sync::Wait;

/// Returns the value at a place, and the number of the call. It holds one node at a time.
pub fn get<N: Linked, R: Wait, G: Gate>(
    rt: &R,
    arena: &Arena<N, Link>,
    pass: &mut Pass<N, Link>,
    gate: &G,
    place: u64,
) -> Numbered
    requires pass { IsEmptyPassOf arena.now pass.old }
    ensures pass { IsEmptyPassOf arena.now pass.new }
    ensures caller { SameCaller pass.old pass.new }
    ensures leaves { OnlySearches pass.old pass.new }
    ensures done { DoneOf arena.now link_move (Get place) pass.old pass.new (told result.found) result.number }
{
    let held = find(rt, arena, pass, gate, place);
    get_here(arena, pass, gate, place, held)
}

/// Deletes what is at a place; returns the value that was there, and the number of the call. It holds one node at a
/// time, and no nodes are merged under links.
pub fn del<N: Linked, R: Wait, G: Gate>(
    rt: &R,
    arena: &Arena<N, Link>,
    pass: &mut Pass<N, Link>,
    gate: &G,
    place: u64,
) -> Numbered
    requires pass { IsEmptyPassOf arena.now pass.old }
    ensures pass { IsEmptyPassOf arena.now pass.new }
    ensures caller { SameCaller pass.old pass.new }
    ensures leaves { OnlySearches pass.old pass.new }
    ensures done { DoneOf arena.now link_move (Del place) pass.old pass.new (told result.found) result.number }
{
    let held = find(rt, arena, pass, gate, place);
    del_here(arena, pass, gate, place, held)
}

/// Sets the value at a place to `new` if it is `old`; returns the value that was there, and the number of the call. It
/// holds one node at a time.
pub fn swap<N: Linked, R: Wait, G: Gate>(
    rt: &R,
    arena: &Arena<N, Link>,
    pass: &mut Pass<N, Link>,
    gate: &G,
    place: u64,
    old: u128,
    new: u128,
) -> Numbered
    requires pass { IsEmptyPassOf arena.now pass.old }
    ensures pass { IsEmptyPassOf arena.now pass.new }
    ensures caller { SameCaller pass.old pass.new }
    ensures leaves { OnlySearches pass.old pass.new }
    ensures done { DoneOf arena.now link_move (Swap place old new) pass.old pass.new (told result.found) result.number }
{
    let held = find(rt, arena, pass, gate, place);
    swap_here(arena, pass, gate, place, old, new, held)
}

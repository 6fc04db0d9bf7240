//! Where a search for a place ends, a call is decided: each operation once, for all techniques.
ghost use Rattle.std.specs.Prelude.{◌≡◌, false, true};
ghost use Rattle.ks_history.specs.declared.Op.TheVariants.{Add, Del, Get, Put, Swap};
ghost use Rattle.ks_history.specs.Map.{told};
ghost use Rattle.ks_node.specs.declared.start.Next.TheVariants.{Here};
ghost use Rattle.ks_node.specs.Body.{next_at};
ghost use Rattle.ks_arena.specs.Of.{IsPassOf, WasRefusedAt, caller_of};
ghost use Rattle.ks_shape.specs.SearchEnd.{Fills, LacksPlace, TakesPlace};
ghost use Rattle.ks_shape.specs.Of.{IsOver, IsOnWayOf, FinishesAny, FinishesAt, FinishesCrowded, SearchEndsAt, HasRoomAt, IsCrowdedAt};
ghost use Rattle.ks_shape.specs.Does.{OnlySearches};

use crate::answers::{Full, Numbered};
use crate::ending::{conclude_found, refuse};
use ks_arena::laws::sound_law;
use ks_arena::{Arena, Held, Pass};
use ks_flow::{Discipline, Tree};
use ks_gate::Gate;
use ks_history::Op;
use ks_node::{Node, node_law};

/// Under trees a search that is under way ends at a node with no edge that carries the place: the range of the node, if it
/// has one, is its inset. The function computes nothing.
pub fn tree_end_law<N: Node>(
    arena: &Arena<N, Tree>,
    pass: &Pass<N, Tree>,
    held: &Held<N>,
    place: u64,
)
    requires pass { IsPassOf arena.now pass.now }
    requires way { IsOnWayOf arena.now (caller_of pass.now) place pass.now held.now }
    requires here { next_at (N.body held.now.body) place ≡ Here }
    ensures { SearchEndsAt arena.now place pass.now held.now }
{
    sound_law::<Tree>();
}

/// Whether a node has a place, or room for it.
pub fn has_room<N: Node>(held: &Held<N>, place: u64) -> bool
    ensures room { result ≡ true → TakesPlace N.layout (N.body held.now.body) place }
    ensures none { result ≡ false → LacksPlace N.layout (N.body held.now.body) place }
{
    !held.body.is_full() || held.body.get(place).is_some()
}

/// Decides a get where the search for its place has ended.
#[inline(always)]
pub fn get_here<N: Node, D: Discipline, G: Gate>(
    arena: &Arena<N, D>,
    pass: &mut Pass<N, D>,
    gate: &G,
    place: u64,
    held: Held<N>,
) -> Numbered
    requires pass { IsPassOf arena.now pass.old }
    requires ends { SearchEndsAt arena.now place pass.old held }
    ensures over { IsOver arena.now pass.old pass.new }
    ensures leaves { OnlySearches pass.old pass.new }
    ensures done { FinishesAny arena.now (Get place) pass.old pass.new (told result.found) result.number }
    ensures at { FinishesAt arena.now held (Get place) pass.old pass.new (told result.found) result.number }
{
    let found = held.body.get(place);
    arena.get_law(pass, &held, place, found);
    let number = conclude_found(arena, pass, gate, held, Op::Get(place), found);
    Numbered { number, found }
}

/// Decides a put where the search for its place has ended, at a node that has the place or room for it: the value is set.
#[inline(always)]
pub fn put_here<N: Node, D: Discipline, G: Gate>(
    arena: &Arena<N, D>,
    pass: &mut Pass<N, D>,
    gate: &G,
    place: u64,
    value: u128,
    held: Held<N>,
) -> Numbered
    requires pass { IsPassOf arena.now pass.old }
    requires room { HasRoomAt arena.now place pass.old held }
    ensures over { IsOver arena.now pass.old pass.new }
    ensures leaves { OnlySearches pass.old pass.new }
    ensures done { FinishesAny arena.now (Put place value) pass.old pass.new (told result.found) result.number }
    ensures at { FinishesAt arena.now held (Put place value) pass.old pass.new (told result.found) result.number }
{
    let mut held = held;
    node_law(&held.body);
    arena.put_law(pass, &held, place, value);
    let found = held.body.put(place, value);
    let op = Op::Put(place, value);
    let number = conclude_found(arena, pass, gate, held, op, found);
    Numbered { number, found }
}

/// Decides an add where the search for its place has ended, at a node that has the place or room for it: a value that is
/// there stays.
pub fn add_here<N: Node, D: Discipline, G: Gate>(
    arena: &Arena<N, D>,
    pass: &mut Pass<N, D>,
    gate: &G,
    place: u64,
    value: u128,
    held: Held<N>,
) -> Numbered
    requires pass { IsPassOf arena.now pass.old }
    requires room { HasRoomAt arena.now place pass.old held }
    ensures over { IsOver arena.now pass.old pass.new }
    ensures leaves { OnlySearches pass.old pass.new }
    ensures done { FinishesAny arena.now (Add place value) pass.old pass.new (told result.found) result.number }
    ensures at { FinishesAt arena.now held (Add place value) pass.old pass.new (told result.found) result.number }
{
    let mut held = held;
    node_law(&held.body);
    arena.add_law(pass, &held, place, value);
    let op = Op::Add(place, value);
    let Some(found) = held.body.get(place) else {
        held.body.put(place, value);
        let number = conclude_found(arena, pass, gate, held, op, None);
        return Numbered {
            number,
            found: None,
        };
    };
    let number = conclude_found(arena, pass, gate, held, op, Some(found));
    Numbered {
        number,
        found: Some(found),
    }
}

/// Decides a swap where the search for its place has ended: the new value is set if the old one is there.
pub fn swap_here<N: Node, D: Discipline, G: Gate>(
    arena: &Arena<N, D>,
    pass: &mut Pass<N, D>,
    gate: &G,
    place: u64,
    old: u128,
    new: u128,
    held: Held<N>,
) -> Numbered
    requires pass { IsPassOf arena.now pass.old }
    requires ends { SearchEndsAt arena.now place pass.old held }
    ensures over { IsOver arena.now pass.old pass.new }
    ensures leaves { OnlySearches pass.old pass.new }
    ensures done { FinishesAny arena.now (Swap place old new) pass.old pass.new (told result.found) result.number }
    ensures at { FinishesAt arena.now held (Swap place old new) pass.old pass.new (told result.found) result.number }
{
    let mut held = held;
    node_law(&held.body);
    arena.swap_law(pass, &held, place, old, new);
    let op = Op::Swap(place, old, new);
    let Some(found) = held.body.get(place) else {
        let number = conclude_found(arena, pass, gate, held, op, None);
        return Numbered {
            number,
            found: None,
        };
    };
    if found != old {
        let number = conclude_found(arena, pass, gate, held, op, Some(found));
        return Numbered {
            number,
            found: Some(found),
        };
    }
    held.body.put(place, new);
    let number = conclude_found(arena, pass, gate, held, op, Some(old));
    Numbered {
        number,
        found: Some(old),
    }
}

/// Decides a del where the search for its place has ended: what is there is deleted.
#[inline(always)]
pub fn del_here<N: Node, D: Discipline, G: Gate>(
    arena: &Arena<N, D>,
    pass: &mut Pass<N, D>,
    gate: &G,
    place: u64,
    held: Held<N>,
) -> Numbered
    requires pass { IsPassOf arena.now pass.old }
    requires ends { SearchEndsAt arena.now place pass.old held }
    ensures over { IsOver arena.now pass.old pass.new }
    ensures leaves { OnlySearches pass.old pass.new }
    ensures done { FinishesAny arena.now (Del place) pass.old pass.new (told result.found) result.number }
    ensures at { FinishesAt arena.now held (Del place) pass.old pass.new (told result.found) result.number }
{
    let mut held = held;
    node_law(&held.body);
    arena.del_law(pass, &held, place);
    let found = held.body.del(place);
    let number = conclude_found(arena, pass, gate, held, Op::Del(place), found);
    Numbered { number, found }
}

/// Decides a put or an add as full where the search for its place has ended, at a full node without the place, after no
/// node was found free. The map stays as it is.
pub fn refuse_here<N: Node, D: Discipline, G: Gate>(
    arena: &Arena<N, D>,
    pass: &mut Pass<N, D>,
    gate: &G,
    place: u64,
    value: u128,
    held: Held<N>,
    op: Op,
) -> Full
    requires pass { IsPassOf arena.now pass.old }
    requires crowded { IsCrowdedAt arena.now place pass.old held }
    requires refused { WasRefusedAt arena.now pass.old place }
    requires fills { Fills place value op }
    ensures over { IsOver arena.now pass.old pass.new }
    ensures leaves { OnlySearches pass.old pass.new }
    ensures done { FinishesCrowded arena.now op place pass.old pass.new result.number }
{
    node_law(&held.body);
    arena.full_law(pass, &held, place, value);
    refuse(arena, pass, gate, held, op)
}

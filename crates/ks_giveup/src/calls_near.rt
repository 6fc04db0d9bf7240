//! The calls of a dictionary by giving up that begin at a hint, and say where they were decided.
ghost use Rattle.std.specs.Prelude.{◌≡◌, ◌≢◌, IfOk, IfSome, None};
ghost use Rattle.ks_history.specs.declared.Op.TheVariants.{Del, Get, Swap};
ghost use Rattle.ks_history.specs.Map.{told};
ghost use Rattle.ks_history.specs.Done.{give_up};
ghost use Rattle.ks_arena.specs.Of.{IsEmptyPassOf, WasAlone, SameCaller};
ghost use Rattle.ks_arena.specs.Sound.{sort_of};
ghost use Rattle.ks_shape.specs.Answers.{number_at, reply_at};
ghost use Rattle.ks_shape.specs.Does.{OnlyDels, OnlyFills, OnlySearches};
ghost use Rattle.ks_shape.specs.Fills.{filling};
ghost use Rattle.ks_shape.specs.Hinted.{BeginsAtHint, HasPassed, IsWhere};
ghost use Rattle.ks_shape.specs.Located.{DoneWhereOf, FillDoneWhereOf};
ghost use Rattle.ks_shape.specs.Of.{DoneOf};
ghost use Rattle.ks_tidy.specs.Of.{IsTidyOf};

use crate::near::{Reached, find_near};
use crate::technique::GiveUp;
use ks_arena::{Arena, Pass};
use ks_flow::Tree;
use ks_gate::Gate;
use ks_node::{Ranged, Unlinked};
use ks_put::pair_fill_at;
use ks_shape::{
    Fill, Full, Hinting, NumberedAt, fill_located, get_located, give_last, has_room, swap_located,
};
use ks_tidy::del_alone;
use std::sync::Wait;

/// Returns the value at a place, the number of the call, and where it was decided. It begins at the hinted node as
/// `find_near` does, and holds one node at a time.
#[inline(always)]
pub(crate) fn get_near<N: Ranged + Unlinked, R: Wait, G: Gate>(
    rt: &R,
    arena: &Arena<N, Tree>,
    pass: &mut Pass<N, Tree>,
    gate: &G,
    hint: Option<u32>,
    place: u64,
) -> NumberedAt
    requires pass { IsEmptyPassOf arena.now pass.old }
    ensures pass { IsEmptyPassOf arena.now pass.new }
    ensures caller { SameCaller pass.old pass.new }
    ensures leaves { OnlySearches pass.old pass.new }
    ensures done { DoneOf arena.now give_up (Get place) pass.old pass.new (told result.found) result.number }
    ensures at { DoneWhereOf arena.now give_up (Get place) pass.old pass.new result }
    ensures within { IsWhere place result }
    ensures above { IfSome result.above (HasPassed (sort_of N.layout N.ranged) place pass.old pass.new) }
    ensures first { BeginsAtHint arena.now.nodes hint pass.old pass.new }
{
    let Reached { held, above } = find_near(rt, arena, pass, gate, hint, place);
    get_located(arena, pass, gate, place, held, above)
}

/// Puts or adds a value at a place; returns the value that was there, the number of the call, and where it was decided.
/// It searches as `get_near` does; if the node where its search ends has no room, it continues by lock coupling, from
/// the root.
#[inline(always)]
pub(crate) fn fill_near<N: Ranged + Unlinked, R: Wait, G: Gate>(
    rt: &R,
    arena: &Arena<N, Tree>,
    pass: &mut Pass<N, Tree>,
    gate: &G,
    hint: Option<u32>,
    place: u64,
    fill: Fill,
) -> Result<NumberedAt, Full>
    requires pass { IsEmptyPassOf arena.now pass.old }
    ensures pass { IsEmptyPassOf arena.now pass.new }
    ensures caller { SameCaller pass.old pass.new }
    ensures fills { OnlyFills N.layout N.ranged place pass.old pass.new }
    ensures done { DoneOf arena.now give_up (filling place fill)
        pass.old pass.new (reply_at result) (number_at result) }
    ensures at { FillDoneWhereOf arena.now give_up (filling place fill) pass.old pass.new result }
    ensures within { IfOk result (IsWhere place) }
    ensures above { IfOk result (λ at.
        IfSome at.above (HasPassed (sort_of N.layout N.ranged) place pass.old pass.new)) }
    ensures first { BeginsAtHint arena.now.nodes hint pass.old pass.new }
{
    let Reached { held, above } = find_near(rt, arena, pass, gate, hint, place);
    if has_room(&held, place) {
        return fill_located(arena, pass, gate, place, fill, Ok(held), above);
    }
    give_last(arena, pass, gate, held);
    pair_fill_at(rt, arena, pass, gate, place, fill, above)
}

/// Puts `new` at a place if the value there is `old`; returns the value that was there, the number of the call, and
/// where it was decided. It searches as `get_near` does.
#[inline(always)]
pub(crate) fn swap_near<N: Ranged + Unlinked, R: Wait, G: Gate>(
    rt: &R,
    arena: &Arena<N, Tree>,
    pass: &mut Pass<N, Tree>,
    gate: &G,
    hint: Option<u32>,
    place: u64,
    old: u128,
    new: u128,
) -> NumberedAt
    requires pass { IsEmptyPassOf arena.now pass.old }
    ensures pass { IsEmptyPassOf arena.now pass.new }
    ensures caller { SameCaller pass.old pass.new }
    ensures leaves { OnlySearches pass.old pass.new }
    ensures done { DoneOf arena.now give_up (Swap place old new)
        pass.old pass.new (told result.found) result.number }
    ensures at { DoneWhereOf arena.now give_up (Swap place old new) pass.old pass.new result }
    ensures within { IsWhere place result }
    ensures above { IfSome result.above (HasPassed (sort_of N.layout N.ranged) place pass.old pass.new) }
    ensures first { BeginsAtHint arena.now.nodes hint pass.old pass.new }
{
    let Reached { held, above } = find_near(rt, arena, pass, gate, hint, place);
    swap_located(arena, pass, gate, place, old, new, held, above)
}

/// Deletes what is at a place; returns the value that was there, the number of the call, and where it was decided. It
/// searches as `get_near` does. If it removed a pair and left the node low, it continues by lock coupling, from the
/// root, to merge on the search path and at its end.
#[inline(always)]
pub(crate) fn del_near<N: Ranged + Unlinked, R: Wait, G: Gate>(
    rt: &R,
    arena: &Arena<N, Tree>,
    pass: &mut Pass<N, Tree>,
    gate: &G,
    hint: Option<u32>,
    place: u64,
) -> NumberedAt
    requires pass { IsEmptyPassOf arena.now pass.old }
    ensures pass { IsEmptyPassOf arena.now pass.new }
    ensures caller { SameCaller pass.old pass.new }
    ensures dels { OnlyDels N.layout N.ranged pass.old pass.new }
    ensures done { DoneOf arena.now give_up (Del place) pass.old pass.new (told result.found) result.number }
    ensures tidy { result.found ≢ None → WasAlone pass.old pass.new → IsTidyOf arena.now pass.new place }
    ensures at { DoneWhereOf arena.now give_up (Del place) pass.old pass.new result }
    ensures within { IsWhere place result }
    ensures above { IfSome result.above (HasPassed (sort_of N.layout N.ranged) place pass.old pass.new) }
    ensures first { BeginsAtHint arena.now.nodes hint pass.old pass.new }
{
    let Reached { held, above } = find_near(rt, arena, pass, gate, hint, place);
    let node = held.node;
    let range = held.body.range();
    let numbered = del_alone(rt, arena, pass, gate, place, held);
    NumberedAt {
        number: numbered.number,
        found: numbered.found,
        node,
        low: range.low,
        last: range.last,
        above,
    }
}

impl<N: Ranged + Unlinked> Hinting<N, Arena<N, Tree>> for GiveUp {
    fn get_from<R: Wait, G: Gate>(
        rt: &R,
        arena: &Arena<N, Tree>,
        pass: &mut Pass<N, Tree>,
        gate: &G,
        hint: Option<u32>,
        place: u64,
    ) -> NumberedAt {
        get_near(rt, arena, pass, gate, hint, place)
    }

    fn fill_from<R: Wait, G: Gate>(
        rt: &R,
        arena: &Arena<N, Tree>,
        pass: &mut Pass<N, Tree>,
        gate: &G,
        hint: Option<u32>,
        place: u64,
        fill: Fill,
    ) -> Result<NumberedAt, Full> {
        fill_near(rt, arena, pass, gate, hint, place, fill)
    }

    fn swap_from<R: Wait, G: Gate>(
        rt: &R,
        arena: &Arena<N, Tree>,
        pass: &mut Pass<N, Tree>,
        gate: &G,
        hint: Option<u32>,
        place: u64,
        old: u128,
        new: u128,
    ) -> NumberedAt {
        swap_near(rt, arena, pass, gate, hint, place, old, new)
    }

    fn del_from<R: Wait, G: Gate>(
        rt: &R,
        arena: &Arena<N, Tree>,
        pass: &mut Pass<N, Tree>,
        gate: &G,
        hint: Option<u32>,
        place: u64,
    ) -> NumberedAt {
        del_near(rt, arena, pass, gate, hint, place)
    }
}

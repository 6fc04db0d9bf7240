//! The calls of a dictionary along links that begin at a hint, and say where they were decided.
ghost use Rattle.std.specs.Prelude.{◌≡◌, All, IfOk, IfSome, IsTrue, []};
ghost use Rattle.ks_history.specs.declared.Op.TheVariants.{Del, Get, Swap};
ghost use Rattle.ks_history.specs.Map.{told};
ghost use Rattle.ks_history.specs.Done.{link_move};
ghost use Rattle.ks_node.specs.declared.start.Next.TheVariants.{Here};
ghost use Rattle.ks_node.specs.Body.{next_at};
ghost use Rattle.ks_arena.specs.Of.{IsEmptyPassOf, IsPassOf, SameCaller, SeesOn, WasAlone, caller_of};
ghost use Rattle.ks_arena.specs.Sound.{sort_of};
ghost use Rattle.ks_shape.specs.Answers.{number_at, reply_at};
ghost use Rattle.ks_shape.specs.Does.{OnlyFills, OnlySearches};
ghost use Rattle.ks_shape.specs.Fills.{filling};
ghost use Rattle.ks_shape.specs.Hinted.{BeginsAtHint, HasPassed, IsWhere};
ghost use Rattle.ks_shape.specs.Located.{DoneWhereOf, FillDoneWhereOf, plain_of};
ghost use Rattle.ks_shape.specs.Of.{DoneOf};
ghost use Rattle.ks_link.specs.Near.{FinishesNear};
ghost use Rattle.ks_link.specs.Of.{Finishes, IfAloneWithRoom, SearchIsAt, WasSplitOff, LeadsAllBut, LeadsAll};

use crate::attaches::attach_all;
use crate::near::{Reached, find_near};
use crate::parts::Waiting;
use crate::room::room_at;
use crate::template::LinkMove;
use arrayvec::ArrayVec;
use ks_arena::laws::sound_law;
use ks_arena::{Arena, Held, Pass};
use ks_flow::Link;
use ks_gate::Gate;
use ks_node::Linked;
use ks_shape::{
    Above, Fill, Full, Hinting, NumberedAt, del_located, fill_located, get_located, swap_located,
};
use std::sync::Wait;

/// Returns the value at a place, the number of the call, and where it was decided. It begins at the hinted node as
/// `find_near` does, and holds one node at a time.
#[inline(always)]
pub(crate) fn get_near<N: Linked, R: Wait, G: Gate>(
    rt: &R,
    arena: &Arena<N, Link>,
    pass: &mut Pass<N, Link>,
    gate: &G,
    hint: Option<u32>,
    place: u64,
) -> NumberedAt
    requires pass { IsEmptyPassOf arena.now pass.old }
    ensures pass { IsEmptyPassOf arena.now pass.new }
    ensures caller { SameCaller pass.old pass.new }
    ensures leaves { OnlySearches pass.old pass.new }
    ensures done { DoneOf arena.now link_move (Get place) pass.old pass.new (told result.found) result.number }
    ensures at { DoneWhereOf arena.now link_move (Get place) pass.old pass.new result }
    ensures within { IsWhere place result }
    ensures above { IfSome result.above (HasPassed (sort_of N.layout N.ranged) place pass.old pass.new) }
    ensures first { BeginsAtHint arena.now.nodes hint pass.old pass.new }
{
    let Reached { held, above } = find_near(rt, arena, pass, gate, hint, place);
    get_located(arena, pass, gate, place, held, above)
}

/// Deletes what is at a place; returns the value that was there, the number of the call, and where it was decided. It
/// searches as `get_near` does, and no nodes are merged under links.
#[inline(always)]
pub(crate) fn del_near<N: Linked, R: Wait, G: Gate>(
    rt: &R,
    arena: &Arena<N, Link>,
    pass: &mut Pass<N, Link>,
    gate: &G,
    hint: Option<u32>,
    place: u64,
) -> NumberedAt
    requires pass { IsEmptyPassOf arena.now pass.old }
    ensures pass { IsEmptyPassOf arena.now pass.new }
    ensures caller { SameCaller pass.old pass.new }
    ensures leaves { OnlySearches pass.old pass.new }
    ensures done { DoneOf arena.now link_move (Del place) pass.old pass.new (told result.found) result.number }
    ensures at { DoneWhereOf arena.now link_move (Del place) pass.old pass.new result }
    ensures within { IsWhere place result }
    ensures above { IfSome result.above (HasPassed (sort_of N.layout N.ranged) place pass.old pass.new) }
    ensures first { BeginsAtHint arena.now.nodes hint pass.old pass.new }
{
    let Reached { held, above } = find_near(rt, arena, pass, gate, hint, place);
    del_located(arena, pass, gate, place, held, above)
}

/// Sets the value at a place to `new` if it is `old`; returns the value that was there, the number of the call, and
/// where it was decided. It searches as `get_near` does.
#[inline(always)]
pub(crate) fn swap_near<N: Linked, R: Wait, G: Gate>(
    rt: &R,
    arena: &Arena<N, Link>,
    pass: &mut Pass<N, Link>,
    gate: &G,
    hint: Option<u32>,
    place: u64,
    old: u128,
    new: u128,
) -> NumberedAt
    requires pass { IsEmptyPassOf arena.now pass.old }
    ensures pass { IsEmptyPassOf arena.now pass.new }
    ensures caller { SameCaller pass.old pass.new }
    ensures leaves { OnlySearches pass.old pass.new }
    ensures done { DoneOf arena.now link_move (Swap place old new)
        pass.old pass.new (told result.found) result.number }
    ensures at { DoneWhereOf arena.now link_move (Swap place old new) pass.old pass.new result }
    ensures within { IsWhere place result }
    ensures above { IfSome result.above (HasPassed (sort_of N.layout N.ranged) place pass.old pass.new) }
    ensures first { BeginsAtHint arena.now.nodes hint pass.old pass.new }
{
    let Reached { held, above } = find_near(rt, arena, pass, gate, hint, place);
    swap_located(arena, pass, gate, place, old, new, held, above)
}

/// Puts or adds a value at the place where its search has ended, as `fill_from`. Returns also the node, its range, and
/// `above`, the last branch that the search passed.
#[inline(always)]
fn fill_here<N: Linked, G: Gate>(
    arena: &Arena<N, Link>,
    pass: &mut Pass<N, Link>,
    gate: &G,
    place: u64,
    fill: Fill,
    reached: Reached<N>,
    waiting: &mut ArrayVec<Waiting, 7>,
) -> Result<NumberedAt, Full>
    requires pass { IsPassOf arena.now pass.old }
    requires way { SearchIsAt arena.now (caller_of pass.old) place pass.old reached.held }
    requires ends { next_at (N.body reached.held.body) place ≡ Here }
    requires waiting { waiting.old.items ≡ [] }
    ensures pass { IsEmptyPassOf arena.now pass.new }
    ensures caller { SameCaller pass.old pass.new }
    ensures fills { OnlyFills N.layout N.ranged place pass.old pass.new }
    ensures begins { SeesOn pass.old pass.new }
    ensures done { Finishes arena.now (filling place fill) pass.old pass.new (plain_of result) }
    ensures at { FinishesNear arena.now (filling place fill) pass.old pass.new result }
    ensures within { IfOk result (IsWhere place) }
    ensures above { IfOk result (λ answer. answer.above ≡ reached.above) }
    ensures waiting { All (λ w. WasSplitOff arena.now pass.new w) waiting.new.items }
    ensures led { IsTrue N.halves_have_room → WasAlone pass.old pass.new →
        LeadsAllBut arena.now waiting.new.items pass.old pass.new }
{
    sound_law::<Link>();
    let Reached { held, above } = reached;
    let found = room_at(arena, pass, gate, place, held, waiting);
    fill_located(arena, pass, gate, place, fill, found, above)
}

/// Puts or adds a value at a place; returns the value that was there, the number of the call, and where it was decided.
/// It searches as `get_near` does. What was split off in the search is attached after the call has been decided, if it
/// can be.
#[inline(always)]
pub(crate) fn fill_near<N: Linked, R: Wait, G: Gate>(
    rt: &R,
    arena: &Arena<N, Link>,
    pass: &mut Pass<N, Link>,
    gate: &G,
    hint: Option<u32>,
    place: u64,
    fill: Fill,
) -> Result<NumberedAt, Full>
    requires pass { IsEmptyPassOf arena.now pass.old }
    ensures pass { IsEmptyPassOf arena.now pass.new }
    ensures caller { SameCaller pass.old pass.new }
    ensures fills { OnlyFills N.layout N.ranged place pass.old pass.new }
    ensures done { DoneOf arena.now link_move (filling place fill)
        pass.old pass.new (reply_at result) (number_at result) }
    ensures at { FillDoneWhereOf arena.now link_move (filling place fill) pass.old pass.new result }
    ensures within { IfOk result (IsWhere place) }
    ensures above { IfOk result (λ at.
        IfSome at.above (HasPassed (sort_of N.layout N.ranged) place pass.old pass.new)) }
    ensures first { BeginsAtHint arena.now.nodes hint pass.old pass.new }
    ensures led { IsTrue N.branches_adopt → IsTrue N.halves_have_room →
        IfAloneWithRoom arena.now pass.old pass.new (LeadsAll arena.now pass.old pass.new) }
{
    sound_law::<Link>();
    let mut waiting = ArrayVec::new();
    let reached = find_near(rt, arena, pass, gate, hint, place);
    let answer = fill_here(arena, pass, gate, place, fill, reached, &mut waiting);
    attach_all(rt, arena, pass, gate, waiting.as_slice());
    answer
}

impl<N: Linked> Hinting<N, Arena<N, Link>> for LinkMove {
    fn get_from<R: Wait, G: Gate>(
        rt: &R,
        arena: &Arena<N, Link>,
        pass: &mut Pass<N, Link>,
        gate: &G,
        hint: Option<u32>,
        place: u64,
    ) -> NumberedAt {
        get_near(rt, arena, pass, gate, hint, place)
    }

    fn fill_from<R: Wait, G: Gate>(
        rt: &R,
        arena: &Arena<N, Link>,
        pass: &mut Pass<N, Link>,
        gate: &G,
        hint: Option<u32>,
        place: u64,
        fill: Fill,
    ) -> Result<NumberedAt, Full> {
        fill_near(rt, arena, pass, gate, hint, place, fill)
    }

    fn swap_from<R: Wait, G: Gate>(
        rt: &R,
        arena: &Arena<N, Link>,
        pass: &mut Pass<N, Link>,
        gate: &G,
        hint: Option<u32>,
        place: u64,
        old: u128,
        new: u128,
    ) -> NumberedAt {
        swap_near(rt, arena, pass, gate, hint, place, old, new)
    }

    fn del_from<R: Wait, G: Gate>(
        rt: &R,
        arena: &Arena<N, Link>,
        pass: &mut Pass<N, Link>,
        gate: &G,
        hint: Option<u32>,
        place: u64,
    ) -> NumberedAt {
        del_near(rt, arena, pass, gate, hint, place)
    }
}

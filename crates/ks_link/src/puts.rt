//! Puts and adds along links.
ghost use Rattle.std.specs.Prelude.{◌≡◌, All, IsTrue, []};
ghost use Rattle.ks_history.specs.declared.Op.TheVariants.{Add, Put};
ghost use Rattle.ks_history.specs.Done.{link_move};
ghost use Rattle.ks_node.specs.declared.start.Next.TheVariants.{Here};
ghost use Rattle.ks_node.specs.Body.{next_at};
ghost use Rattle.ks_arena.specs.Of.{WasAlone, IsPassOf, IsEmptyPassOf, SameCaller, SeesOn, caller_of};
ghost use Rattle.ks_shape.specs.Answers.{number_in, reply_in};
ghost use Rattle.ks_shape.specs.Fills.{filling};
ghost use Rattle.ks_shape.specs.Of.{DoneOf};
ghost use Rattle.ks_link.specs.Of.{Finishes, IfAloneWithRoom, SearchIsAt, WasSplitOff, LeadsAllBut, LeadsAll};
ghost use Rattle.ks_shape.specs.Does.{OnlyFills};

use crate::attaches::attach_all;
use crate::descent::find;
use crate::parts::Waiting;
use crate::room::room_at;
use arrayvec::ArrayVec;
use ks_arena::laws::sound_law;
use ks_arena::{Arena, Held, Pass};
use ks_flow::Link;
use ks_gate::Gate;
use ks_node::Linked;
use ks_shape::{Fill, Full, Numbered, fill_at};
use std::sync::Wait;

/// Puts or adds a value at the place where its search has ended, at the held node, which is split before as long as it
/// has no room. What was split off waits.
pub(crate) fn fill_from<N: Linked, G: Gate>(
    arena: &Arena<N, Link>,
    pass: &mut Pass<N, Link>,
    gate: &G,
    place: u64,
    fill: Fill,
    held: Held<N>,
    waiting: &mut ArrayVec<Waiting, 7>,
) -> Result<Numbered, Full>
    requires pass { IsPassOf arena.now pass.old }
    requires way { SearchIsAt arena.now (caller_of pass.old) place pass.old held }
    requires ends { next_at (N.body held.body) place ≡ Here }
    requires waiting { waiting.old.items ≡ [] }
    ensures pass { IsEmptyPassOf arena.now pass.new }
    ensures caller { SameCaller pass.old pass.new }
    ensures fills { OnlyFills N.layout N.ranged place pass.old pass.new }
    ensures begins { SeesOn pass.old pass.new }
    ensures done { Finishes arena.now (filling place fill) pass.old pass.new result }
    ensures waiting { All (λ w. WasSplitOff arena.now pass.new w) waiting.new.items }
    ensures led { IsTrue N.halves_have_room → WasAlone pass.old pass.new →
        LeadsAllBut arena.now waiting.new.items pass.old pass.new }
{
    sound_law::<Link>();
    let found = room_at(arena, pass, gate, place, held, waiting);
    fill_at(arena, pass, gate, place, fill, found)
}

/// Puts or adds a value at a place. What was split off in the search is attached after the call has been decided, if it
/// can be.
fn fill<N: Linked, R: Wait, G: Gate>(
    rt: &R,
    arena: &Arena<N, Link>,
    pass: &mut Pass<N, Link>,
    gate: &G,
    place: u64,
    fill: Fill,
) -> Result<Numbered, Full>
    requires pass { IsEmptyPassOf arena.now pass.old }
    ensures pass { IsEmptyPassOf arena.now pass.new }
    ensures caller { SameCaller pass.old pass.new }
    ensures fills { OnlyFills N.layout N.ranged place pass.old pass.new }
    ensures done { DoneOf arena.now link_move (filling place fill)
        pass.old pass.new (reply_in result) (number_in result) }
    ensures led { IsTrue N.branches_adopt → IsTrue N.halves_have_room →
        IfAloneWithRoom arena.now pass.old pass.new (LeadsAll arena.now pass.old pass.new) }
{
    sound_law::<Link>();
    let mut waiting = ArrayVec::new();
    let held = find(rt, arena, pass, gate, place);
    let answer = fill_from(arena, pass, gate, place, fill, held, &mut waiting);
    attach_all(rt, arena, pass, gate, waiting.as_slice());
    answer
}

/// Sets the value at a place; returns the value that was there, and the number of the call. If the place has none, a
/// full node is split before, if a node is free. Then what was split off in the search is attached to the level above
/// it, if it can be. It can if no other caller acts meanwhile and two nodes are free in the end, over nodes whose
/// branches adopt any edge while they are not full, and whose halves have room.
///
/// # Errors
///
/// `Full` comes only if the place has no value, its node is full, and each node was not free at some moment since the
/// caller's previous call. Then the map is as before, and the call has its number; what was split off before stays so,
/// and is attached, if it can be.
pub fn put<N: Linked, R: Wait, G: Gate>(
    rt: &R,
    arena: &Arena<N, Link>,
    pass: &mut Pass<N, Link>,
    gate: &G,
    place: u64,
    value: u128,
) -> Result<Numbered, Full>
    requires pass { IsEmptyPassOf arena.now pass.old }
    ensures pass { IsEmptyPassOf arena.now pass.new }
    ensures caller { SameCaller pass.old pass.new }
    ensures fills { OnlyFills N.layout N.ranged place pass.old pass.new }
    ensures done { DoneOf arena.now link_move (Put place value) pass.old pass.new (reply_in result) (number_in result) }
    ensures led { IsTrue N.branches_adopt → IsTrue N.halves_have_room →
        IfAloneWithRoom arena.now pass.old pass.new (LeadsAll arena.now pass.old pass.new) }
{
    fill(rt, arena, pass, gate, place, Fill::Put(value))
}

/// Sets the value at a place that has none; returns the value that was there, which then stays, and the number of the
/// call. It makes room as `put` does.
///
/// # Errors
///
/// `Full` comes, and leaves the map, as for `put`.
pub fn add<N: Linked, R: Wait, G: Gate>(
    rt: &R,
    arena: &Arena<N, Link>,
    pass: &mut Pass<N, Link>,
    gate: &G,
    place: u64,
    value: u128,
) -> Result<Numbered, Full>
    requires pass { IsEmptyPassOf arena.now pass.old }
    ensures pass { IsEmptyPassOf arena.now pass.new }
    ensures caller { SameCaller pass.old pass.new }
    ensures fills { OnlyFills N.layout N.ranged place pass.old pass.new }
    ensures done { DoneOf arena.now link_move (Add place value) pass.old pass.new (reply_in result) (number_in result) }
    ensures led { IsTrue N.branches_adopt → IsTrue N.halves_have_room →
        IfAloneWithRoom arena.now pass.old pass.new (LeadsAll arena.now pass.old pass.new) }
{
    fill(rt, arena, pass, gate, place, Fill::Add(value))
}

//! How a node that was split off gets an edge one level above it, after the call that split it off has been decided.
ghost use Rattle.std.specs.Prelude.{◌≡◌, ℕ, ◌+◌, ◌<◌, ◌≤◌, ◌↔◌, All, IsTrue, false};
ghost use Rattle.std.specs.Option.{ForSome};
ghost use Rattle.ks_node.specs.Room.{is_full};
ghost use Rattle.ks_node.specs.Body.{is_branch, last_of};
ghost use Rattle.ks_link.specs.Leads.{CanLead, TakesEdge, waits_if};
ghost use Rattle.ks_history.specs.Done.{link_move};
ghost use Rattle.ks_arena.specs.Of.{WasAlone, IsPassOf, IsEmptyPassOf, SameCaller, caller_of};
ghost use Rattle.ks_shape.specs.Of.{IsStretchBy, MakesNoneLive, IsLedTo};
ghost use Rattle.ks_link.specs.Of.{HoldsAloneOf, HoldsHalfOf, IfAloneWithRoom, SearchIsAt, LeadsAllBut, LeadsEach, LeadsOne, WasSplitOff};
ghost use Rattle.ks_shape.specs.Does.{OnlyFills, OnlySearches};

use crate::descent::take_next;
use crate::parts::{Parted, Waiting, part};
use ks_arena::laws::sound_law;
use ks_arena::{Arena, Held, Pass};
use ks_bodies::link_leads_law;
use ks_flow::Link;
use ks_gate::{Gate, Point};
use ks_node::{Linked, Next, linked_law, node_law};
use ks_shape::{attach, take_root};
use std::sync::Wait;

/// Whether an edge from the cut on can be added to a branch.
fn can_lead<N: Linked>(node: &N, cut: u64) -> bool
    ensures { IsTrue result ↔ CanLead N.can_adopt_at (N.body node.now) cut }
{
    node_law(node);
    let range = node.range();
    node.is_branch() && range.low < cut && cut <= range.last && node.can_adopt(cut)
}

/// Whether a node is a full branch to which no edge from the cut on can be added.
fn must_part<N: Linked>(node: &N, cut: u64) -> bool
    ensures full { IsTrue result → IsTrue (is_branch (N.body node.now)) × IsTrue (is_full N.layout (N.body node.now)) }
    ensures room { result ≡ false → IsTrue (is_branch (N.body node.now)) →
        TakesEdge N.layout N.can_adopt_at (N.body node.now) cut }
{
    !can_lead(node, cut) && node.is_branch() && node.is_full()
}

/// Goes on from a node above the level to one above it that is nearer to the cut: a child, or the node right of it.
fn go_nearer<N: Linked, R: Wait, G: Gate>(
    rt: &R,
    arena: &Arena<N, Link>,
    pass: &mut Pass<N, Link>,
    gate: &G,
    level: u32,
    cut: u64,
    held: Held<N>,
) -> Held<N>
    requires pass { IsPassOf arena.now pass.old }
    requires way { SearchIsAt arena.now (caller_of pass.old) cut pass.old held }
    requires above { level < (N.body held.body).level }
    requires away { (N.body held.body).level ≡ level + 1 → last_of (N.body held.body).range < cut }
    ensures pass { IsPassOf arena.now pass.new }
    ensures caller { SameCaller pass.old pass.new }
    ensures leaves { OnlySearches pass.old pass.new }
    ensures way { SearchIsAt arena.now (caller_of pass.old) cut pass.new result }
    ensures above { level < (N.body result.body).level }
    ensures stretch { IsStretchBy link_move pass.old pass.new }
    ensures makes { MakesNoneLive pass.old pass.new }
{
    sound_law::<Link>();
    node_law(&held.body);
    let Next::Go(next) = held.body.next(cut) else {
        unreachable!()
    };
    take_next(rt, arena, pass, gate, cut, held, next)
}

/// Takes the node one level above what was split off whose range holds the cut, and holds no other.
fn find_above<N: Linked, R: Wait, G: Gate>(
    rt: &R,
    arena: &Arena<N, Link>,
    pass: &mut Pass<N, Link>,
    gate: &G,
    to: Waiting,
) -> Held<N>
    requires pass { IsEmptyPassOf arena.now pass.old }
    requires off { WasSplitOff arena.now pass.old to }
    ensures pass { IsPassOf arena.now pass.new }
    ensures caller { SameCaller pass.old pass.new }
    ensures leaves { OnlySearches pass.old pass.new }
    ensures way { SearchIsAt arena.now (caller_of pass.old) to.cut pass.new result }
    ensures level { (N.body result.body).level ≡ to.level + 1 }
    ensures within { to.cut ≤ last_of (N.body result.body).range }
    ensures stretch { IsStretchBy link_move pass.old pass.new }
    ensures makes { MakesNoneLive pass.old pass.new }
{
    sound_law::<Link>();
    let mut held = take_root(rt, arena, pass, gate, to.cut);
    for _ in rt.forever() {
        if held.body.level() == to.level + 1 && to.cut <= held.body.range().last {
            return held;
        }
        held = go_nearer(rt, arena, pass, gate, to.level, to.cut, held);
    }
    unreachable!()
}

/// Splits the node, if it is a full branch to which the edge cannot be added, and a node is free; and keeps the half in
/// which the cut lies.
pub(crate) fn ready<N: Linked, G: Gate>(
    arena: &Arena<N, Link>,
    pass: &mut Pass<N, Link>,
    gate: &G,
    cut: u64,
    held: Held<N>,
) -> Parted<N>
    requires pass { IsPassOf arena.now pass.old }
    requires way { SearchIsAt arena.now (caller_of pass.old) cut pass.old held }
    requires above { 0 < (N.body held.body).level }
    requires within { cut ≤ last_of (N.body held.body).range }
    ensures pass { IsPassOf arena.now pass.new }
    ensures caller { SameCaller pass.old pass.new }
    ensures fills { (place : ℕ) → OnlyFills N.layout N.ranged place pass.old pass.new }
    ensures parted { HoldsHalfOf arena.now cut pass.old pass.new held (Ok result) }
    ensures stretch { IsStretchBy link_move pass.old pass.new }
    ensures led { WasAlone pass.old pass.new → LeadsAllBut arena.now (waits_if result.new) pass.old pass.new }
    ensures ready { IsTrue N.branches_adopt → IsTrue N.halves_have_room →
        IfAloneWithRoom arena.now pass.old pass.new (TakesEdge N.layout N.can_adopt_at (N.body result.half.body) cut) }
{
    sound_law::<Link>();
    linked_law::<N>();
    node_law(&held.body);
    if !must_part(&held.body, cut) {
        return Parted {
            half: held,
            new: None,
        };
    }
    match part(arena, pass, gate, cut, held) {
        Ok(parted) => parted,
        Err(held) => Parted {
            half: held,
            new: None,
        },
    }
}

/// Adds an edge to what was split off to the held node, if it can be added. If it can, or the node is not full and
/// branches of its type adopt, what was split off is then led to.
pub(crate) fn lead<N: Linked>(
    arena: &Arena<N, Link>,
    pass: &mut Pass<N, Link>,
    to: Waiting,
    held: &mut Held<N>,
)
    requires pass { IsPassOf arena.now pass.old }
    requires held { HoldsAloneOf arena.now (caller_of pass.old) pass.old held.old }
    requires off { WasSplitOff arena.now pass.old to }
    requires level { (N.body held.old.body).level ≡ to.level + 1 }
    requires low { (N.body held.old.body).low ≤ to.cut }
    requires within { to.cut ≤ last_of (N.body held.old.body).range }
    ensures pass { IsPassOf arena.now pass.new }
    ensures caller { SameCaller pass.old pass.new }
    ensures fills { (place : ℕ) → OnlyFills N.layout N.ranged place pass.old pass.new }
    ensures held { HoldsAloneOf arena.now (caller_of pass.old) pass.new held.new }
    ensures led { IsTrue N.branches_adopt → TakesEdge N.layout N.can_adopt_at (N.body held.old.body) to.cut →
        IsLedTo arena.now pass.new to.node }
    ensures stretch { IsStretchBy link_move pass.old pass.new }
    ensures makes { MakesNoneLive pass.old pass.new }
{
    sound_law::<Link>();
    link_leads_law();
    linked_law::<N>();
    node_law(&held.body);
    if can_lead(&held.body, to.cut) {
        attach(arena, pass, held, to.cut, to.node);
    }
}

/// Attaches what was split off to the level above it, if it can be. Returns what was split off there to make room.
fn attach_one<N: Linked, R: Wait, G: Gate>(
    rt: &R,
    arena: &Arena<N, Link>,
    pass: &mut Pass<N, Link>,
    gate: &G,
    to: Waiting,
) -> Option<Waiting>
    requires pass { IsEmptyPassOf arena.now pass.old }
    requires off { WasSplitOff arena.now pass.old to }
    ensures pass { IsEmptyPassOf arena.now pass.new }
    ensures caller { SameCaller pass.old pass.new }
    ensures fills { (place : ℕ) → OnlyFills N.layout N.ranged place pass.old pass.new }
    ensures off { ForSome result (λ w. WasSplitOff arena.now pass.new w) }
    ensures stretch { IsStretchBy link_move pass.old pass.new }
    ensures led { WasAlone pass.old pass.new → LeadsAllBut arena.now (waits_if result) pass.old pass.new }
    ensures leads { IsTrue N.branches_adopt → IsTrue N.halves_have_room →
        IfAloneWithRoom arena.now pass.old pass.new (IsLedTo arena.now pass.new to.node) }
{
    sound_law::<Link>();
    let held = find_above(rt, arena, pass, gate, to);
    let Parted { mut half, new } = ready(arena, pass, gate, to.cut, held);
    lead(arena, pass, to, &mut half);
    let node = half.node;
    arena.give(pass, half);
    gate.at(pass.caller(), Point::Given(node));
    new
}

/// Attaches what was split off, and what is split off by that, and so on.
#[inline(never)]
fn attach_on<N: Linked, R: Wait, G: Gate>(
    rt: &R,
    arena: &Arena<N, Link>,
    pass: &mut Pass<N, Link>,
    gate: &G,
    mut to: Waiting,
)
    requires pass { IsEmptyPassOf arena.now pass.old }
    requires off { WasSplitOff arena.now pass.old to }
    ensures pass { IsEmptyPassOf arena.now pass.new }
    ensures caller { SameCaller pass.old pass.new }
    ensures fills { (place : ℕ) → OnlyFills N.layout N.ranged place pass.old pass.new }
    ensures stretch { IsStretchBy link_move pass.old pass.new }
    ensures leads { IsTrue N.branches_adopt → IsTrue N.halves_have_room →
        IfAloneWithRoom arena.now pass.old pass.new (LeadsOne arena.now to.node pass.old pass.new) }
{
    sound_law::<Link>();
    for _ in rt.forever() {
        match attach_one(rt, arena, pass, gate, to) {
            Some(next) => to = next,
            None => return,
        }
    }
    unreachable!()
}

/// Attaches all that waits, the oldest first.
#[inline(always)]
pub(crate) fn attach_all<N: Linked, R: Wait, G: Gate>(
    rt: &R,
    arena: &Arena<N, Link>,
    pass: &mut Pass<N, Link>,
    gate: &G,
    waiting: &[Waiting],
)
    requires pass { IsEmptyPassOf arena.now pass.old }
    requires off { All (λ w. WasSplitOff arena.now pass.old w) waiting.now }
    ensures pass { IsEmptyPassOf arena.now pass.new }
    ensures caller { SameCaller pass.old pass.new }
    ensures fills { (place : ℕ) → OnlyFills N.layout N.ranged place pass.old pass.new }
    ensures stretch { IsStretchBy link_move pass.old pass.new }
    ensures leads { IsTrue N.branches_adopt → IsTrue N.halves_have_room →
        IfAloneWithRoom arena.now pass.old pass.new (LeadsEach arena.now waiting.now pass.old pass.new) }
{
    sound_law::<Link>();
    for to in waiting {
        attach_on(rt, arena, pass, gate, *to);
    }
}

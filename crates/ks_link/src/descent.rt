//! The search from the root, down and to the right, to the node where it ends.
ghost use Rattle.std.specs.Prelude.{◌≡◌, ◌≤◌, ℕ};
ghost use Rattle.ks_history.specs.Done.{link_move};
ghost use Rattle.ks_node.specs.declared.start.Next.TheVariants.{Go, Here};
ghost use Rattle.ks_node.specs.Body.{last_of, next_at};
ghost use Rattle.ks_arena.specs.Of.{IsPassOf, IsEmptyPassOf, SameCaller, caller_of};
ghost use Rattle.ks_arena.specs.Visits.{held_at, LiesInSlot};
ghost use Rattle.ks_shape.specs.Of.{IsUnderway, StaysUnderway, MakesNoneLive, SearchEndsAt};
ghost use Rattle.ks_link.specs.Of.{SearchIsAt};
ghost use Rattle.ks_shape.specs.Does.{OnlySearches};

use ks_arena::laws::{bodies_law, link_live_law, sound_law};
use ks_arena::{Arena, Held, Pass, Visited};
use ks_flow::Link;
use ks_gate::{Gate, Point};
use ks_node::{Linked, Next, node_law};
use ks_shape::{give_last, leave_last, visit_root};
use std::sync::Wait;

/// Takes the root, and leaves its body in its slot.
#[inline(always)]
fn enter<N: Linked, R: Wait, G: Gate>(
    rt: &R,
    arena: &Arena<N, Link>,
    pass: &mut Pass<N, Link>,
    gate: &G,
    place: u64,
) -> Visited<N>
    requires pass { IsEmptyPassOf arena.now pass.old }
    ensures pass { IsPassOf arena.now pass.new }
    ensures caller { SameCaller pass.old pass.new }
    ensures leaves { OnlySearches pass.old pass.new }
    ensures lies { LiesInSlot pass.new result }
    ensures way { SearchIsAt arena.now (caller_of pass.old) place pass.new (held_at result) }
    ensures root { result.node ≡ 0 }
    ensures under { IsUnderway link_move pass.old pass.new }
    ensures makes { MakesNoneLive pass.old pass.new }
{
    sound_law::<Link>();
    visit_root(rt, arena, pass, gate, place)
}

/// Releases the node, and takes the one to which the search goes on, a child or the node right of it. The bodies of both stay
/// in their slots.
#[inline(always)]
pub(crate) fn go_on<N: Linked, R: Wait, G: Gate>(
    rt: &R,
    arena: &Arena<N, Link>,
    pass: &mut Pass<N, Link>,
    gate: &G,
    place: u64,
    visited: Visited<N>,
    next: u32,
) -> Visited<N>
    requires pass { IsPassOf arena.now pass.old }
    requires lies { LiesInSlot pass.old visited }
    requires way { SearchIsAt arena.now (caller_of pass.old) place pass.old (held_at visited) }
    requires goes { next_at (N.body visited.body.value) place ≡ Go next }
    ensures pass { IsPassOf arena.now pass.new }
    ensures caller { SameCaller pass.old pass.new }
    ensures leaves { OnlySearches pass.old pass.new }
    ensures node { result.node ≡ next }
    ensures lies { LiesInSlot pass.new result }
    ensures way { SearchIsAt arena.now (caller_of pass.old) place pass.new (held_at result) }
    ensures under { StaysUnderway link_move pass.old pass.new }
    ensures makes { MakesNoneLive pass.old pass.new }
{
    sound_law::<Link>();
    link_live_law();
    bodies_law::<N>();
    leave_last(arena, pass, gate, visited);
    let Some(taken) = arena.visit(rt, pass, next) else {
        unreachable!()
    };
    gate.at(pass.caller(), Point::Taken(next));
    taken
}

/// Releases the held node, and takes the one to which the search goes on, with its body: a child, or the node right of it.
/// Only the search for a node that adopts an edge to a node split off does so.
#[inline(always)]
pub(crate) fn take_next<N: Linked, R: Wait, G: Gate>(
    rt: &R,
    arena: &Arena<N, Link>,
    pass: &mut Pass<N, Link>,
    gate: &G,
    place: u64,
    held: Held<N>,
    next: u32,
) -> Held<N>
    requires pass { IsPassOf arena.now pass.old }
    requires way { SearchIsAt arena.now (caller_of pass.old) place pass.old held }
    requires goes { next_at (N.body held.body) place ≡ Go next }
    ensures pass { IsPassOf arena.now pass.new }
    ensures caller { SameCaller pass.old pass.new }
    ensures leaves { OnlySearches pass.old pass.new }
    ensures node { result.node ≡ next }
    ensures way { SearchIsAt arena.now (caller_of pass.old) place pass.new result }
    ensures under { StaysUnderway link_move pass.old pass.new }
    ensures makes { MakesNoneLive pass.old pass.new }
{
    sound_law::<Link>();
    link_live_law();
    node_law(&held.body);
    give_last(arena, pass, gate, held);
    let Some(taken) = arena.take(rt, pass, next) else {
        unreachable!()
    };
    gate.at(pass.caller(), Point::Taken(next));
    taken
}

/// A search ends at a node on level 0 whose range holds the place, which then is in its inset. The function computes nothing.
pub(crate) fn end_law<N: Linked>(
    arena: &Arena<N, Link>,
    pass: &Pass<N, Link>,
    held: &Held<N>,
    place: u64,
)
    requires pass { IsPassOf arena.now pass.now }
    requires way { SearchIsAt arena.now (caller_of pass.now) place pass.now held.now }
    requires here { next_at (N.body held.now.body) place ≡ Here }
    ensures { SearchEndsAt arena.now place pass.now held.now }
{
    sound_law::<Link>();
    node_law(&held.body);
}

/// Where the search for a place has ended, that for each further place of the node's range ends too. The function
/// computes nothing.
pub(crate) fn span_law<N: Linked>(
    arena: &Arena<N, Link>,
    pass: &Pass<N, Link>,
    held: &Held<N>,
    low: u64,
)
    requires pass { IsPassOf arena.now pass.now }
    requires way { SearchIsAt arena.now (caller_of pass.now) low pass.now held.now }
    requires ends { SearchEndsAt arena.now low pass.now held.now }
    ensures { (p : ℕ) → low ≤ p → p ≤ last_of (N.body held.now.body).range →
        SearchEndsAt arena.now p pass.now held.now }
{
    sound_law::<Link>();
    node_law(&held.body);
}

/// Takes the node at which the search for a place ends, and holds no other. It reads the nodes that it passes in their slots,
/// and takes out only the body of the last.
pub(crate) fn find<N: Linked, R: Wait, G: Gate>(
    rt: &R,
    arena: &Arena<N, Link>,
    pass: &mut Pass<N, Link>,
    gate: &G,
    place: u64,
) -> Held<N>
    requires pass { IsEmptyPassOf arena.now pass.old }
    ensures pass { IsPassOf arena.now pass.new }
    ensures caller { SameCaller pass.old pass.new }
    ensures leaves { OnlySearches pass.old pass.new }
    ensures way { SearchIsAt arena.now (caller_of pass.old) place pass.new result }
    ensures ends { SearchEndsAt arena.now place pass.new result }
    ensures under { IsUnderway link_move pass.old pass.new }
    ensures makes { MakesNoneLive pass.old pass.new }
{
    gate.at(pass.caller(), Point::Begin);
    let mut visited = enter(rt, arena, pass, gate, place);
    for _ in rt.forever() {
        match arena.next(pass, &visited, place) {
            Next::Here => {
                let held = arena.lift(pass, visited);
                end_law(arena, pass, &held, place);
                return held;
            }
            Next::Go(next) => visited = go_on(rt, arena, pass, gate, place, visited, next),
        }
    }
    unreachable!()
}

//! The search that begins at a hinted node: if that is free or begins above the place, or the search is to move right a
//! third time, it restarts at the root.
ghost use Rattle.std.specs.Prelude.{◌≡◌, IfSome};
ghost use Rattle.ks_history.specs.Done.{link_move};
ghost use Rattle.ks_node.specs.declared.start.Next.TheVariants.{Go};
ghost use Rattle.ks_node.specs.Body.{next_at};
ghost use Rattle.ks_arena.specs.Sound.{sort_of};
ghost use Rattle.ks_arena.specs.Of.{IsPassOf, IsEmptyPassOf, IsNodeOf, SameCaller, caller_of};
ghost use Rattle.ks_arena.specs.Visits.{held_at, held_if, LiesInSlot};
ghost use Rattle.ks_shape.specs.Does.{OnlySearches};
ghost use Rattle.ks_shape.specs.Hinted.{BeginsAt, BeginsAtHint, HasPassed};
ghost use Rattle.ks_arena.specs.Clauses.{seen_of};
ghost use Rattle.ks_shape.specs.Located.{PassesOn};
ghost use Rattle.ks_shape.specs.Of.{IsUnderway, StaysUnderway, MakesNoneLive, SearchEndsAt};
ghost use Rattle.ks_link.specs.Of.{SearchIsAt};
ghost use Rattle.ks_link.specs.Near.{CameNear, HasWalked};

use crate::descent::{end_law, go_on};
use ks_arena::laws::bodies_law;
use ks_arena::{Arena, Held, Pass, Visited};
use ks_flow::Link;
use ks_gate::{Gate, Point};
use ks_node::{Linked, Next};
use ks_shape::{Above, leave_last, passed, start_of};
use std::sync::Wait;

/// How often a search moves right from a hinted node before it searches from the root.
const RIGHTS: u32 = 2;

/// Where a search has ended, and the last branch that it passed, if it passed one.
pub(crate) struct Reached<N> {
    pub held: Held<N>,
    pub above: Option<Above>,
}

/// Where a search is while it goes on, and the last branch that it passed, if it passed one.
struct Walking<N> {
    visited: Visited<N>,
    above: Option<Above>,
}

/// Takes a node, whose body stays in its slot, and keeps it if it is live and begins at the place or below.
#[inline(always)]
fn begin_at<N: Linked, R: Wait, G: Gate>(
    rt: &R,
    arena: &Arena<N, Link>,
    pass: &mut Pass<N, Link>,
    gate: &G,
    place: u64,
    node: u32,
) -> Option<Visited<N>>
    requires pass { IsEmptyPassOf arena.now pass.old }
    requires node { IsNodeOf arena.now node }
    ensures pass { IsPassOf arena.now pass.new }
    ensures caller { SameCaller pass.old pass.new }
    ensures leaves { OnlySearches pass.old pass.new }
    ensures came { CameNear (sort_of N.layout N.ranged) N.body (caller_of pass.old) place (seen_of pass.new) (held_if result) }
    ensures lies { IfSome result (λ visited. LiesInSlot pass.new visited) }
    ensures first { BeginsAt arena.now.nodes (caller_of pass.old) node (seen_of pass.old) (seen_of pass.new) }
    ensures under { StaysUnderway link_move pass.old pass.new }
    ensures makes { MakesNoneLive pass.old pass.new }
{
    bodies_law::<N>();
    let Some(visited) = arena.visit(rt, pass, node) else {
        return None;
    };
    gate.at(pass.caller(), Point::Taken(node));
    let range = arena.range(pass, &visited);
    if range.low <= place {
        return Some(visited);
    }
    leave_last(arena, pass, gate, visited);
    None
}

/// Releases the visited node, and takes the one to which the search goes on. The bodies of both stay in their slots. The last
/// branch that it passed is the released node, if that is a branch with the place in its range, else as before.
#[inline(always)]
fn go_by<N: Linked, R: Wait, G: Gate>(
    rt: &R,
    arena: &Arena<N, Link>,
    pass: &mut Pass<N, Link>,
    gate: &G,
    place: u64,
    walking: Walking<N>,
    next: u32,
) -> Walking<N>
    requires pass { IsPassOf arena.now pass.old }
    requires lies { LiesInSlot pass.old walking.visited }
    requires way { SearchIsAt arena.now (caller_of pass.old) place pass.old (held_at walking.visited) }
    requires goes { next_at (N.body walking.visited.body.value) place ≡ Go next }
    ensures pass { IsPassOf arena.now pass.new }
    ensures caller { SameCaller pass.old pass.new }
    ensures leaves { OnlySearches pass.old pass.new }
    ensures lies { LiesInSlot pass.new result.visited }
    ensures way { SearchIsAt arena.now (caller_of pass.old) place pass.new (held_at result.visited) }
    ensures above { PassesOn (sort_of N.layout N.ranged) place pass.old pass.new walking.above result.above }
    ensures under { StaysUnderway link_move pass.old pass.new }
    ensures makes { MakesNoneLive pass.old pass.new }
{
    let Walking { visited, above } = walking;
    let branch = passed(arena, pass, &visited, place, above);
    let below = go_on(rt, arena, pass, gate, place, visited, next);
    Walking {
        visited: below,
        above: branch,
    }
}

/// Goes on from the visited node to the one at which the search for the place ends, and moves right `rights` times at
/// most. It takes out only the body of the last node. `None`: it was to move right once more, and released its node.
#[inline(never)]
fn walk<N: Linked, R: Wait, G: Gate>(
    rt: &R,
    arena: &Arena<N, Link>,
    pass: &mut Pass<N, Link>,
    gate: &G,
    place: u64,
    visited: Visited<N>,
    rights: u32,
) -> Option<Reached<N>>
    requires pass { IsPassOf arena.now pass.old }
    requires lies { LiesInSlot pass.old visited }
    requires way { SearchIsAt arena.now (caller_of pass.old) place pass.old (held_at visited) }
    ensures pass { IsPassOf arena.now pass.new }
    ensures caller { SameCaller pass.old pass.new }
    ensures leaves { OnlySearches pass.old pass.new }
    ensures walked { HasWalked (sort_of N.layout N.ranged) N.body (caller_of pass.old) place
        (seen_of pass.old) (seen_of pass.new) result }
    ensures under { StaysUnderway link_move pass.old pass.new }
    ensures makes { MakesNoneLive pass.old pass.new }
{
    let mut walking = Walking {
        visited,
        above: None,
    };
    let mut rights = rights;
    for _ in rt.forever() {
        match arena.next(pass, &walking.visited, place) {
            Next::Here => {
                let Walking { visited, above } = walking;
                let held = arena.lift(pass, visited);
                end_law(arena, pass, &held, place);
                return Some(Reached { held, above });
            }
            Next::Go(next) => {
                let range = arena.range(pass, &walking.visited);
                if place > range.last {
                    if rights == 0 {
                        let Walking { visited, above: _ } = walking;
                        leave_last(arena, pass, gate, visited);
                        return None;
                    }
                    rights -= 1;
                }
                walking = go_by(rt, arena, pass, gate, place, walking, next);
            }
        }
    }
    unreachable!()
}

/// Goes on from the visited node, if there is one, as `walk`.
#[inline(always)]
fn walk_from<N: Linked, R: Wait, G: Gate>(
    rt: &R,
    arena: &Arena<N, Link>,
    pass: &mut Pass<N, Link>,
    gate: &G,
    place: u64,
    begun: Option<Visited<N>>,
    rights: u32,
) -> Option<Reached<N>>
    requires pass { IsPassOf arena.now pass.old }
    requires begun { CameNear (sort_of N.layout N.ranged) N.body (caller_of pass.old) place (seen_of pass.old) (held_if begun) }
    requires lies { IfSome begun (λ visited. LiesInSlot pass.old visited) }
    ensures pass { IsPassOf arena.now pass.new }
    ensures caller { SameCaller pass.old pass.new }
    ensures leaves { OnlySearches pass.old pass.new }
    ensures walked { HasWalked (sort_of N.layout N.ranged) N.body (caller_of pass.old) place
        (seen_of pass.old) (seen_of pass.new) result }
    ensures under { StaysUnderway link_move pass.old pass.new }
    ensures makes { MakesNoneLive pass.old pass.new }
{
    let Some(visited) = begun else {
        return None;
    };
    walk(rt, arena, pass, gate, place, visited, rights)
}

/// Takes the node at which the search for a place ends, and holds no other. It begins at the hinted node, if there is
/// one and it is idle, and no other caller acts meanwhile. It reads the nodes that it passes in their slots, and takes out only
/// the body of the last.
#[inline(always)]
pub(crate) fn find_near<N: Linked, R: Wait, G: Gate>(
    rt: &R,
    arena: &Arena<N, Link>,
    pass: &mut Pass<N, Link>,
    gate: &G,
    hint: Option<u32>,
    place: u64,
) -> Reached<N>
    requires pass { IsEmptyPassOf arena.now pass.old }
    ensures pass { IsPassOf arena.now pass.new }
    ensures caller { SameCaller pass.old pass.new }
    ensures leaves { OnlySearches pass.old pass.new }
    ensures way { SearchIsAt arena.now (caller_of pass.old) place pass.new result.held }
    ensures ends { SearchEndsAt arena.now place pass.new result.held }
    ensures above { IfSome result.above (HasPassed (sort_of N.layout N.ranged) place pass.old pass.new) }
    ensures first { BeginsAtHint arena.now.nodes hint pass.old pass.new }
    ensures under { IsUnderway link_move pass.old pass.new }
    ensures makes { MakesNoneLive pass.old pass.new }
{
    gate.at(pass.caller(), Point::Begin);
    let nodes = arena.nodes();
    let start = start_of(hint, nodes);
    let mut rights = if hint.is_some() { RIGHTS } else { u32::MAX };
    let mut begun = begin_at(rt, arena, pass, gate, place, start);
    for _ in rt.forever() {
        match walk_from(rt, arena, pass, gate, place, begun, rights) {
            Some(reached) => return reached,
            None => {
                rights = u32::MAX;
                begun = begin_at(rt, arena, pass, gate, place, 0);
            }
        }
    }
    unreachable!()
}

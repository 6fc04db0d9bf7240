//! The descent from the root to the node where a search ends; it restarts if a node is free or its range lacks the
//! place.
ghost use Rattle.std.specs.Prelude.{IfSome};
ghost use Rattle.ks_history.specs.declared.Event.TheVariants.{Give};
ghost use Rattle.ks_history.specs.Done.{give_up};
ghost use Rattle.ks_arena.specs.Sound.{sort_of};
ghost use Rattle.ks_arena.specs.Clauses.{seen_of};
ghost use Rattle.ks_giveup.specs.Descent.{Came, CameToRoom};
ghost use Rattle.ks_giveup.specs.Goes.{GoesOnTo, GoesTowards, MayVisitNext};
ghost use Rattle.ks_arena.specs.Of.{Adds, IsPassOf, IsEmptyPassOf, IsNodeOf, SameCaller, caller_of};
ghost use Rattle.ks_arena.specs.Visits.{held_at, held_if, LiesInSlot};
ghost use Rattle.ks_shape.specs.Hinted.{BeginsAt};
ghost use Rattle.ks_shape.specs.Of.{IsUnderway, StaysUnderway, SearchEndsAt};
ghost use Rattle.ks_shape.specs.Does.{OnlySearches};

use ks_arena::laws::{bodies_law, sound_law};
use ks_arena::{Arena, Held, Pass, Visited};
use ks_flow::Tree;
use ks_gate::{Gate, Point};
use ks_node::{Next, Ranged, Unlinked, node_law};
use ks_shape::{give_last, has_room, leave_last, tree_end_law};
use std::sync::Wait;

/// Takes a node, whose body stays in its slot, and keeps it if it is live and its range holds the place.
#[inline(always)]
pub(crate) fn visit<N: Ranged + Unlinked, R: Wait, G: Gate>(
    rt: &R,
    arena: &Arena<N, Tree>,
    pass: &mut Pass<N, Tree>,
    gate: &G,
    place: u64,
    node: u32,
) -> Option<Visited<N>>
    requires pass { IsEmptyPassOf arena.now pass.old }
    requires node { IsNodeOf arena.now node }
    ensures pass { IsPassOf arena.now pass.new }
    ensures caller { SameCaller pass.old pass.new }
    ensures leaves { OnlySearches pass.old pass.new }
    ensures came { Came (sort_of N.layout N.ranged) N.body (caller_of pass.old) place (seen_of pass.new) (held_if result) }
    ensures lies { IfSome result (λ visited. LiesInSlot pass.new visited) }
    ensures goes { MayVisitNext place node pass.old → GoesTowards place pass.old pass.new }
    ensures first { BeginsAt arena.now.nodes (caller_of pass.old) node (seen_of pass.old) (seen_of pass.new) }
    ensures under { StaysUnderway give_up pass.old pass.new }
{
    sound_law::<Tree>();
    let Some(visited) = arena.visit(rt, pass, node) else {
        return None;
    };
    gate.at(pass.caller(), Point::Taken(node));
    let range = arena.range(pass, &visited);
    if range.low <= place && place <= range.last {
        return Some(visited);
    }
    leave_last(arena, pass, gate, visited);
    None
}

/// Releases the visited node, whose edge leads to the one to which the search goes on.
#[inline(always)]
pub(crate) fn leave<N: Ranged + Unlinked, G: Gate>(
    arena: &Arena<N, Tree>,
    pass: &mut Pass<N, Tree>,
    gate: &G,
    place: u64,
    visited: Visited<N>,
    child: u32,
)
    requires pass { IsPassOf arena.now pass.old }
    requires lies { LiesInSlot pass.old visited }
    requires way { GoesOnTo arena.now (caller_of pass.old) place pass.old (held_at visited) child }
    ensures pass { IsEmptyPassOf arena.now pass.new }
    ensures caller { SameCaller pass.old pass.new }
    ensures leaves { OnlySearches pass.old pass.new }
    ensures near { IsNodeOf arena.now child }
    ensures next { MayVisitNext place child pass.new }
    ensures gave { Adds (Give (caller_of pass.old) visited.node) pass.old pass.new }
    ensures goes { GoesTowards place pass.old pass.new }
    ensures under { StaysUnderway give_up pass.old pass.new }
{
    sound_law::<Tree>();
    bodies_law::<N>();
    leave_last(arena, pass, gate, visited);
}

/// Releases the node, whose body has been taken out of its slot, and whose edge leads to the one to which the search goes
/// on.
#[inline(always)]
pub(crate) fn leave_held<N: Ranged + Unlinked, G: Gate>(
    arena: &Arena<N, Tree>,
    pass: &mut Pass<N, Tree>,
    gate: &G,
    place: u64,
    held: Held<N>,
    child: u32,
)
    requires pass { IsPassOf arena.now pass.old }
    requires way { GoesOnTo arena.now (caller_of pass.old) place pass.old held child }
    ensures pass { IsEmptyPassOf arena.now pass.new }
    ensures caller { SameCaller pass.old pass.new }
    ensures leaves { OnlySearches pass.old pass.new }
    ensures near { IsNodeOf arena.now child }
    ensures next { MayVisitNext place child pass.new }
    ensures gave { Adds (Give (caller_of pass.old) held.node) pass.old pass.new }
    ensures goes { GoesTowards place pass.old pass.new }
    ensures under { StaysUnderway give_up pass.old pass.new }
{
    sound_law::<Tree>();
    node_law(&held.body);
    give_last(arena, pass, gate, held);
}

/// Takes the node at which the search for a place ends, and holds no other. It does not notify the gate that a call
/// begins.
pub(crate) fn find<N: Ranged + Unlinked, R: Wait, G: Gate>(
    rt: &R,
    arena: &Arena<N, Tree>,
    pass: &mut Pass<N, Tree>,
    gate: &G,
    place: u64,
) -> Held<N>
    requires pass { IsEmptyPassOf arena.now pass.old }
    ensures pass { IsPassOf arena.now pass.new }
    ensures caller { SameCaller pass.old pass.new }
    ensures leaves { OnlySearches pass.old pass.new }
    ensures ends { SearchEndsAt arena.now place pass.new result }
    ensures goes { GoesTowards place pass.old pass.new }
    ensures under { IsUnderway give_up pass.old pass.new }
    ensures on { StaysUnderway give_up pass.old pass.new }
{
    let mut node = 0;
    for _ in rt.forever() {
        let Some(visited) = visit(rt, arena, pass, gate, place, node) else {
            node = 0;
            continue;
        };
        match arena.next(pass, &visited, place) {
            Next::Here => {
                let held = arena.lift(pass, visited);
                tree_end_law(arena, pass, &held, place);
                return held;
            }
            Next::Go(child) => {
                leave(arena, pass, gate, place, visited, child);
                node = child;
            }
        }
    }
    unreachable!()
}

/// Takes the node at which the search for a place ends, and keeps it if it has the place or room for it. `None`: it had
/// neither, and was released.
pub(crate) fn find_room<N: Ranged + Unlinked, R: Wait, G: Gate>(
    rt: &R,
    arena: &Arena<N, Tree>,
    pass: &mut Pass<N, Tree>,
    gate: &G,
    place: u64,
) -> Option<Held<N>>
    requires pass { IsEmptyPassOf arena.now pass.old }
    ensures pass { IsPassOf arena.now pass.new }
    ensures caller { SameCaller pass.old pass.new }
    ensures leaves { OnlySearches pass.old pass.new }
    ensures came { CameToRoom (sort_of N.layout N.ranged) N.body (caller_of pass.new) place (seen_of pass.new) result }
    ensures goes { GoesTowards place pass.old pass.new }
    ensures under { IsUnderway give_up pass.old pass.new }
{
    gate.at(pass.caller(), Point::Begin);
    let held = find(rt, arena, pass, gate, place);
    if has_room(&held, place) {
        return Some(held);
    }
    give_last(arena, pass, gate, held);
    None
}

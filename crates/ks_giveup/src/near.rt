//! The search that begins at a hinted node; it restarts at the root if a node is free or its range lacks the place.
ghost use Rattle.std.specs.Prelude.{IfSome};
ghost use Rattle.ks_history.specs.Done.{give_up};
ghost use Rattle.ks_arena.specs.Sound.{sort_of};
ghost use Rattle.ks_arena.specs.Of.{IsPassOf, IsEmptyPassOf, IsNodeOf, SameCaller, caller_of};
ghost use Rattle.ks_arena.specs.Visits.{held_at, LiesInSlot};
ghost use Rattle.ks_shape.specs.Does.{OnlySearches};
ghost use Rattle.ks_shape.specs.Hinted.{BeginsAtHint, HasPassed};
ghost use Rattle.ks_shape.specs.Located.{PassesOn};
ghost use Rattle.ks_shape.specs.Of.{IsUnderway, StaysUnderway, SearchEndsAt};
ghost use Rattle.ks_giveup.specs.Goes.{GoesOnTo};

use crate::descent::{leave, visit};
use ks_arena::{Arena, Held, Pass, Visited};
use ks_flow::Tree;
use ks_gate::{Gate, Point};
use ks_node::{Next, Ranged, Unlinked};
use ks_shape::{Above, passed, start_of, tree_end_law};
use std::sync::Wait;

/// Where a search has ended, and the last branch that it passed, if it passed one.
pub(crate) struct Reached<N> {
    pub held: Held<N>,
    pub above: Option<Above>,
}

/// Releases the visited node, whose edge leads to the one to which the search goes on. Returns the last branch that it
/// passed: this node, if it is a branch, else `above`.
#[inline(always)]
fn pass_by<N: Ranged + Unlinked, G: Gate>(
    arena: &Arena<N, Tree>,
    pass: &mut Pass<N, Tree>,
    gate: &G,
    place: u64,
    visited: Visited<N>,
    child: u32,
    above: Option<Above>,
) -> Option<Above>
    requires pass { IsPassOf arena.now pass.old }
    requires lies { LiesInSlot pass.old visited }
    requires way { GoesOnTo arena.now (caller_of pass.old) place pass.old (held_at visited) child }
    ensures pass { IsEmptyPassOf arena.now pass.new }
    ensures caller { SameCaller pass.old pass.new }
    ensures leaves { OnlySearches pass.old pass.new }
    ensures near { IsNodeOf arena.now child }
    ensures above { PassesOn (sort_of N.layout N.ranged) place pass.old pass.new above result }
    ensures under { StaysUnderway give_up pass.old pass.new }
{
    let branch = passed(arena, pass, &visited, place, above);
    leave(arena, pass, gate, place, visited, child);
    branch
}

/// Takes the node at which the search for a place ends, and holds no other. It begins at the hinted node, if there is
/// one and it is idle, and no other caller acts meanwhile.
#[inline(always)]
pub(crate) fn find_near<N: Ranged + Unlinked, R: Wait, G: Gate>(
    rt: &R,
    arena: &Arena<N, Tree>,
    pass: &mut Pass<N, Tree>,
    gate: &G,
    hint: Option<u32>,
    place: u64,
) -> Reached<N>
    requires pass { IsEmptyPassOf arena.now pass.old }
    ensures pass { IsPassOf arena.now pass.new }
    ensures caller { SameCaller pass.old pass.new }
    ensures leaves { OnlySearches pass.old pass.new }
    ensures ends { SearchEndsAt arena.now place pass.new result.held }
    ensures above { IfSome result.above (HasPassed (sort_of N.layout N.ranged) place pass.old pass.new) }
    ensures first { BeginsAtHint arena.now.nodes hint pass.old pass.new }
    ensures under { IsUnderway give_up pass.old pass.new }
{
    gate.at(pass.caller(), Point::Begin);
    let nodes = arena.nodes();
    let start = start_of(hint, nodes);
    let mut here = visit(rt, arena, pass, gate, place, start);
    let mut above = None;
    for _ in rt.forever() {
        let Some(visited) = here else {
            here = visit(rt, arena, pass, gate, place, 0);
            continue;
        };
        match arena.next(pass, &visited, place) {
            Next::Here => {
                let held = arena.lift(pass, visited);
                tree_end_law(arena, pass, &held, place);
                return Reached { held, above };
            }
            Next::Go(child) => {
                above = pass_by(arena, pass, gate, place, visited, child, above);
                here = visit(rt, arena, pass, gate, place, child);
            }
        }
    }
    unreachable!()
}

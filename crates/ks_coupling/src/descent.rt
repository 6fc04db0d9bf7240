//! The descent from the root to the node where a search ends. It reads the nodes that it passes where they lie.
ghost use Rattle.std.specs.Prelude.{◌≡◌};
ghost use Rattle.ks_history.specs.Done.{coupling};
ghost use Rattle.ks_node.specs.declared.start.Next.TheVariants.{Go};
ghost use Rattle.ks_node.specs.Body.{next_at};
ghost use Rattle.ks_arena.specs.Of.{IsPassOf, IsEmptyPassOf, SameCaller, caller_of};
ghost use Rattle.ks_arena.specs.Visits.{held_at, LiesInSlot};
ghost use Rattle.ks_shape.specs.Of.{IsUnderway, StaysUnderway, IsOnWayOf, SearchEndsAt};
ghost use Rattle.ks_shape.specs.Does.{OnlySearches};

use ks_arena::{Arena, Held, Pass, Visited};
use ks_flow::Tree;
use ks_gate::{Gate, Point};
use ks_node::{Next, Unlinked};
use ks_shape::{leave_above, tree_end_law, visit_below, visit_root};
use std::sync::Wait;

/// Takes the child to which the search goes on, and releases the node.
#[inline(always)]
fn go_on<N: Unlinked, R: Wait, G: Gate>(
    rt: &R,
    arena: &Arena<N, Tree>,
    pass: &mut Pass<N, Tree>,
    gate: &G,
    place: u64,
    visited: Visited<N>,
    child: u32,
) -> Visited<N>
    requires pass { IsPassOf arena.now pass.old }
    requires lies { LiesInSlot pass.old visited }
    requires way { IsOnWayOf arena.now (caller_of pass.old) place pass.old (held_at visited) }
    requires goes { next_at (N.body visited.body.value) place ≡ Go child }
    ensures pass { IsPassOf arena.now pass.new }
    ensures caller { SameCaller pass.old pass.new }
    ensures leaves { OnlySearches pass.old pass.new }
    ensures lies { LiesInSlot pass.new result }
    ensures way { IsOnWayOf arena.now (caller_of pass.old) place pass.new (held_at result) }
    ensures under { StaysUnderway coupling pass.old pass.new }
{
    let below = visit_below(rt, arena, pass, gate, place, &visited, child);
    leave_above(arena, pass, gate, place, visited, &below);
    below
}

/// Takes the node at which the search for a place ends, and holds no other.
#[inline(always)]
pub(crate) fn find<N: Unlinked, R: Wait, G: Gate>(
    rt: &R,
    arena: &Arena<N, Tree>,
    pass: &mut Pass<N, Tree>,
    gate: &G,
    place: u64,
) -> Held<N>
    requires pass { IsEmptyPassOf arena.now pass.old }
    ensures pass { IsPassOf arena.now pass.new }
    ensures caller { SameCaller pass.old pass.new }
    ensures leaves { OnlySearches pass.old pass.new }
    ensures ends { SearchEndsAt arena.now place pass.new result }
    ensures under { IsUnderway coupling pass.old pass.new }
{
    gate.at(pass.caller(), Point::Begin);
    let mut visited = visit_root(rt, arena, pass, gate, place);
    for _ in rt.forever() {
        match arena.next(pass, &visited, place) {
            Next::Here => {
                let held = arena.lift(pass, visited);
                tree_end_law(arena, pass, &held, place);
                return held;
            }
            Next::Go(child) => visited = go_on(rt, arena, pass, gate, place, visited, child),
        }
    }
    unreachable!()
}

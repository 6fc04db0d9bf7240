//! Steps of a search that reads nodes where they lie: it takes out only the bodies of nodes at which it does more than pass.
ghost use Rattle.std.specs.Prelude.{◌≡◌, ◌∷◌, [], Some};
ghost use Rattle.ks_history.specs.declared.Event.TheVariants.{Give, Take};
ghost use Rattle.ks_history.specs.Done.{coupling};
ghost use Rattle.ks_node.specs.declared.start.Next.TheVariants.{Go};
ghost use Rattle.ks_node.specs.Body.{next_at};
ghost use Rattle.ks_arena.specs.Clauses.{hand_of, seen_of};
ghost use Rattle.ks_arena.specs.Of.{Adds, IsPassOf, IsEmptyPassOf, IsCurrent, SameCaller, caller_of};
ghost use Rattle.ks_arena.specs.Visits.{held_at, LiesInSlot};
ghost use Rattle.ks_shape.specs.Of.{HoldsOnly, IsOnWayOf, IsStretch, MakesNoneLive, StaysUnderway, StaysUnderwayAny};
ghost use Rattle.ks_shape.specs.Paths.{IsOnPathOf};
ghost use Rattle.ks_shape.specs.Visits.{path_at};
ghost use Rattle.ks_shape.specs.Does.{OnlySearches};

use crate::laws::search_law;
use crate::path::Path;
use ks_arena::laws::{bodies_law, root_stays_law, target_law};
use ks_arena::{Arena, Pass, Visited, root_law};
use ks_flow::laws::tree_facts_law;
use ks_flow::{Discipline, Tree};
use ks_gate::{Gate, Point};
use ks_node::{Node, Unlinked};
use std::sync::Wait;

/// Takes the root, and leaves its body in its slot, for a call that holds nothing: the root is on the search path of each
/// place.
#[inline(always)]
pub fn visit_root<N: Node, D: Discipline, R: Wait, G: Gate>(
    rt: &R,
    arena: &Arena<N, D>,
    pass: &mut Pass<N, D>,
    gate: &G,
    place: u64,
) -> Visited<N>
    requires pass { IsEmptyPassOf arena.now pass.old }
    ensures pass { IsPassOf arena.now pass.new }
    ensures caller { SameCaller pass.old pass.new }
    ensures leaves { OnlySearches pass.old pass.new }
    ensures took { Adds (Take (caller_of pass.old) 0) pass.old pass.new }
    ensures root { result.node ≡ 0 }
    ensures lies { LiesInSlot pass.new result }
    ensures way { IsOnWayOf arena.now (caller_of pass.old) place pass.new (held_at result) }
    ensures under { StaysUnderwayAny pass.old pass.new }
    ensures stretch { IsStretch pass.old pass.new }
    ensures makes { MakesNoneLive pass.old pass.new }
{
    root_stays_law::<D>();
    root_law::<N>(place);
    let Some(root) = arena.visit(rt, pass, 0) else {
        unreachable!()
    };
    gate.at(pass.caller(), Point::Taken(0));
    root
}

/// Takes the child to which a search goes on, and leaves its body in its slot; the visited node becomes its parent.
#[inline(always)]
pub fn visit_below<N: Unlinked, R: Wait, G: Gate>(
    rt: &R,
    arena: &Arena<N, Tree>,
    pass: &mut Pass<N, Tree>,
    gate: &G,
    place: u64,
    visited: &Visited<N>,
    child: u32,
) -> Visited<N>
    requires pass { IsPassOf arena.now pass.old }
    requires lies { LiesInSlot pass.old visited.now }
    requires way { IsOnWayOf arena.now (caller_of pass.old) place pass.old (held_at visited.now) }
    requires goes { next_at (N.body visited.now.body.value) place ≡ Go child }
    ensures pass { IsPassOf arena.now pass.new }
    ensures caller { SameCaller pass.old pass.new }
    ensures leaves { OnlySearches pass.old pass.new }
    ensures lies { LiesInSlot pass.new result }
    ensures above { LiesInSlot pass.new visited.now }
    ensures path { IsOnPathOf arena.now (caller_of pass.old) place pass.new (path_at visited.now result) }
    ensures under { StaysUnderway coupling pass.old pass.new }
    ensures stretch { IsStretch pass.old pass.new }
    ensures child { result.node ≡ child }
{
    search_law();
    target_law::<Tree>();
    tree_facts_law();
    bodies_law::<N>();
    let Some(below) = arena.visit(rt, pass, child) else {
        unreachable!()
    };
    gate.at(pass.caller(), Point::Taken(child));
    below
}

/// Releases the visited parent of a visited node.
#[inline(always)]
pub fn leave_above<N: Unlinked, G: Gate>(
    arena: &Arena<N, Tree>,
    pass: &mut Pass<N, Tree>,
    gate: &G,
    place: u64,
    above: Visited<N>,
    visited: &Visited<N>,
)
    requires pass { IsPassOf arena.now pass.old }
    requires lies { LiesInSlot pass.old visited.now }
    requires above { LiesInSlot pass.old above }
    requires path { IsOnPathOf arena.now (caller_of pass.old) place pass.old (path_at above visited.now) }
    ensures pass { IsPassOf arena.now pass.new }
    ensures caller { SameCaller pass.old pass.new }
    ensures leaves { OnlySearches pass.old pass.new }
    ensures lies { LiesInSlot pass.new visited.now }
    ensures way { IsOnWayOf arena.now (caller_of pass.old) place pass.new (held_at visited.now) }
    ensures under { StaysUnderway coupling pass.old pass.new }
    ensures stretch { IsStretch pass.old pass.new }
{
    search_law();
    let number = above.node;
    arena.leave(pass, above);
    gate.at(pass.caller(), Point::Given(number));
}

/// Takes the bodies of a visited node and of its visited parent out of their slots.
pub fn lift_path<N: Unlinked>(
    arena: &Arena<N, Tree>,
    pass: &mut Pass<N, Tree>,
    above: Visited<N>,
    visited: Visited<N>,
) -> Path<N>
    requires pass { IsPassOf arena.now pass.old }
    requires lies { LiesInSlot pass.old visited }
    requires above { LiesInSlot pass.old above }
    requires hands { hand_of pass.old ≡ visited.node ∷ above.node ∷ [] }
    ensures pass { IsPassOf arena.now pass.new }
    ensures caller { SameCaller pass.old pass.new }
    ensures seen { seen_of pass.new ≡ seen_of pass.old }
    ensures path { result ≡ path_at above visited }
{
    search_law();
    let node = arena.lift(pass, visited);
    let parent = arena.lift_under(pass, above);
    Path {
        parent: Some(parent),
        node,
    }
}

/// Releases the one node that is held, a visited one.
#[inline(always)]
pub fn leave_last<N: Node, D: Discipline, G: Gate>(
    arena: &Arena<N, D>,
    pass: &mut Pass<N, D>,
    gate: &G,
    visited: Visited<N>,
)
    requires pass { IsPassOf arena.now pass.old }
    requires alone { HoldsOnly pass.old (held_at visited) }
    requires lies { LiesInSlot pass.old visited }
    requires body { IsCurrent arena.now pass.old (held_at visited) }
    ensures pass { IsEmptyPassOf arena.now pass.new }
    ensures caller { SameCaller pass.old pass.new }
    ensures leaves { OnlySearches pass.old pass.new }
    ensures gave { Adds (Give (caller_of pass.old) visited.node) pass.old pass.new }
    ensures under { StaysUnderwayAny pass.old pass.new }
    ensures stretch { IsStretch pass.old pass.new }
    ensures makes { MakesNoneLive pass.old pass.new }
{
    let node = visited.node;
    arena.leave(pass, visited);
    gate.at(pass.caller(), Point::Given(node));
}

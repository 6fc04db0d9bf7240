//! A search that keeps the parent of its node.
ghost use Rattle.std.specs.Prelude.{◌≡◌, ◌∷◌, None, Some};
ghost use Rattle.std.specs.Option.{ForSome};
ghost use Rattle.ks_history.specs.declared.Event.TheVariants.{Give, Take};
ghost use Rattle.ks_history.specs.Done.{coupling};
ghost use Rattle.ks_node.specs.declared.start.Next.TheVariants.{Go};
ghost use Rattle.ks_node.specs.Body.{next_at};
ghost use Rattle.ks_arena.specs.Clauses.{hand_of};
ghost use Rattle.ks_shape.specs.OnPath.{numbers};
ghost use Rattle.ks_arena.specs.Of.{Adds, IsInside, IsPassOf, IsEmptyPassOf, IsCurrent, IsLiveAndCurrent, SameCaller, caller_of};
ghost use Rattle.ks_shape.specs.Of.{IsStretch, IsOnWayOf, StaysUnderway};
ghost use Rattle.ks_shape.specs.Paths.{AddsGive, IsOnPathOf, IsUnderParent};
ghost use Rattle.ks_shape.specs.Does.{OnlySearches};

use crate::laws::search_law;
use crate::steps::take_root;
use ks_arena::laws::target_law;
use ks_arena::{Arena, Held, Pass};
use ks_flow::Tree;
use ks_flow::laws::tree_facts_law;
use ks_gate::{Gate, Point};
use ks_node::{Unlinked, node_law};
use std::sync::Wait;

/// The node at which a search is, and the one that leads to it. The root has none; a node that is not full needs none,
/// and no node of a type that grows in place does.
pub struct Path<N> {
    pub parent: Option<Held<N>>,
    pub node: Held<N>,
}

/// Takes the root. It does not notify the gate that a call begins.
#[inline(always)]
pub fn enter<N: Unlinked, R: Wait, G: Gate>(
    rt: &R,
    arena: &Arena<N, Tree>,
    pass: &mut Pass<N, Tree>,
    gate: &G,
    place: u64,
) -> Path<N>
    requires pass { IsEmptyPassOf arena.now pass.old }
    ensures pass { IsPassOf arena.now pass.new }
    ensures caller { SameCaller pass.old pass.new }
    ensures leaves { OnlySearches pass.old pass.new }
    ensures path { IsOnPathOf arena.now (caller_of pass.old) place pass.new result }
    ensures stretch { IsStretch pass.old pass.new }
    ensures root { (result.parent ≡ None) × (result.node.node ≡ 0) }
    ensures took { Adds (Take (caller_of pass.old) 0) pass.old pass.new }
{
    let node = take_root(rt, arena, pass, gate, place);
    Path { parent: None, node }
}

/// Releases the other held node, if there is one, and keeps the node.
#[inline(always)]
pub fn keep_alone<N: Unlinked, G: Gate>(
    arena: &Arena<N, Tree>,
    pass: &mut Pass<N, Tree>,
    gate: &G,
    place: u64,
    other: Option<Held<N>>,
    node: Held<N>,
) -> Held<N>
    requires pass { IsPassOf arena.now pass.old }
    requires hands { hand_of pass.old ≡ node.node ∷ numbers other }
    requires other { ForSome other (λ y. IsCurrent arena.now pass.old y) }
    requires node { IsLiveAndCurrent arena.now pass.old node }
    requires inside { IsInside pass.old node.node place }
    ensures pass { IsPassOf arena.now pass.new }
    ensures caller { SameCaller pass.old pass.new }
    ensures leaves { OnlySearches pass.old pass.new }
    ensures node { result ≡ node }
    ensures way { IsOnWayOf arena.now (caller_of pass.old) place pass.new result }
    ensures under { StaysUnderway coupling pass.old pass.new }
    ensures stretch { IsStretch pass.old pass.new }
    ensures gave { AddsGive other pass.old pass.new }
{
    search_law();
    if let Some(other) = other {
        let number = other.node;
        arena.give(pass, other);
        gate.at(pass.caller(), Point::Given(number));
    }
    node
}

/// Releases the parent, and keeps the node.
#[inline(always)]
pub fn let_go<N: Unlinked, G: Gate>(
    arena: &Arena<N, Tree>,
    pass: &mut Pass<N, Tree>,
    gate: &G,
    place: u64,
    path: Path<N>,
) -> Held<N>
    requires pass { IsPassOf arena.now pass.old }
    requires path { IsOnPathOf arena.now (caller_of pass.old) place pass.old path }
    ensures pass { IsPassOf arena.now pass.new }
    ensures caller { SameCaller pass.old pass.new }
    ensures leaves { OnlySearches pass.old pass.new }
    ensures node { result ≡ path.node }
    ensures way { IsOnWayOf arena.now (caller_of pass.old) place pass.new result }
    ensures under { StaysUnderway coupling pass.old pass.new }
    ensures stretch { IsStretch pass.old pass.new }
    ensures gave { AddsGive path.parent pass.old pass.new }
{
    let Path { parent, node } = path;
    keep_alone(arena, pass, gate, place, parent, node)
}

/// Takes the child to which the search goes on; the node becomes its parent.
#[inline(always)]
pub fn step_down<N: Unlinked, R: Wait, G: Gate>(
    rt: &R,
    arena: &Arena<N, Tree>,
    pass: &mut Pass<N, Tree>,
    gate: &G,
    place: u64,
    held: Held<N>,
    child: u32,
) -> Path<N>
    requires pass { IsPassOf arena.now pass.old }
    requires way { IsOnWayOf arena.now (caller_of pass.old) place pass.old held }
    requires goes { next_at (N.body held.body) place ≡ Go child }
    ensures pass { IsPassOf arena.now pass.new }
    ensures caller { SameCaller pass.old pass.new }
    ensures leaves { OnlySearches pass.old pass.new }
    ensures path { IsOnPathOf arena.now (caller_of pass.old) place pass.new result }
    ensures under { StaysUnderway coupling pass.old pass.new }
    ensures stretch { IsStretch pass.old pass.new }
    ensures parent { result.parent ≡ Some held }
    ensures child { result.node.node ≡ child }
    ensures took { Adds (Take (caller_of pass.old) child) pass.old pass.new }
{
    search_law();
    target_law::<Tree>();
    tree_facts_law();
    node_law(&held.body);
    let Some(below) = arena.take(rt, pass, child) else {
        unreachable!()
    };
    gate.at(pass.caller(), Point::Taken(child));
    Path {
        parent: Some(held),
        node: below,
    }
}

/// Releases the held node that is right of a path, as the right half of its node, and keeps the path.
pub fn keep_left<N: Unlinked, G: Gate>(
    arena: &Arena<N, Tree>,
    pass: &mut Pass<N, Tree>,
    gate: &G,
    place: u64,
    path: Path<N>,
    right: Held<N>,
) -> Path<N>
    requires pass { IsPassOf arena.now pass.old }
    requires hands { hand_of pass.old ≡ right.node ∷ path.node.node ∷ numbers path.parent }
    requires under { IsUnderParent arena.now place pass.old path.node path.parent }
    requires node { IsLiveAndCurrent arena.now pass.old path.node }
    requires right { IsCurrent arena.now pass.old right }
    requires inside { IsInside pass.old path.node.node place }
    ensures pass { IsPassOf arena.now pass.new }
    ensures caller { SameCaller pass.old pass.new }
    ensures leaves { OnlySearches pass.old pass.new }
    ensures path { IsOnPathOf arena.now (caller_of pass.old) place pass.new result }
    ensures stretch { IsStretch pass.old pass.new }
    ensures same { result ≡ path }
    ensures gave { Adds (Give (caller_of pass.old) right.node) pass.old pass.new }
{
    search_law();
    let number = right.node;
    arena.give(pass, right);
    gate.at(pass.caller(), Point::Given(number));
    path
}

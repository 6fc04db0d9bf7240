//! One try to merge at a node.
ghost use Rattle.std.specs.Prelude.{◌≡◌, ℕ, IsTrue, None, Some, true, false};
ghost use Rattle.ks_node.specs.Body.{only_child_of};
ghost use Rattle.ks_tidy.specs.Pair.{TakesOver, path_in};
ghost use Rattle.ks_arena.specs.Of.{IsPassOf, SameCaller, caller_of};
ghost use Rattle.ks_shape.specs.Of.{HasPlaces, IsStretch};
ghost use Rattle.ks_tidy.specs.Of.{HasTried, IsPairOf};
ghost use Rattle.ks_shape.specs.Does.{OnlyDels};

use crate::merges::{merge, take_over};
use ks_arena::{Arena, Held, Pass};
use ks_bodies::tests_law;
use ks_flow::Tree;
use ks_gate::Gate;
use ks_node::{Node, Unlinked, node_law, unlinked_law};
use ks_shape::{Path, search_law};
use std::sync::Wait;

/// The result of a try to merge at the node of a path.
pub enum Step<N> {
    /// One node was made free and released; the path goes to the node that took over what it had.
    Freed(Path<N>),
    /// None was; the path is as before.
    Rests(Path<N>),
}

/// Merges a node whose parent is not held with the node to which it leads itself, if it is low or the work is thorough.
#[inline(always)]
fn tidy_root<N: Unlinked, R: Wait, G: Gate>(
    rt: &R,
    arena: &Arena<N, Tree>,
    pass: &mut Pass<N, Tree>,
    gate: &G,
    place: u64,
    thorough: bool,
    root: Held<N>,
) -> Step<N>
    requires pass { IsPassOf arena.now pass.old }
    requires pair { IsPairOf arena.now (caller_of pass.old) place pass.old (record { parent = None; node = root }) }
    ensures pass { IsPassOf arena.now pass.new }
    ensures caller { SameCaller pass.old pass.new }
    ensures dels { thorough ≡ false → OnlyDels N.layout N.ranged pass.old pass.new }
    ensures pair { IsPairOf arena.now (caller_of pass.old) place pass.new (path_in result) }
    ensures places { HasPlaces root.node (path_in result).node.node pass.old pass.new }
    ensures stretch { IsStretch pass.old pass.new }
    ensures step { HasTried arena.now thorough pass.old pass.new (record { parent = None; node = root }) result }
{
    let path = Path {
        parent: None,
        node: root,
    };
    if thorough {
        return merge(rt, arena, pass, gate, place, path);
    }
    if path.node.body.is_low() {
        return merge(rt, arena, pass, gate, place, path);
    }
    Step::Rests(path)
}

/// Whether the node is the root, or of a type that grows in place, and a branch over one child.
pub(crate) fn has_sole<N: Node>(parent: &Held<N>) -> bool
    ensures takes { IsTrue result → TakesOver N.layout parent.now.node }
    ensures sole { IsTrue result → (m : ℕ) × (only_child_of (N.body parent.now.body) ≡ Some m) }
    ensures none { result ≡ false → TakesOver N.layout parent.now.node →
        only_child_of (N.body parent.now.body) ≡ None }
{
    if parent.node != 0 && !N::grows_in_place() {
        return false;
    }
    parent.body.only_child().is_some()
}

/// Lets the root, or any parent that grows in place, take over its only child; else merges the child with its right
/// neighbour, if it is low or the work is thorough.
#[inline(always)]
fn tidy_child<N: Unlinked, R: Wait, G: Gate>(
    rt: &R,
    arena: &Arena<N, Tree>,
    pass: &mut Pass<N, Tree>,
    gate: &G,
    place: u64,
    thorough: bool,
    parent: Held<N>,
    node: Held<N>,
) -> Step<N>
    requires pass { IsPassOf arena.now pass.old }
    requires pair { IsPairOf arena.now (caller_of pass.old) place pass.old
        (record { parent = Some parent; node = node }) }
    ensures pass { IsPassOf arena.now pass.new }
    ensures caller { SameCaller pass.old pass.new }
    ensures dels { thorough ≡ false → OnlyDels N.layout N.ranged pass.old pass.new }
    ensures pair { IsPairOf arena.now (caller_of pass.old) place pass.new (path_in result) }
    ensures places { HasPlaces node.node (path_in result).node.node pass.old pass.new }
    ensures stretch { IsStretch pass.old pass.new }
    ensures step { HasTried arena.now thorough pass.old pass.new (record { parent = Some parent; node = node }) result }
{
    search_law();
    tests_law();
    unlinked_law::<N>();
    node_law(&parent.body);
    if has_sole(&parent) {
        return Step::Freed(take_over(arena, pass, gate, place, parent, node));
    }
    let path = Path {
        parent: Some(parent),
        node,
    };
    if thorough {
        return merge(rt, arena, pass, gate, place, path);
    }
    if path.node.body.is_low() {
        return merge(rt, arena, pass, gate, place, path);
    }
    Step::Rests(path)
}

/// Makes one node free, if it can: the root, or any parent that grows in place, takes over the node of the path, if that
/// is its only child; else the node absorbs its right neighbour, if both fit and the node is low. Thorough work does not
/// ask whether it is low. A node whose parent is not held absorbs only a neighbour to which it leads itself.
#[inline(always)]
pub fn tidy_once<N: Unlinked, R: Wait, G: Gate>(
    rt: &R,
    arena: &Arena<N, Tree>,
    pass: &mut Pass<N, Tree>,
    gate: &G,
    place: u64,
    thorough: bool,
    path: Path<N>,
) -> Step<N>
    requires pass { IsPassOf arena.now pass.old }
    requires pair { IsPairOf arena.now (caller_of pass.old) place pass.old path }
    ensures pass { IsPassOf arena.now pass.new }
    ensures caller { SameCaller pass.old pass.new }
    ensures dels { thorough ≡ false → OnlyDels N.layout N.ranged pass.old pass.new }
    ensures pair { IsPairOf arena.now (caller_of pass.old) place pass.new (path_in result) }
    ensures places { HasPlaces path.node.node (path_in result).node.node pass.old pass.new }
    ensures stretch { IsStretch pass.old pass.new }
    ensures step { HasTried arena.now thorough pass.old pass.new path result }
{
    let Path { parent, node } = path;
    match parent {
        None => tidy_root(rt, arena, pass, gate, place, thorough, node),
        Some(parent) => tidy_child(rt, arena, pass, gate, place, thorough, parent, node),
    }
}

//! One try to merge at a node, without waiting: a right neighbour that another caller holds is left as it is.
ghost use Rattle.std.specs.Prelude.{◌≡◌, None, Some, IsTrue};
ghost use Rattle.ks_node.specs.Room.{is_low};
ghost use Rattle.ks_node.specs.Body.{chained_of, right_child};
ghost use Rattle.ks_tidy.specs.Pair.{count_in, path_in};
ghost use Rattle.ks_arena.specs.Of.{IsPassOf, SameCaller, caller_of};
ghost use Rattle.ks_shape.specs.Of.{IsStretch};
ghost use Rattle.ks_tidy.specs.Of.{HasNoSole, IsPairOf, MakesFree};
ghost use Rattle.ks_shape.specs.Does.{OnlyDels};

use crate::joins::{join_beside, join_own};
use crate::merges::take_over;
use crate::neighbours::{chained_law, next_law};
use crate::step::{Step, has_sole};
use crate::takes::try_take_led;
use ks_arena::{Arena, Held, Pass};
use ks_bodies::tests_law;
use ks_flow::Tree;
use ks_gate::Gate;
use ks_node::{Unlinked, node_law, unlinked_law};
use ks_shape::{Path, search_law};

/// The node of a path absorbs the node to which it leads itself, if both fit and nobody else holds that one.
fn try_merge_own<N: Unlinked, G: Gate>(
    arena: &Arena<N, Tree>,
    pass: &mut Pass<N, Tree>,
    gate: &G,
    place: u64,
    path: Path<N>,
    target: u32,
) -> Step<N>
    requires pass { IsPassOf arena.now pass.old }
    requires pair { IsPairOf arena.now (caller_of pass.old) place pass.old path }
    requires chained { chained_of (N.body path.node.body) ≡ Some target }
    requires no_sole { HasNoSole arena.now path.parent }
    ensures pass { IsPassOf arena.now pass.new }
    ensures caller { SameCaller pass.old pass.new }
    ensures dels { IsTrue (is_low N.layout (N.body path.node.body)) → OnlyDels N.layout N.ranged pass.old pass.new }
    ensures pair { IsPairOf arena.now (caller_of pass.old) place pass.new (path_in result) }
    ensures stretch { IsStretch pass.old pass.new }
    ensures frees { MakesFree (count_in result) pass.old pass.new }
{
    search_law();
    chained_law(arena, pass, place, &path, target);
    match try_take_led(arena, pass, gate, &path.node, target) {
        Some(next) => join_own(arena, pass, gate, place, path, next),
        None => Step::Rests(path),
    }
}

/// The node below a branch absorbs the node to which the branch leads next, if both fit and nobody else holds that one.
fn try_merge_beside<N: Unlinked, G: Gate>(
    arena: &Arena<N, Tree>,
    pass: &mut Pass<N, Tree>,
    gate: &G,
    place: u64,
    parent: Held<N>,
    node: Held<N>,
    target: u32,
) -> Step<N>
    requires pass { IsPassOf arena.now pass.old }
    requires pair { IsPairOf arena.now (caller_of pass.old) place pass.old
        (record { parent = Some parent; node = node }) }
    requires unchained { chained_of (N.body node.body) ≡ None }
    requires beside { right_child (N.body parent.body) place ≡ Some target }
    requires no_sole { HasNoSole arena.now (Some parent) }
    ensures pass { IsPassOf arena.now pass.new }
    ensures caller { SameCaller pass.old pass.new }
    ensures dels { IsTrue (is_low N.layout (N.body node.body)) → OnlyDels N.layout N.ranged pass.old pass.new }
    ensures pair { IsPairOf arena.now (caller_of pass.old) place pass.new (path_in result) }
    ensures stretch { IsStretch pass.old pass.new }
    ensures frees { MakesFree (count_in result) pass.old pass.new }
{
    search_law();
    next_law(arena, pass, place, &parent, &node, target);
    match try_take_led(arena, pass, gate, &parent, target) {
        Some(right) => join_beside(arena, pass, gate, place, parent, node, right),
        None => Step::Rests(Path {
            parent: Some(parent),
            node,
        }),
    }
}

/// Merges a low node below its parent with its right neighbour, if there is one, they fit, and nobody else holds it.
fn try_merge_child<N: Unlinked, G: Gate>(
    arena: &Arena<N, Tree>,
    pass: &mut Pass<N, Tree>,
    gate: &G,
    place: u64,
    parent: Held<N>,
    node: Held<N>,
) -> Step<N>
    requires pass { IsPassOf arena.now pass.old }
    requires pair { IsPairOf arena.now (caller_of pass.old) place pass.old
        (record { parent = Some parent; node = node }) }
    requires no_sole { HasNoSole arena.now (Some parent) }
    ensures pass { IsPassOf arena.now pass.new }
    ensures caller { SameCaller pass.old pass.new }
    ensures dels { IsTrue (is_low N.layout (N.body node.body)) → OnlyDels N.layout N.ranged pass.old pass.new }
    ensures pair { IsPairOf arena.now (caller_of pass.old) place pass.new (path_in result) }
    ensures stretch { IsStretch pass.old pass.new }
    ensures frees { MakesFree (count_in result) pass.old pass.new }
{
    match node.body.chained() {
        Some(right) => {
            let path = Path {
                parent: Some(parent),
                node,
            };
            try_merge_own(arena, pass, gate, place, path, right)
        }
        None => match parent.body.right_of(place) {
            Some(right) => try_merge_beside(arena, pass, gate, place, parent, node, right),
            None => Step::Rests(Path {
                parent: Some(parent),
                node,
            }),
        },
    }
}

/// Merges a low node whose parent is not held with the node to which it leads itself, if there is one, they fit, and
/// nobody else holds that one.
fn try_tidy_root<N: Unlinked, G: Gate>(
    arena: &Arena<N, Tree>,
    pass: &mut Pass<N, Tree>,
    gate: &G,
    place: u64,
    root: Held<N>,
) -> Step<N>
    requires pass { IsPassOf arena.now pass.old }
    requires pair { IsPairOf arena.now (caller_of pass.old) place pass.old (record { parent = None; node = root }) }
    ensures pass { IsPassOf arena.now pass.new }
    ensures caller { SameCaller pass.old pass.new }
    ensures dels { OnlyDels N.layout N.ranged pass.old pass.new }
    ensures pair { IsPairOf arena.now (caller_of pass.old) place pass.new (path_in result) }
    ensures stretch { IsStretch pass.old pass.new }
    ensures frees { MakesFree (count_in result) pass.old pass.new }
{
    let low = root.body.is_low();
    let right = root.body.chained();
    let path = Path {
        parent: None,
        node: root,
    };
    match right {
        Some(right) => {
            if low {
                return try_merge_own(arena, pass, gate, place, path, right);
            }
            Step::Rests(path)
        }
        None => Step::Rests(path),
    }
}

/// Lets the root, or any parent that grows in place, take over its only child; else merges the child, if it is low, with
/// its right neighbour.
fn try_tidy_child<N: Unlinked, G: Gate>(
    arena: &Arena<N, Tree>,
    pass: &mut Pass<N, Tree>,
    gate: &G,
    place: u64,
    parent: Held<N>,
    node: Held<N>,
) -> Step<N>
    requires pass { IsPassOf arena.now pass.old }
    requires pair { IsPairOf arena.now (caller_of pass.old) place pass.old
        (record { parent = Some parent; node = node }) }
    ensures pass { IsPassOf arena.now pass.new }
    ensures caller { SameCaller pass.old pass.new }
    ensures dels { OnlyDels N.layout N.ranged pass.old pass.new }
    ensures pair { IsPairOf arena.now (caller_of pass.old) place pass.new (path_in result) }
    ensures stretch { IsStretch pass.old pass.new }
    ensures frees { MakesFree (count_in result) pass.old pass.new }
{
    search_law();
    tests_law();
    unlinked_law::<N>();
    node_law(&parent.body);
    if has_sole(&parent) {
        return Step::Freed(take_over(arena, pass, gate, place, parent, node));
    }
    if node.body.is_low() {
        return try_merge_child(arena, pass, gate, place, parent, node);
    }
    Step::Rests(Path {
        parent: Some(parent),
        node,
    })
}

/// Makes one node free, if it can without waiting, as `tidy_once` does.
pub(crate) fn try_tidy_once<N: Unlinked, G: Gate>(
    arena: &Arena<N, Tree>,
    pass: &mut Pass<N, Tree>,
    gate: &G,
    place: u64,
    path: Path<N>,
) -> Step<N>
    requires pass { IsPassOf arena.now pass.old }
    requires pair { IsPairOf arena.now (caller_of pass.old) place pass.old path }
    ensures pass { IsPassOf arena.now pass.new }
    ensures caller { SameCaller pass.old pass.new }
    ensures dels { OnlyDels N.layout N.ranged pass.old pass.new }
    ensures pair { IsPairOf arena.now (caller_of pass.old) place pass.new (path_in result) }
    ensures stretch { IsStretch pass.old pass.new }
    ensures frees { MakesFree (count_in result) pass.old pass.new }
{
    let Path { parent, node } = path;
    match parent {
        None => try_tidy_root(arena, pass, gate, place, node),
        Some(parent) => try_tidy_child(arena, pass, gate, place, parent, node),
    }
}

//! The ways to make a node free: a branch takes over its only child, or a node absorbs its right neighbour.
ghost use Rattle.std.specs.Prelude.{◌≡◌, Some, None, true, IsTrue};
ghost use Rattle.ks_node.specs.Room.{is_low};
ghost use Rattle.ks_node.specs.Body.{chained_of, only_child_of};
ghost use Rattle.ks_tidy.specs.Pair.{TakesOver, path_in};
ghost use Rattle.ks_arena.specs.Of.{IsPassOf, SameCaller, caller_of};
ghost use Rattle.ks_shape.specs.Of.{HasPlaces, IsStretch};
ghost use Rattle.ks_tidy.specs.Of.{HasNoSole, HasTried, IsPairOf, MakesFree};
ghost use Rattle.ks_shape.specs.Does.{OnlyDels};

use crate::joins::{join_beside, join_own};
use crate::neighbours::{chained_law, next_law};
use crate::step::Step;
use crate::takes::take_led;
use ks_arena::{Arena, Held, Pass};
use ks_bodies::alone_law;
use ks_flow::Tree;
use ks_gate::{Gate, Point};
use ks_node::{Unlinked, node_law, unlinked_law};
use ks_shape::{Path, collapse, search_law};
use std::sync::Wait;

/// A branch takes over its only child, which is released as free. It is the root, or it grows in place; its own parent
/// is not held.
pub(crate) fn take_over<N: Unlinked, G: Gate>(
    arena: &Arena<N, Tree>,
    pass: &mut Pass<N, Tree>,
    gate: &G,
    place: u64,
    parent: Held<N>,
    child: Held<N>,
) -> Path<N>
    requires pass { IsPassOf arena.now pass.old }
    requires pair { IsPairOf arena.now (caller_of pass.old) place pass.old
        (record { parent = Some parent; node = child }) }
    requires takes { TakesOver N.layout parent.node }
    requires sole { only_child_of (N.body parent.body) ≡ Some child.node }
    ensures pass { IsPassOf arena.now pass.new }
    ensures caller { SameCaller pass.old pass.new }
    ensures dels { OnlyDels N.layout N.ranged pass.old pass.new }
    ensures pair { IsPairOf arena.now (caller_of pass.old) place pass.new result }
    ensures places { HasPlaces child.node result.node.node pass.old pass.new }
    ensures stretch { IsStretch pass.old pass.new }
    ensures frees { MakesFree 1 pass.old pass.new }
{
    search_law();
    let mut parent = parent;
    let mut child = child;
    collapse(arena, pass, &mut parent, &mut child);
    let number = child.node;
    arena.give(pass, child);
    gate.at(pass.caller(), Point::Given(number));
    Path {
        parent: None,
        node: parent,
    }
}

/// Merges the node of a path with its right neighbour, if there is one and they fit: with the node to which it leads
/// itself, or else with the one to which its parent, if that is held, leads next. That one is released, as free if it was
/// absorbed.
#[inline(never)]
pub(crate) fn merge<N: Unlinked, R: Wait, G: Gate>(
    rt: &R,
    arena: &Arena<N, Tree>,
    pass: &mut Pass<N, Tree>,
    gate: &G,
    place: u64,
    path: Path<N>,
) -> Step<N>
    requires pass { IsPassOf arena.now pass.old }
    requires pair { IsPairOf arena.now (caller_of pass.old) place pass.old path }
    requires no_sole { HasNoSole arena.now path.parent }
    ensures pass { IsPassOf arena.now pass.new }
    ensures caller { SameCaller pass.old pass.new }
    ensures dels { IsTrue (is_low N.layout (N.body path.node.body)) → OnlyDels N.layout N.ranged pass.old pass.new }
    ensures pair { IsPairOf arena.now (caller_of pass.old) place pass.new (path_in result) }
    ensures places { HasPlaces path.node.node (path_in result).node.node pass.old pass.new }
    ensures stretch { IsStretch pass.old pass.new }
    ensures step { HasTried arena.now true pass.old pass.new path result }
{
    search_law();
    let right = path.node.body.chained();
    match right {
        Some(target) => {
            chained_law(arena, pass, place, &path, target);
            let next = take_led(rt, arena, pass, gate, &path.node, target);
            join_own(arena, pass, gate, place, path, next)
        }
        None => {
            let Path { parent, node } = path;
            match parent {
                Some(parent) => merge_next(rt, arena, pass, gate, place, parent, node),
                None => {
                    alone_law();
                    unlinked_law::<N>();
                    node_law(&node.body);
                    Step::Rests(Path { parent: None, node })
                }
            }
        }
    }
}

/// Merges a node that leads to no node itself with the one to which its parent leads next, if there is one and they
/// fit: that one is released, and if it was absorbed, its parent forgets it and it is released as free.
fn merge_next<N: Unlinked, R: Wait, G: Gate>(
    rt: &R,
    arena: &Arena<N, Tree>,
    pass: &mut Pass<N, Tree>,
    gate: &G,
    place: u64,
    parent: Held<N>,
    node: Held<N>,
) -> Step<N>
    requires pass { IsPassOf arena.now pass.old }
    requires pair { IsPairOf arena.now (caller_of pass.old) place pass.old
        (record { parent = Some parent; node = node }) }
    requires unchained { chained_of (N.body node.body) ≡ None }
    requires no_sole { HasNoSole arena.now (Some parent) }
    ensures pass { IsPassOf arena.now pass.new }
    ensures caller { SameCaller pass.old pass.new }
    ensures dels { IsTrue (is_low N.layout (N.body node.body)) → OnlyDels N.layout N.ranged pass.old pass.new }
    ensures pair { IsPairOf arena.now (caller_of pass.old) place pass.new (path_in result) }
    ensures places { HasPlaces node.node (path_in result).node.node pass.old pass.new }
    ensures stretch { IsStretch pass.old pass.new }
    ensures step { HasTried arena.now true pass.old pass.new (record { parent = Some parent; node = node }) result }
{
    search_law();
    match parent.body.right_of(place) {
        Some(target) => {
            next_law(arena, pass, place, &parent, &node, target);
            let right = take_led(rt, arena, pass, gate, &parent, target);
            join_beside(arena, pass, gate, place, parent, node, right)
        }
        None => {
            alone_law();
            unlinked_law::<N>();
            node_law(&parent.body);
            node_law(&node.body);
            Step::Rests(Path {
                parent: Some(parent),
                node,
            })
        }
    }
}

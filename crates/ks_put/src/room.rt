//! The search for room for a place, which holds the parent of a full node too, so that the node can be split under it.
ghost use Rattle.std.specs.Prelude.{◌≡◌, ◌⊎◌, IfErr, IfOk, IsTrue, None, Some, false};
ghost use Rattle.ks_node.specs.declared.start.Next.TheVariants.{Go, Here};
ghost use Rattle.ks_node.specs.Body.{next_at};
ghost use Rattle.ks_node.specs.Room.{is_full};
ghost use Rattle.ks_arena.specs.Clauses.{seen_of};
ghost use Rattle.ks_arena.specs.Of.{IsPassOf, IsEmptyPassOf, SameCaller, caller_of};
ghost use Rattle.ks_arena.specs.Visits.{held_at, LiesInSlot};
ghost use Rattle.ks_shape.specs.Of.{IsOnWayOf, IsStretch, NoneWasFree, SearchEndsAt};
ghost use Rattle.ks_shape.specs.Paths.{IsOnPathOf};
ghost use Rattle.ks_put.specs.Of.{AllGrow, CameToRoom};
ghost use Rattle.ks_put.specs.Parts.{IsEased};
ghost use Rattle.ks_shape.specs.Does.{OnlyFills, OnlySearches};

use crate::halves::{Part, settle};
use crate::splits::split;
use ks_arena::{Arena, Held, Pass, Visited};
use ks_flow::Tree;
use ks_gate::Gate;
use ks_node::{Next, Unlinked, node_law, unlinked_law};
use ks_shape::{
    Path, has_room, leave_above, let_go, lift_path, search_law, step_down, tree_end_law,
    visit_below, visit_root,
};
use std::sync::Wait;

/// Takes the body of the one node that is held, a visited one, out of its slot. It needs no parent: it is the root, or is
/// not full.
#[inline(always)]
fn lift_alone<N: Unlinked>(
    arena: &Arena<N, Tree>,
    pass: &mut Pass<N, Tree>,
    place: u64,
    visited: Visited<N>,
) -> Path<N>
    requires pass { IsPassOf arena.now pass.old }
    requires lies { LiesInSlot pass.old visited }
    requires way { IsOnWayOf arena.now (caller_of pass.old) place pass.old (held_at visited) }
    requires top { (visited.node ≡ 0) ⊎ (is_full N.layout (N.body visited.body.value) ≡ false) }
    ensures pass { IsPassOf arena.now pass.new }
    ensures caller { SameCaller pass.old pass.new }
    ensures seen { seen_of pass.new ≡ seen_of pass.old }
    ensures path { IsOnPathOf arena.now (caller_of pass.old) place pass.new result }
    ensures alone { result.parent ≡ None }
{
    Path {
        parent: None,
        node: arena.lift(pass, visited),
    }
}

/// Takes the child of a visited node that is not full, and releases the node. `Err`: the child is full, the node stays as its
/// parent, and the bodies of both were taken out of their slots.
#[inline(always)]
fn go_below<N: Unlinked, R: Wait, G: Gate>(
    rt: &R,
    arena: &Arena<N, Tree>,
    pass: &mut Pass<N, Tree>,
    gate: &G,
    place: u64,
    visited: Visited<N>,
    child: u32,
) -> Result<Visited<N>, Path<N>>
    requires pass { IsPassOf arena.now pass.old }
    requires lies { LiesInSlot pass.old visited }
    requires way { IsOnWayOf arena.now (caller_of pass.old) place pass.old (held_at visited) }
    requires room { is_full N.layout (N.body visited.body.value) ≡ false }
    requires goes { next_at (N.body visited.body.value) place ≡ Go child }
    ensures pass { IsPassOf arena.now pass.new }
    ensures caller { SameCaller pass.old pass.new }
    ensures leaves { OnlySearches pass.old pass.new }
    ensures stretch { IsStretch pass.old pass.new }
    ensures lies { IfOk result (λ below. LiesInSlot pass.new below) }
    ensures way { IfOk result (λ below. IsOnWayOf arena.now (caller_of pass.old) place pass.new (held_at below)) }
    ensures room { IfOk result (λ below. is_full N.layout (N.body below.body.value) ≡ false) }
    ensures path { IfErr result (IsOnPathOf arena.now (caller_of pass.old) place pass.new) }
    ensures eased { IfErr result (IsEased N.layout N.body) }
{
    let below = visit_below(rt, arena, pass, gate, place, &visited, child);
    if arena.is_full(pass, &below) {
        return Err(lift_path(arena, pass, visited, below));
    }
    leave_above(arena, pass, gate, place, visited, &below);
    Ok(below)
}

/// Comes from the root to the first full node on the search path, or to the end of the search, and reads each node before in
/// its slot. It holds the parent too if the node is full, unless it is the root. It does not notify the gate that a call
/// begins.
#[inline(always)]
fn come_to_full<N: Unlinked, R: Wait, G: Gate>(
    rt: &R,
    arena: &Arena<N, Tree>,
    pass: &mut Pass<N, Tree>,
    gate: &G,
    place: u64,
) -> Path<N>
    requires pass { IsEmptyPassOf arena.now pass.old }
    ensures pass { IsPassOf arena.now pass.new }
    ensures caller { SameCaller pass.old pass.new }
    ensures leaves { OnlySearches pass.old pass.new }
    ensures path { IsOnPathOf arena.now (caller_of pass.old) place pass.new result }
    ensures stretch { IsStretch pass.old pass.new }
    ensures eased { IsEased N.layout N.body result }
{
    let mut visited = visit_root(rt, arena, pass, gate, place);
    if arena.is_full(pass, &visited) {
        return lift_alone(arena, pass, place, visited);
    }
    for _ in rt.forever() {
        match arena.next(pass, &visited, place) {
            Next::Here => return lift_alone(arena, pass, place, visited),
            Next::Go(child) => {
                match go_below(rt, arena, pass, gate, place, visited, child) {
                    Ok(below) => visited = below,
                    Err(path) => return path,
                }
            }
        }
    }
    unreachable!()
}

/// Releases the parent, and takes the child; keeps the node as its parent only if the child is full. Otherwise the root
/// too is released once that is known.
#[inline(always)]
fn down<N: Unlinked, R: Wait, G: Gate>(
    rt: &R,
    arena: &Arena<N, Tree>,
    pass: &mut Pass<N, Tree>,
    gate: &G,
    place: u64,
    path: Path<N>,
    child: u32,
) -> Path<N>
    requires pass { IsPassOf arena.now pass.old }
    requires path { IsOnPathOf arena.now (caller_of pass.old) place pass.old path }
    requires goes { next_at (N.body path.node.body) place ≡ Go child }
    ensures pass { IsPassOf arena.now pass.new }
    ensures caller { SameCaller pass.old pass.new }
    ensures leaves { OnlySearches pass.old pass.new }
    ensures path { IsOnPathOf arena.now (caller_of pass.old) place pass.new result }
    ensures above { (result.parent ≡ None) ⊎ (result.parent ≡ Some path.node) }
    ensures stretch { IsStretch pass.old pass.new }
{
    let held = let_go(arena, pass, gate, place, path);
    let below = step_down(rt, arena, pass, gate, place, held, child);
    settle(arena, pass, gate, place, below)
}

/// Goes on to the child. A full branch is split before, if there is a way and a claim is not refused: then the search
/// looks again. Returns whether a claim was refused, since no node was found free.
#[inline(always)]
fn go_on<N: Unlinked, R: Wait, G: Gate>(
    rt: &R,
    arena: &Arena<N, Tree>,
    pass: &mut Pass<N, Tree>,
    gate: &G,
    place: u64,
    path: Path<N>,
    child: u32,
) -> (Path<N>, bool)
    requires pass { IsPassOf arena.now pass.old }
    requires path { IsOnPathOf arena.now (caller_of pass.old) place pass.old path }
    requires goes { next_at (N.body path.node.body) place ≡ Go child }
    ensures pass { IsPassOf arena.now pass.new }
    ensures caller { SameCaller pass.old pass.new }
    ensures fills { OnlyFills N.layout N.ranged place pass.old pass.new }
    ensures path { IsOnPathOf arena.now (caller_of pass.old) place pass.new result.0 }
    ensures stretch { IsStretch pass.old pass.new }
    ensures refused { IsTrue result.1 → NoneWasFree arena.now place pass.old pass.new }
    ensures eased { result.1 ≡ false → (AllGrow arena.now → IsEased N.layout N.body path) →
        AllGrow arena.now → IsEased N.layout N.body result.0 }
{
    unlinked_law::<N>();
    node_law(&path.node.body);
    if !path.node.body.is_branch() {
        return (down(rt, arena, pass, gate, place, path, child), false);
    }
    if !path.node.body.is_full() {
        return (down(rt, arena, pass, gate, place, path, child), false);
    }
    match split(arena, pass, gate, place, path) {
        Part::Split(path) => (path, false),
        Part::Refused(path) => (down(rt, arena, pass, gate, place, path, child), true),
        Part::Shut(path) => (down(rt, arena, pass, gate, place, path, child), false),
    }
}

/// Releases the parent of the node where the search ends.
#[inline(always)]
pub(crate) fn come_to_end<N: Unlinked, G: Gate>(
    arena: &Arena<N, Tree>,
    pass: &mut Pass<N, Tree>,
    gate: &G,
    place: u64,
    path: Path<N>,
) -> Held<N>
    requires pass { IsPassOf arena.now pass.old }
    requires path { IsOnPathOf arena.now (caller_of pass.old) place pass.old path }
    requires here { next_at (N.body path.node.body) place ≡ Here }
    ensures pass { IsPassOf arena.now pass.new }
    ensures caller { SameCaller pass.old pass.new }
    ensures leaves { OnlySearches pass.old pass.new }
    ensures node { result ≡ path.node }
    ensures ends { SearchEndsAt arena.now place pass.new result }
    ensures stretch { IsStretch pass.old pass.new }
{
    let held = let_go(arena, pass, gate, place, path);
    tree_end_law(arena, pass, &held, place);
    held
}

/// Takes the node at which the search for a place ends, and holds no other: it has the place, or room for it. `Err`: it
/// is full, lacks the place, and no node was found free. It splits full branches on the search path, and at its end a
/// full node that lacks the place, where there is a way and a claim succeeds. It does not notify the gate that a call
/// begins.
pub fn make_room<N: Unlinked, R: Wait, G: Gate>(
    rt: &R,
    arena: &Arena<N, Tree>,
    pass: &mut Pass<N, Tree>,
    gate: &G,
    place: u64,
) -> Result<Held<N>, Held<N>>
    requires pass { IsEmptyPassOf arena.now pass.old }
    ensures pass { IsPassOf arena.now pass.new }
    ensures caller { SameCaller pass.old pass.new }
    ensures fills { OnlyFills N.layout N.ranged place pass.old pass.new }
    ensures room { CameToRoom arena.now place pass.old pass.new result }
    ensures stretch { IsStretch pass.old pass.new }
{
    search_law();
    let mut path = come_to_full(rt, arena, pass, gate, place);
    let mut refused = false;
    for _ in rt.forever() {
        match path.node.body.next(place) {
            Next::Go(child) => {
                let (next, was) = go_on(rt, arena, pass, gate, place, path, child);
                path = next;
                refused = refused || was;
            }
            Next::Here => {
                node_law(&path.node.body);
                if has_room(&path.node, place) {
                    return Ok(come_to_end(arena, pass, gate, place, path));
                }
                match split(arena, pass, gate, place, path) {
                    Part::Split(half) => path = half,
                    Part::Refused(whole) => {
                        return Err(come_to_end(arena, pass, gate, place, whole));
                    }
                    Part::Shut(whole) => {
                        if !refused {
                            unreachable!()
                        }
                        return Err(come_to_end(arena, pass, gate, place, whole));
                    }
                }
            }
        }
    }
    unreachable!()
}

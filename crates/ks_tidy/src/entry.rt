//! How a descent begins: it reads the nodes from the root down where they lie, and takes out bodies only once there is
//! something to merge, or the search ends.
ghost use Rattle.std.specs.Prelude.{◌≡◌, IfErr, IfOk};
ghost use Rattle.ks_node.specs.declared.start.Next.TheVariants.{Go};
ghost use Rattle.ks_node.specs.Body.{next_at};
ghost use Rattle.ks_arena.specs.Of.{IsEmptyPassOf, IsPassOf, SameCaller, caller_of};
ghost use Rattle.ks_arena.specs.Visits.{held_at, LiesInSlot};
ghost use Rattle.ks_shape.specs.Does.{OnlySearches};
ghost use Rattle.ks_shape.specs.Of.{IsOnWayOf, IsStretch};
ghost use Rattle.ks_tidy.specs.Of.{IsPairOf, MakesFree};
ghost use Rattle.ks_tidy.specs.Pair.{IsWhole};

use ks_arena::{Arena, Pass, Visited};
use ks_flow::Tree;
use ks_gate::Gate;
use ks_node::{Next, Unlinked};
use ks_shape::{Path, leave_above, lift_path, visit_below, visit_root};
use std::sync::Wait;

/// A visited node, and its child to which the search goes on.
struct Onward<N> {
    visited: Visited<N>,
    child: u32,
}

/// Takes the child of a visited node, and releases the node. `Err`: the child is low, or the search ends at it, or it is the
/// `sole` child of the node, as the caller says; then the node stays as its parent, and the bodies of both were taken out of
/// their slots.
#[inline(always)]
fn go_below<N: Unlinked, R: Wait, G: Gate>(
    rt: &R,
    arena: &Arena<N, Tree>,
    pass: &mut Pass<N, Tree>,
    gate: &G,
    place: u64,
    sole: bool,
    onward: Onward<N>,
) -> Result<Onward<N>, Path<N>>
    requires pass { IsPassOf arena.now pass.old }
    requires lies { LiesInSlot pass.old onward.visited }
    requires way { IsOnWayOf arena.now (caller_of pass.old) place pass.old (held_at onward.visited) }
    requires goes { next_at (N.body onward.visited.body.value) place ≡ Go onward.child }
    ensures pass { IsPassOf arena.now pass.new }
    ensures caller { SameCaller pass.old pass.new }
    ensures leaves { OnlySearches pass.old pass.new }
    ensures stretch { IsStretch pass.old pass.new }
    ensures lies { IfOk result (λ on. LiesInSlot pass.new on.visited) }
    ensures way { IfOk result (λ on. IsOnWayOf arena.now (caller_of pass.old) place pass.new (held_at on.visited)) }
    ensures goes { IfOk result (λ on. next_at (N.body on.visited.body.value) place ≡ Go on.child) }
    ensures pair { IfErr result (IsPairOf arena.now (caller_of pass.old) place pass.new) }
    ensures whole { IfErr result IsWhole }
{
    let Onward { visited, child } = onward;
    let below = visit_below(rt, arena, pass, gate, place, &visited, child);
    if sole {
        return Err(lift_path(arena, pass, visited, below));
    }
    if arena.is_low(pass, &below) {
        return Err(lift_path(arena, pass, visited, below));
    }
    match arena.next(pass, &below, place) {
        Next::Here => Err(lift_path(arena, pass, visited, below)),
        Next::Go(next) => {
            leave_above(arena, pass, gate, place, visited, &below);
            Ok(Onward {
                visited: below,
                child: next,
            })
        }
    }
}

/// Goes down from a visited node, and reads each node in its slot, until there is something to merge, or the search ends.
#[inline(always)]
fn go_down_in_slots<N: Unlinked, R: Wait, G: Gate>(
    rt: &R,
    arena: &Arena<N, Tree>,
    pass: &mut Pass<N, Tree>,
    gate: &G,
    place: u64,
    onward: Onward<N>,
) -> Path<N>
    requires pass { IsPassOf arena.now pass.old }
    requires lies { LiesInSlot pass.old onward.visited }
    requires way { IsOnWayOf arena.now (caller_of pass.old) place pass.old (held_at onward.visited) }
    requires goes { next_at (N.body onward.visited.body.value) place ≡ Go onward.child }
    ensures pass { IsPassOf arena.now pass.new }
    ensures caller { SameCaller pass.old pass.new }
    ensures leaves { OnlySearches pass.old pass.new }
    ensures stretch { IsStretch pass.old pass.new }
    ensures pair { IsPairOf arena.now (caller_of pass.old) place pass.new result }
    ensures whole { IsWhole result }
{
    let mut onward = onward;
    for _ in rt.forever() {
        let sole = arena.only_child(pass, &onward.visited).is_some();
        match go_below(rt, arena, pass, gate, place, sole, onward) {
            Ok(next) => onward = next,
            Err(path) => return path,
        }
    }
    unreachable!()
}

/// Comes from the root to the first node at which there is something to merge, or to the end of the search; it reads each
/// node before in its slot. It holds the parent too, unless the search ends at the root. It does not notify the gate that a
/// call begins.
#[inline(always)]
pub(crate) fn descend<N: Unlinked, R: Wait, G: Gate>(
    rt: &R,
    arena: &Arena<N, Tree>,
    pass: &mut Pass<N, Tree>,
    gate: &G,
    place: u64,
) -> Path<N>
    requires pass { IsEmptyPassOf arena.now pass.old }
    ensures pass { IsPassOf arena.now pass.new }
    ensures caller { SameCaller pass.old pass.new }
    ensures leaves { OnlySearches pass.old pass.new }
    ensures pair { IsPairOf arena.now (caller_of pass.old) place pass.new result }
    ensures stretch { IsStretch pass.old pass.new }
    ensures frees { MakesFree 0 pass.old pass.new }
    ensures whole { IsWhole result }
{
    let root = visit_root(rt, arena, pass, gate, place);
    match arena.next(pass, &root, place) {
        Next::Here => Path {
            parent: None,
            node: arena.lift(pass, root),
        },
        Next::Go(child) => {
            let onward = Onward {
                visited: root,
                child,
            };
            go_down_in_slots(rt, arena, pass, gate, place, onward)
        }
    }
}

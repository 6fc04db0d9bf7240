//! Compaction: walks from the root to place after place, which merge at each node that they meet.
ghost use Rattle.std.specs.Prelude.{◌≡◌, ◌≤◌, suc};
ghost use Rattle.ks_flow.specs.Tight.{EndsRun};
ghost use Rattle.ks_history.specs.Done.{Template};
ghost use Rattle.ks_node.specs.Edges.{record_of};
ghost use Rattle.ks_arena.specs.Of.{IsEmptyPassOf, IsPassOf, SameCaller, caller_of};
ghost use Rattle.ks_shape.specs.Of.{IsStretch};
ghost use Rattle.ks_shape.specs.Compacts.{HasFreed, HasLeftBy, IsTightOf, WasUndisturbed};
ghost use Rattle.ks_tidy.specs.Compacts.{FitsNone, IsNotSole, IsPairOf, IsTightBefore};
ghost use Rattle.ks_tidy.specs.Pair.{IsWhole};

use crate::descent::{go_down, leave};
use crate::node::{Tidied, tidy_node};
use ks_arena::{Arena, Pass};
use ks_bodies::{run_end, tests_law};
use ks_flow::{Tree, tight_law};
use ks_gate::Gate;
use ks_node::{Next, Unlinked, node_law, unlinked_law};
use ks_shape::{Path, enter, search_law};
use std::sync::Wait;

/// Where a walk is after it merged at a node, how many nodes that made free, and the last place that takes the same
/// path as the walk's.
struct Visited<N> {
    path: Path<N>,
    freed: u32,
    end: u64,
}

/// How many nodes a walk made free, and the last place of the keyset in which it ended.
#[derive(Drop)]
struct Walked {
    freed: u32,
    end: u64,
}

/// Merges at the node of a path, low or not, until nothing is left to merge there. Returns the last place up to
/// which all take the path of this one.
fn visit<N: Unlinked, R: Wait, G: Gate>(
    rt: &R,
    arena: &Arena<N, Tree>,
    pass: &mut Pass<N, Tree>,
    gate: &G,
    place: u64,
    last: u64,
    path: Path<N>,
) -> Visited<N>
    requires pass { IsPassOf arena.now pass.old }
    requires pair { IsPairOf arena.now (caller_of pass.old) place pass.old path }
    requires upto { place ≤ last }
    ensures pass { IsPassOf arena.now pass.new }
    ensures caller { SameCaller pass.old pass.new }
    ensures pair { IsPairOf arena.now (caller_of pass.old) place pass.new result.path }
    ensures stretch { IsStretch pass.old pass.new }
    ensures counts { HasFreed pass.old pass.new result.freed }
    ensures same { WasUndisturbed pass.old pass.new → result.path ≡ path }
    ensures no_sole { IsNotSole arena.now result.path }
    ensures fits { IsWhole result.path → WasUndisturbed pass.old pass.new →
        FitsNone arena.now pass.new result.path.node.node }
    ensures run { EndsRun (record_of (N.body result.path.node.body)) place last result.end }
{
    let Tidied {
        path,
        freed,
        again: _,
    } = tidy_node(rt, arena, pass, gate, place, true, path);
    let end = run_end(&path.node.body, place, last);
    Visited { path, freed, end }
}

/// Walks from the root to the node whose keyset holds the place, merges at each node on the path, and releases all.
fn walk<N: Unlinked, R: Wait, G: Gate>(
    rt: &R,
    arena: &Arena<N, Tree>,
    pass: &mut Pass<N, Tree>,
    gate: &G,
    place: u64,
) -> Walked
    requires pass { IsEmptyPassOf arena.now pass.old }
    ensures pass { IsEmptyPassOf arena.now pass.new }
    ensures caller { SameCaller pass.old pass.new }
    ensures stretch { IsStretch pass.old pass.new }
    ensures counts { HasFreed pass.old pass.new result.freed }
    ensures upto { place ≤ result.end }
    ensures tight { WasUndisturbed pass.old pass.new → IsTightBefore arena.now place pass.old →
        IsTightBefore arena.now (suc result.end) pass.new }
{
    search_law();
    tests_law();
    tight_law();
    unlinked_law::<N>();
    let mut path = enter(rt, arena, pass, gate, place);
    let mut end = u64::MAX;
    let mut freed: u32 = 0;
    for _ in rt.forever() {
        let Visited {
            path: here,
            freed: more,
            end: upto,
        } = visit(rt, arena, pass, gate, place, end, path);
        end = upto;
        freed = freed.wrapping_add(more);
        node_law(&here.node.body);
        match here.node.body.next(place) {
            Next::Go(child) => path = go_down(rt, arena, pass, gate, place, here, child),
            Next::Here => {
                leave(arena, pass, gate, place, here);
                return Walked { freed, end };
            }
        }
    }
    unreachable!()
}

/// Merges what fits, all over the graph: it walks to place after place, each just past the keyset in which the walk
/// before it ended, and merges at each node that it meets, low or not. Returns how many nodes it made free, modulo
/// 2^32. It makes no call of the history and claims nothing. If no other caller acted and it made no node free, the
/// graph is tight. It does not notify the gate that a call begins.
pub fn pair_compact<N: Unlinked, R: Wait, G: Gate>(
    rt: &R,
    arena: &Arena<N, Tree>,
    pass: &mut Pass<N, Tree>,
    gate: &G,
) -> u32
    requires pass { IsEmptyPassOf arena.now pass.old }
    ensures pass { IsEmptyPassOf arena.now pass.new }
    ensures caller { SameCaller pass.old pass.new }
    ensures left { (template : Template) → HasLeftBy template pass.old pass.new }
    ensures frees { HasFreed pass.old pass.new result }
    ensures tight { WasUndisturbed pass.old pass.new → IsTightOf arena.now pass.new }
{
    search_law();
    tight_law();
    let mut place: u64 = 0;
    let mut freed: u32 = 0;
    for _ in rt.forever() {
        let walked = walk(rt, arena, pass, gate, place);
        freed = freed.wrapping_add(walked.freed);
        if walked.end == u64::MAX {
            return freed;
        }
        place = walked.end + 1;
    }
    unreachable!()
}

//! Non-blocking merging: it leaves a right neighbour that another caller holds, and ends at such a node on the path.
ghost use Rattle.std.specs.Prelude.{◌≡◌};
ghost use Rattle.ks_history.specs.declared.Op.TheVariants.{Del};
ghost use Rattle.ks_history.specs.Map.{told};
ghost use Rattle.ks_node.specs.declared.start.Next.TheVariants.{Go};
ghost use Rattle.ks_node.specs.Body.{next_at};
ghost use Rattle.ks_arena.specs.Of.{IsEmptyPassOf, IsPassOf, SeesOn, SameCaller, caller_of};
ghost use Rattle.ks_shape.specs.Of.{FinishesAny, IsStretch, SearchEndsAt};
ghost use Rattle.ks_tidy.specs.Of.{CountsFree, IsPairOf, MakesFree, StandsOrLeft};
ghost use Rattle.ks_shape.specs.Does.{OnlyDels, OnlySearches};

use crate::deletes::delete;
use crate::descent::leave;
use crate::step::Step;
use crate::try_step::try_tidy_once;
use ks_arena::{Arena, Held, Pass};
use ks_flow::Tree;
use ks_gate::{Gate, Point};
use ks_node::{Next, Node, Unlinked};
use ks_shape::{Numbered, Path, let_go, search_law, try_enter, try_step_down};

/// Where a search is after tries to merge, and how many nodes they made free, modulo 2^32.
struct Tried<N> {
    path: Path<N>,
    freed: u32,
}

/// Whether a search merges at a node: it is a branch, or the search ends there.
fn merges_at<N: Node>(node: &Held<N>, place: u64) -> bool {
    if node.body.is_branch() {
        return true;
    }
    match node.body.next(place) {
        Next::Here => true,
        Next::Go(_) => false,
    }
}

/// Merges at the node of a path, if it is a branch, or the search ends there: while it is low, by tries, at most as often
/// as the arena has nodes.
fn try_tidy_at<N: Unlinked, G: Gate>(
    arena: &Arena<N, Tree>,
    pass: &mut Pass<N, Tree>,
    gate: &G,
    place: u64,
    path: Path<N>,
) -> Tried<N>
    requires pass { IsPassOf arena.now pass.old }
    requires pair { IsPairOf arena.now (caller_of pass.old) place pass.old path }
    ensures pass { IsPassOf arena.now pass.new }
    ensures caller { SameCaller pass.old pass.new }
    ensures dels { OnlyDels N.layout N.ranged pass.old pass.new }
    ensures pair { IsPairOf arena.now (caller_of pass.old) place pass.new result.path }
    ensures stretch { IsStretch pass.old pass.new }
    ensures counts { CountsFree result.freed pass.old pass.new }
{
    if !merges_at(&path.node, place) {
        return Tried { path, freed: 0 };
    }
    let mut path = path;
    let mut freed: u32 = 0;
    for _tries in 0..arena.nodes() {
        match try_tidy_once(arena, pass, gate, place, path) {
            Step::Freed(next) => {
                path = next;
                freed = freed.wrapping_add(1);
            }
            Step::Rests(rest) => return Tried { path: rest, freed },
        }
    }
    Tried { path, freed }
}

/// Releases the parent, if there is one, and takes the child to which the search goes on; the node becomes its parent.
/// If another caller holds the child, all is released.
fn try_go_down<N: Unlinked, G: Gate>(
    arena: &Arena<N, Tree>,
    pass: &mut Pass<N, Tree>,
    gate: &G,
    place: u64,
    path: Path<N>,
    child: u32,
) -> Option<Path<N>>
    requires pass { IsPassOf arena.now pass.old }
    requires pair { IsPairOf arena.now (caller_of pass.old) place pass.old path }
    requires goes { next_at (N.body path.node.body) place ≡ Go child }
    ensures pass { IsPassOf arena.now pass.new }
    ensures caller { SameCaller pass.old pass.new }
    ensures leaves { OnlySearches pass.old pass.new }
    ensures came { StandsOrLeft arena.now (caller_of pass.old) place pass.new result }
    ensures stretch { IsStretch pass.old pass.new }
    ensures frees { MakesFree 0 pass.old pass.new }
{
    let node = let_go(arena, pass, gate, place, path);
    match try_step_down(arena, pass, gate, place, node, child) {
        Ok(below) => Some(below),
        Err(_) => None,
    }
}

/// Merges for a place, as one descent of `pair_tidy` does, but without waiting: a right neighbour that another caller
/// holds is left as it is, and a node on the path that another holds ends it. On the path it takes at most as many nodes
/// as the arena has. Returns how many nodes it made free, modulo 2^32. It makes no call of the history, and does not
/// notify the gate that one begins.
pub fn try_pair_tidy<N: Unlinked, G: Gate>(
    arena: &Arena<N, Tree>,
    pass: &mut Pass<N, Tree>,
    gate: &G,
    place: u64,
) -> u32
    requires pass { IsEmptyPassOf arena.now pass.old }
    ensures pass { IsEmptyPassOf arena.now pass.new }
    ensures caller { SameCaller pass.old pass.new }
    ensures dels { OnlyDels N.layout N.ranged pass.old pass.new }
    ensures stretch { IsStretch pass.old pass.new }
    ensures counts { CountsFree result pass.old pass.new }
{
    let mut path = match try_enter(arena, pass, gate, place) {
        Ok(root) => root,
        Err(_) => return 0,
    };
    let mut freed: u32 = 0;
    for _steps in 1..arena.nodes() {
        let Tried {
            path: tidied,
            freed: more,
        } = try_tidy_at(arena, pass, gate, place, path);
        freed = freed.wrapping_add(more);
        match tidied.node.body.next(place) {
            Next::Here => {
                leave(arena, pass, gate, place, tidied);
                return freed;
            }
            Next::Go(child) => match try_go_down(arena, pass, gate, place, tidied, child) {
                Some(below) => path = below,
                None => return freed,
            },
        }
    }
    leave(arena, pass, gate, place, path);
    freed
}

/// Deletes what is at a place, as `del_alone` does, but without waiting: after the call it merges as `try_pair_tidy`.
pub fn try_del_alone<N: Unlinked, G: Gate>(
    arena: &Arena<N, Tree>,
    pass: &mut Pass<N, Tree>,
    gate: &G,
    place: u64,
    mut held: Held<N>,
) -> Numbered
    requires pass { IsPassOf arena.now pass.old }
    requires ends { SearchEndsAt arena.now place pass.old held }
    ensures pass { IsEmptyPassOf arena.now pass.new }
    ensures caller { SameCaller pass.old pass.new }
    ensures dels { OnlyDels N.layout N.ranged pass.old pass.new }
    ensures begins { SeesOn pass.old pass.new }
    ensures done { FinishesAny arena.now (Del place) pass.old pass.new (told result.found) result.number }
{
    search_law();
    let answer = delete(arena, pass, gate, place, &mut held);
    let low = held.body.is_low();
    let node = held.node;
    arena.give(pass, held);
    gate.at(pass.caller(), Point::Given(node));
    if answer.found.is_none() {
        return answer;
    }
    if low {
        try_pair_tidy(arena, pass, gate, place);
        return answer;
    }
    answer
}

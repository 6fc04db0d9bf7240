//! The descent from the root to the node where a search ends, which merges nodes as it goes. A node that took over its
//! child below the root has its neighbours beyond a parent that is not held, so if nodes grow in place another descent
//! follows each that made one free.
ghost use Rattle.std.specs.Prelude.{◌≡◌, ◌||◌, IsTrue, Some, false};
ghost use Rattle.ks_node.specs.declared.start.Next.TheVariants.{Go, Here};
ghost use Rattle.ks_node.specs.Body.{next_at};
ghost use Rattle.ks_node.specs.Room.{in_place};
ghost use Rattle.ks_arena.specs.Of.{IsEmptyPassOf, IsPassOf, WasAlone, SameCaller, caller_of};
ghost use Rattle.ks_shape.specs.Of.{IsStretch};
ghost use Rattle.ks_tidy.specs.Of.{CountsFree, IsKeptAt, IsPairOf, IsTidyOf, MakesFree, MustComeAgain};
ghost use Rattle.ks_tidy.specs.Pair.{IsWhole};
ghost use Rattle.ks_shape.specs.Does.{OnlyDels, OnlySearches};

use crate::entry::descend;
use crate::node::{Tidied, tidy_node};
use ks_arena::{Arena, Pass};
use ks_bodies::tidied_law;
use ks_flow::{Tree, tidy_law};
use ks_gate::{Gate, Point};
use ks_node::{Next, Node, Unlinked, node_law, unlinked_law};
use ks_shape::{Path, let_go, search_law, step_down};
use std::sync::Wait;

/// How many nodes were made free, modulo 2^32, and whether another descent has to follow.
#[derive(Drop)]
pub struct Ended {
    pub freed: u32,
    pub again: bool,
}

/// Releases the parent, if there is one, and takes the child to which the search goes on; the node becomes its parent.
#[inline(always)]
pub fn go_down<N: Unlinked, R: Wait, G: Gate>(
    rt: &R,
    arena: &Arena<N, Tree>,
    pass: &mut Pass<N, Tree>,
    gate: &G,
    place: u64,
    path: Path<N>,
    child: u32,
) -> Path<N>
    requires pass { IsPassOf arena.now pass.old }
    requires pair { IsPairOf arena.now (caller_of pass.old) place pass.old path }
    requires goes { next_at (N.body path.node.body) place ≡ Go child }
    ensures pass { IsPassOf arena.now pass.new }
    ensures caller { SameCaller pass.old pass.new }
    ensures leaves { OnlySearches pass.old pass.new }
    ensures pair { IsPairOf arena.now (caller_of pass.old) place pass.new result }
    ensures parent { result.parent ≡ Some path.node }
    ensures child { result.node.node ≡ child }
    ensures stretch { IsStretch pass.old pass.new }
    ensures frees { MakesFree 0 pass.old pass.new }
{
    let node = let_go(arena, pass, gate, place, path);
    step_down(rt, arena, pass, gate, place, node, child)
}

/// Releases the node of a path, and its parent.
#[inline(always)]
pub fn leave<N: Unlinked, G: Gate>(
    arena: &Arena<N, Tree>,
    pass: &mut Pass<N, Tree>,
    gate: &G,
    place: u64,
    path: Path<N>,
)
    requires pass { IsPassOf arena.now pass.old }
    requires pair { IsPairOf arena.now (caller_of pass.old) place pass.old path }
    ensures pass { IsEmptyPassOf arena.now pass.new }
    ensures caller { SameCaller pass.old pass.new }
    ensures leaves { OnlySearches pass.old pass.new }
    ensures stretch { IsStretch pass.old pass.new }
    ensures frees { MakesFree 0 pass.old pass.new }
{
    search_law();
    let node = let_go(arena, pass, gate, place, path);
    let number = node.node;
    arena.give(pass, node);
    gate.at(pass.caller(), Point::Given(number));
}

/// Whether another descent has to follow one of two pieces of work.
#[inline(always)]
fn either(again: bool, more: bool) -> bool
    ensures { result ≡ (again || more) }
{
    again || more
}

/// Merges at the node of a path, if it is a branch.
#[inline(always)]
fn tidy_branch<N: Unlinked, R: Wait, G: Gate>(
    rt: &R,
    arena: &Arena<N, Tree>,
    pass: &mut Pass<N, Tree>,
    gate: &G,
    place: u64,
    path: Path<N>,
) -> Tidied<N>
    requires pass { IsPassOf arena.now pass.old }
    requires pair { IsPairOf arena.now (caller_of pass.old) place pass.old path }
    ensures pass { IsPassOf arena.now pass.new }
    ensures caller { SameCaller pass.old pass.new }
    ensures dels { OnlyDels N.layout N.ranged pass.old pass.new }
    ensures pair { IsPairOf arena.now (caller_of pass.old) place pass.new result.path }
    ensures stretch { IsStretch pass.old pass.new }
    ensures counts { CountsFree result.freed pass.old pass.new }
    ensures again { MustComeAgain arena.now result.again pass.old pass.new }
    ensures rests { result.again ≡ false → IsTrue (in_place N.layout) → result.path ≡ path }
{
    if path.node.body.is_branch() {
        return tidy_node(rt, arena, pass, gate, place, false, path);
    }
    Tidied {
        path,
        freed: 0,
        again: false,
    }
}

/// Comes to the node at which the search for a place ends; it merges low branches on the path, and lets the root, or
/// any branch that grows in place, take over its only child. It holds the parent of the node too, unless the node is the
/// root, or `again` is true. It does not notify the gate that a call begins.
pub fn come_down<N: Unlinked, R: Wait, G: Gate>(
    rt: &R,
    arena: &Arena<N, Tree>,
    pass: &mut Pass<N, Tree>,
    gate: &G,
    place: u64,
) -> Tidied<N>
    requires pass { IsEmptyPassOf arena.now pass.old }
    ensures pass { IsPassOf arena.now pass.new }
    ensures caller { SameCaller pass.old pass.new }
    ensures dels { OnlyDels N.layout N.ranged pass.old pass.new }
    ensures pair { IsPairOf arena.now (caller_of pass.old) place pass.new result.path }
    ensures ends { next_at (N.body result.path.node.body) place ≡ Here }
    ensures stretch { IsStretch pass.old pass.new }
    ensures counts { CountsFree result.freed pass.old pass.new }
    ensures again { MustComeAgain arena.now result.again pass.old pass.new }
    ensures whole { result.again ≡ false → IsWhole result.path }
{
    let mut path = descend(rt, arena, pass, gate, place);
    let mut freed: u32 = 0;
    let mut again = false;
    for _ in rt.forever() {
        let Tidied {
            path: tidied,
            freed: more,
            again: more_again,
        } = tidy_branch(rt, arena, pass, gate, place, path);
        path = tidied;
        freed = freed.wrapping_add(more);
        again = either(again, more_again);
        match path.node.body.next(place) {
            Next::Here => return Tidied { path, freed, again },
            Next::Go(child) => path = go_down(rt, arena, pass, gate, place, path, child),
        }
    }
    unreachable!()
}

/// Merges at the node of a path, whose keyset holds the place, and releases all. If no other caller acted, the node whose
/// keyset then holds the place is not low, or fits with no right neighbour; if nodes grow in place, only if the node had
/// its parent held or was the root, and no other descent has to follow.
pub fn tidy_end<N: Unlinked, R: Wait, G: Gate>(
    rt: &R,
    arena: &Arena<N, Tree>,
    pass: &mut Pass<N, Tree>,
    gate: &G,
    place: u64,
    path: Path<N>,
) -> Ended
    requires pass { IsPassOf arena.now pass.old }
    requires pair { IsPairOf arena.now (caller_of pass.old) place pass.old path }
    requires ends { IsKeptAt pass.old path.node.node place }
    ensures pass { IsEmptyPassOf arena.now pass.new }
    ensures caller { SameCaller pass.old pass.new }
    ensures dels { OnlyDels N.layout N.ranged pass.old pass.new }
    ensures stretch { IsStretch pass.old pass.new }
    ensures counts { CountsFree result.freed pass.old pass.new }
    ensures again { MustComeAgain arena.now result.again pass.old pass.new }
    ensures tidy { (IsTrue (in_place N.layout) → IsWhole path × (result.again ≡ false)) → WasAlone pass.old pass.new →
        IsTidyOf arena.now pass.new place }
{
    search_law();
    tidied_law();
    tidy_law();
    unlinked_law::<N>();
    let Tidied { path, freed, again } = tidy_node(rt, arena, pass, gate, place, false, path);
    node_law(&path.node.body);
    leave(arena, pass, gate, place, path);
    Ended { freed, again }
}

/// Whether another descent has to follow, if those before it said `again`. The compiler knows the answer for a type that
/// does not grow in place, and so leaves out the descents that would follow.
#[inline(always)]
fn comes_again<N: Node>(again: bool) -> bool
    ensures ends { result ≡ false → IsTrue (in_place N.layout) → again ≡ false }
    ensures again { IsTrue result → IsTrue (in_place N.layout) × IsTrue again }
{
    N::grows_in_place() && again
}

/// One descent that merges for a place, as `pair_tidy` does. If the type grows in place and it made a node free, another
/// has to follow.
fn sweep<N: Unlinked, R: Wait, G: Gate>(
    rt: &R,
    arena: &Arena<N, Tree>,
    pass: &mut Pass<N, Tree>,
    gate: &G,
    place: u64,
) -> Ended
    requires pass { IsEmptyPassOf arena.now pass.old }
    ensures pass { IsEmptyPassOf arena.now pass.new }
    ensures caller { SameCaller pass.old pass.new }
    ensures dels { OnlyDels N.layout N.ranged pass.old pass.new }
    ensures stretch { IsStretch pass.old pass.new }
    ensures counts { CountsFree result.freed pass.old pass.new }
    ensures again { MustComeAgain arena.now result.again pass.old pass.new }
    ensures tidy { (IsTrue (in_place N.layout) → result.again ≡ false) → WasAlone pass.old pass.new →
        IsTidyOf arena.now pass.new place }
{
    let Tidied { path, freed, again } = come_down(rt, arena, pass, gate, place);
    node_law(&path.node.body);
    let ended = tidy_end(rt, arena, pass, gate, place, path);
    Ended {
        freed: freed.wrapping_add(ended.freed),
        again: either(again, ended.again),
    }
}

/// Merges for a place: low branches on the path to the node whose keyset holds it, and that node, if it is low. If the
/// type grows in place, it descends again until a descent makes no node free. Returns how many nodes it made free, modulo
/// 2^32. If no other caller acted, the node whose keyset holds the place is then not low, or fits with no right neighbour.
/// It makes no call of the history, and does not notify the gate that one begins.
pub fn pair_tidy<N: Unlinked, R: Wait, G: Gate>(
    rt: &R,
    arena: &Arena<N, Tree>,
    pass: &mut Pass<N, Tree>,
    gate: &G,
    place: u64,
) -> u32
    requires pass { IsEmptyPassOf arena.now pass.old }
    ensures pass { IsEmptyPassOf arena.now pass.new }
    ensures caller { SameCaller pass.old pass.new }
    ensures dels { OnlyDels N.layout N.ranged pass.old pass.new }
    ensures stretch { IsStretch pass.old pass.new }
    ensures counts { CountsFree result pass.old pass.new }
    ensures tidy { WasAlone pass.old pass.new → IsTidyOf arena.now pass.new place }
{
    let mut freed: u32 = 0;
    for _ in rt.forever() {
        let swept = sweep(rt, arena, pass, gate, place);
        freed = freed.wrapping_add(swept.freed);
        if !comes_again::<N>(swept.again) {
            return freed;
        }
    }
    unreachable!()
}

/// Merges at the node of a path, whose keyset holds the place, after a search which another has to follow or not, and
/// releases all. If nodes grow in place, and another has to follow that search or this merging, it goes on as `pair_tidy`.
pub(crate) fn tidy_on<N: Unlinked, R: Wait, G: Gate>(
    rt: &R,
    arena: &Arena<N, Tree>,
    pass: &mut Pass<N, Tree>,
    gate: &G,
    place: u64,
    again: bool,
    path: Path<N>,
)
    requires pass { IsPassOf arena.now pass.old }
    requires pair { IsPairOf arena.now (caller_of pass.old) place pass.old path }
    requires ends { IsKeptAt pass.old path.node.node place }
    requires whole { again ≡ false → IsWhole path }
    ensures pass { IsEmptyPassOf arena.now pass.new }
    ensures caller { SameCaller pass.old pass.new }
    ensures dels { OnlyDels N.layout N.ranged pass.old pass.new }
    ensures stretch { IsStretch pass.old pass.new }
    ensures tidy { WasAlone pass.old pass.new → IsTidyOf arena.now pass.new place }
{
    let ended = tidy_end(rt, arena, pass, gate, place, path);
    if comes_again::<N>(either(again, ended.again)) {
        pair_tidy(rt, arena, pass, gate, place);
        return;
    }
}

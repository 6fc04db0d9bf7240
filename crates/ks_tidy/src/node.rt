//! Merging at one node until nothing is left to merge.
ghost use Rattle.std.specs.Prelude.{◌≡◌, ◌⊎◌, IsTrue, false};
ghost use Rattle.ks_node.specs.Room.{in_place, is_low};
ghost use Rattle.ks_arena.specs.Of.{IsPassOf, SameCaller, caller_of};
ghost use Rattle.ks_shape.specs.Of.{HasPlaces, IsStretch};
ghost use Rattle.ks_tidy.specs.Of.{CountsFree, FitsNoneAlone, HasNoSole, IsPairOf, MustComeAgain, WasUndisturbed};
ghost use Rattle.ks_tidy.specs.Pair.{IsWhole};
ghost use Rattle.ks_shape.specs.Does.{OnlyDels};

use crate::step::{Step, tidy_once};
use ks_arena::{Arena, Pass};
use ks_flow::Tree;
use ks_gate::Gate;
use ks_node::Unlinked;
use ks_shape::Path;
use std::sync::Wait;

/// Where a search is after it merged nodes, how many it made free, modulo 2^32, and whether the type grows in place and it
/// made one free, so that another search has to follow.
pub struct Tidied<N> {
    pub path: Path<N>,
    pub freed: u32,
    pub again: bool,
}

/// Merges at the node of a path until nothing is left to merge there: while the node is low, or, if the work is
/// thorough, while anything fits. The node of the path, which may be the root, then has what the node had; if that took
/// over its child below the root, the path is without its parent, and what is right of the node is not tested.
#[inline(always)]
pub fn tidy_node<N: Unlinked, R: Wait, G: Gate>(
    rt: &R,
    arena: &Arena<N, Tree>,
    pass: &mut Pass<N, Tree>,
    gate: &G,
    place: u64,
    thorough: bool,
    path: Path<N>,
) -> Tidied<N>
    requires pass { IsPassOf arena.now pass.old }
    requires pair { IsPairOf arena.now (caller_of pass.old) place pass.old path }
    ensures pass { IsPassOf arena.now pass.new }
    ensures caller { SameCaller pass.old pass.new }
    ensures dels { thorough ≡ false → OnlyDels N.layout N.ranged pass.old pass.new }
    ensures pair { IsPairOf arena.now (caller_of pass.old) place pass.new result.path }
    ensures places { HasPlaces path.node.node result.path.node.node pass.old pass.new }
    ensures stretch { IsStretch pass.old pass.new }
    ensures counts { CountsFree result.freed pass.old pass.new }
    ensures again { MustComeAgain arena.now result.again pass.old pass.new }
    ensures same { WasUndisturbed pass.old pass.new → result.path ≡ path }
    ensures rests { result.again ≡ false → IsTrue (in_place N.layout) → result.path ≡ path }
    ensures no_sole { HasNoSole arena.now result.path.parent }
    ensures tested { IsWhole result.path → IsTrue thorough ⊎ IsTrue (is_low N.layout (N.body result.path.node.body)) →
        FitsNoneAlone arena.now result.path.node.node pass.old pass.new }
{
    let mut path = path;
    let mut freed: u32 = 0;
    let mut again = false;
    for _ in rt.forever() {
        match tidy_once(rt, arena, pass, gate, place, thorough, path) {
            Step::Freed(next) => {
                path = next;
                freed = freed.wrapping_add(1);
                again = N::grows_in_place();
            }
            Step::Rests(rest) => {
                return Tidied {
                    path: rest,
                    freed,
                    again,
                };
            }
        }
    }
    unreachable!()
}

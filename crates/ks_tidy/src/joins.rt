//! A node absorbs its right neighbour, if a caller holds both: one to which it leads itself, or one beside it below the
//! same parent.
ghost use Rattle.std.specs.Prelude.{◌≡◌, None, Some, true, IsTrue};
ghost use Rattle.ks_node.specs.Room.{is_low};
ghost use Rattle.ks_node.specs.Body.{chained_of, right_child};
ghost use Rattle.ks_tidy.specs.Pair.{path_in};
ghost use Rattle.ks_arena.specs.Of.{IsPassOf, SameCaller, caller_of};
ghost use Rattle.ks_shape.specs.Of.{HasPlaces, IsStretch};
ghost use Rattle.ks_tidy.specs.Of.{HasNoSole, HasTried, IsPairOf, IsTrioOf};
ghost use Rattle.ks_shape.specs.Does.{OnlyDels};

use crate::step::Step;
use ks_arena::{Arena, Held, Pass};
use ks_bodies::alone_law;
use ks_flow::Tree;
use ks_gate::Gate;
use ks_node::{Unlinked, node_law, unlinked_law};
use ks_shape::{Path, absorb_own, absorb_under, keep_left, search_law};

/// The node of a path absorbs the held node to which it leads itself, if both fit. That one is released, as free if it
/// was absorbed.
pub(crate) fn join_own<N: Unlinked, G: Gate>(
    arena: &Arena<N, Tree>,
    pass: &mut Pass<N, Tree>,
    gate: &G,
    place: u64,
    path: Path<N>,
    mut next: Held<N>,
) -> Step<N>
    requires pass { IsPassOf arena.now pass.old }
    requires trio { IsTrioOf arena.now (caller_of pass.old) place pass.old path next }
    requires chained { chained_of (N.body path.node.body) ≡ Some next.node }
    requires no_sole { HasNoSole arena.now path.parent }
    ensures pass { IsPassOf arena.now pass.new }
    ensures caller { SameCaller pass.old pass.new }
    ensures dels { IsTrue (is_low N.layout (N.body path.node.body)) → OnlyDels N.layout N.ranged pass.old pass.new }
    ensures pair { IsPairOf arena.now (caller_of pass.old) place pass.new (path_in result) }
    ensures places { HasPlaces path.node.node (path_in result).node.node pass.old pass.new }
    ensures stretch { IsStretch pass.old pass.new }
    ensures step { HasTried arena.now true pass.old pass.new path result }
{
    search_law();
    alone_law();
    unlinked_law::<N>();
    let Path { parent, mut node } = path;
    node_law(&node.body);
    node_law(&next.body);
    if node.body.fits(&next.body) {
        absorb_own(arena, pass, &mut node, &mut next);
        let path = Path { parent, node };
        return Step::Freed(keep_left(arena, pass, gate, place, path, next));
    }
    let path = Path { parent, node };
    Step::Rests(keep_left(arena, pass, gate, place, path, next))
}

/// The node below a branch absorbs the held node to which the branch leads next, if both fit. That one is released; if
/// it was absorbed, the branch forgets it and it is released as free.
pub(crate) fn join_beside<N: Unlinked, G: Gate>(
    arena: &Arena<N, Tree>,
    pass: &mut Pass<N, Tree>,
    gate: &G,
    place: u64,
    mut parent: Held<N>,
    mut node: Held<N>,
    mut right: Held<N>,
) -> Step<N>
    requires pass { IsPassOf arena.now pass.old }
    requires trio { IsTrioOf arena.now (caller_of pass.old) place pass.old
        (record { parent = Some parent; node = node }) right }
    requires unchained { chained_of (N.body node.body) ≡ None }
    requires beside { right_child (N.body parent.body) place ≡ Some right.node }
    requires no_sole { HasNoSole arena.now (Some parent) }
    ensures pass { IsPassOf arena.now pass.new }
    ensures caller { SameCaller pass.old pass.new }
    ensures dels { IsTrue (is_low N.layout (N.body node.body)) → OnlyDels N.layout N.ranged pass.old pass.new }
    ensures pair { IsPairOf arena.now (caller_of pass.old) place pass.new (path_in result) }
    ensures places { HasPlaces node.node (path_in result).node.node pass.old pass.new }
    ensures stretch { IsStretch pass.old pass.new }
    ensures step { HasTried arena.now true pass.old pass.new (record { parent = Some parent; node = node }) result }
{
    search_law();
    alone_law();
    unlinked_law::<N>();
    node_law(&parent.body);
    node_law(&node.body);
    node_law(&right.body);
    if node.body.fits(&right.body) {
        absorb_under(arena, pass, &mut parent, &mut node, &mut right);
        let path = Path {
            parent: Some(parent),
            node,
        };
        return Step::Freed(keep_left(arena, pass, gate, place, path, right));
    }
    let path = Path {
        parent: Some(parent),
        node,
    };
    Step::Rests(keep_left(arena, pass, gate, place, path, right))
}

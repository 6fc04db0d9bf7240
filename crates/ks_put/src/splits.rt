//! The splits of a full node: it grows, its parent adopts the cut, or it leads to its right half itself.
ghost use Rattle.std.specs.Prelude.{◌≡◌, IsTrue, Some, None, false};
ghost use Rattle.ks_node.specs.Body.{begins, is_branch};
ghost use Rattle.ks_node.specs.Room.{is_full, in_place};
ghost use Rattle.ks_node.specs.Effect.{split_left};
ghost use Rattle.ks_node.specs.Asks.{CanSplitAt, HalvesHaveRoom};
ghost use Rattle.ks_put.specs.Parts.{CanAt, Grows, HasRoomAbove, IsRoomy, IsShut};
ghost use Rattle.ks_arena.specs.Of.{IsInside, IsPassOf, SameCaller, caller_of};
ghost use Rattle.ks_shape.specs.Of.{IsStretch};
ghost use Rattle.ks_put.specs.Narrows.{IsNarrower};
ghost use Rattle.ks_shape.specs.Paths.{IsOnPathOf};
ghost use Rattle.ks_put.specs.Of.{AllGrow, TriedToSplit, PartsDown};
ghost use Rattle.ks_shape.specs.Does.{MustSplit, OnlyFills};

use crate::cuts::{cut_below, cut_whole};
use crate::halves::{Part, keep_half, keep_right, keep_right_alone};
use ks_arena::{Arena, Held, Pass};
use ks_flow::Tree;
use ks_flow::laws::tree_facts_law;
use ks_gate::Gate;
use ks_node::{Unlinked, node_law, unlinked_law};
use ks_shape::{
    Path, claim_one, claim_two, grow, keep_left, let_go, search_law, split_own, split_under,
};

/// Lets a full node grow by two nodes: the root, or one of a type that grows in place.
pub(crate) fn grow_whole<N: Unlinked, G: Gate>(
    arena: &Arena<N, Tree>,
    pass: &mut Pass<N, Tree>,
    gate: &G,
    place: u64,
    cut: u64,
    node: Held<N>,
) -> Part<N>
    requires pass { IsPassOf arena.now pass.old }
    requires path { IsOnPathOf arena.now (caller_of pass.old) place pass.old (record { parent = None; node = node }) }
    requires full { IsTrue (is_full N.layout (N.body node.body)) }
    requires cut { IsInside pass.old node.node cut × CanSplitAt (N.body node.body) cut }
    requires grows { Grows N.grows_at (N.body node.body) × CanAt N.can_grow_at (N.body node.body) cut }
    requires halves { IsTrue N.halves_have_room → HalvesHaveRoom N.layout cut (N.body node.body) }
    ensures pass { IsPassOf arena.now pass.new }
    ensures caller { SameCaller pass.old pass.new }
    ensures fills { MustSplit N.layout place (N.body node.body) → OnlyFills N.layout N.ranged place pass.old pass.new }
    ensures part { TriedToSplit arena.now place pass.old pass.new (record { parent = None; node = node }) result }
    ensures tried { ¬ IsShut result }
    ensures stretch { IsStretch pass.old pass.new }
    ensures down { PartsDown arena.now pass.old pass.new (record { parent = None; node = node }) result }
    ensures halves { IsTrue N.halves_have_room → IsRoomy N.layout N.body result }
    ensures narrows { IsNarrower N.layout N.body place (record { parent = None; node = node }) result }
{
    search_law();
    unlinked_law::<N>();
    node_law(&node.body);
    let mut node = node;
    let Some((mut left, mut right)) = claim_two(arena, pass, gate) else {
        return Part::Refused(Path { parent: None, node });
    };
    grow(arena, pass, &mut node, &mut left, &mut right, cut);
    Part::Split(keep_half(arena, pass, gate, place, cut, node, left, right))
}

/// Splits the full node under its parent, which adopts the cut.
pub(crate) fn split_below<N: Unlinked, G: Gate>(
    arena: &Arena<N, Tree>,
    pass: &mut Pass<N, Tree>,
    gate: &G,
    place: u64,
    cut: u64,
    parent: Held<N>,
    node: Held<N>,
) -> Part<N>
    requires pass { IsPassOf arena.now pass.old }
    requires path { IsOnPathOf arena.now (caller_of pass.old) place pass.old
        (record { parent = Some parent; node = node }) }
    requires branch { IsTrue (is_branch (N.body parent.body)) }
    requires full { IsTrue (is_full N.layout (N.body node.body)) }
    requires cut { IsInside pass.old node.node cut × CanSplitAt (N.body node.body) cut }
    requires adopts { CanAt N.can_adopt_at (N.body parent.body) cut }
    requires halves { IsTrue N.halves_have_room → HalvesHaveRoom N.layout cut (N.body node.body) }
    ensures pass { IsPassOf arena.now pass.new }
    ensures caller { SameCaller pass.old pass.new }
    ensures fills { MustSplit N.layout place (N.body node.body) → OnlyFills N.layout N.ranged place pass.old pass.new }
    ensures part { TriedToSplit arena.now place pass.old pass.new
        (record { parent = Some parent; node = node }) result }
    ensures tried { ¬ IsShut result }
    ensures stretch { IsStretch pass.old pass.new }
    ensures down { PartsDown arena.now pass.old pass.new (record { parent = Some parent; node = node }) result }
    ensures halves { IsTrue N.halves_have_room → IsRoomy N.layout N.body result }
    ensures narrows { IsNarrower N.layout N.body place (record { parent = Some parent; node = node }) result }
{
    search_law();
    tree_facts_law();
    let mut parent = parent;
    let mut node = node;
    let Some(mut right) = claim_one(arena, pass, gate) else {
        return Part::Refused(Path {
            parent: Some(parent),
            node,
        });
    };
    split_under(arena, pass, &mut parent, &mut node, &mut right, cut);
    Part::Split(keep_half(arena, pass, gate, place, cut, parent, node, right))
}

/// Splits the full node, which leads to its right half itself.
pub(crate) fn split_alone<N: Unlinked, G: Gate>(
    arena: &Arena<N, Tree>,
    pass: &mut Pass<N, Tree>,
    gate: &G,
    place: u64,
    cut: u64,
    path: Path<N>,
) -> Part<N>
    requires pass { IsPassOf arena.now pass.old }
    requires path { IsOnPathOf arena.now (caller_of pass.old) place pass.old path }
    requires full { IsTrue (is_full N.layout (N.body path.node.body)) }
    requires cut { IsInside pass.old path.node.node cut × CanSplitAt (N.body path.node.body) cut }
    requires adopts { CanAt N.can_adopt_at (split_left cut (N.body path.node.body)) cut }
    requires leaf { is_branch (N.body path.node.body) ≡ false }
    requires none_starts { begins cut (N.body path.node.body).starts ≡ false }
    requires halves { IsTrue N.halves_have_room → HalvesHaveRoom N.layout cut (N.body path.node.body) }
    ensures pass { IsPassOf arena.now pass.new }
    ensures caller { SameCaller pass.old pass.new }
    ensures fills { MustSplit N.layout place (N.body path.node.body) →
        OnlyFills N.layout N.ranged place pass.old pass.new }
    ensures part { TriedToSplit arena.now place pass.old pass.new path result }
    ensures tried { ¬ IsShut result }
    ensures stretch { IsStretch pass.old pass.new }
    ensures down { PartsDown arena.now pass.old pass.new path result }
    ensures halves { IsTrue N.halves_have_room → IsRoomy N.layout N.body result }
    ensures narrows { IsNarrower N.layout N.body place path result }
{
    search_law();
    tree_facts_law();
    let Some(mut right) = claim_one(arena, pass, gate) else {
        return Part::Refused(path);
    };
    let Path { parent, mut node } = path;
    split_own(arena, pass, &mut node, &mut right, cut);
    let path = Path { parent, node };
    if place < cut {
        return Part::Split(keep_left(arena, pass, gate, place, path, right));
    }
    if right.body.is_full() {
        return Part::Split(keep_right(arena, pass, gate, place, path, right));
    }
    Part::Split(keep_right_alone(arena, pass, gate, place, path, right))
}

/// Splits a full node that needs no parent: it grows, or leads to its right half itself. One of the two is possible if
/// it is no branch, or all nodes grow and branches adopt.
pub(crate) fn split_top<N: Unlinked, G: Gate>(
    arena: &Arena<N, Tree>,
    pass: &mut Pass<N, Tree>,
    gate: &G,
    place: u64,
    node: Held<N>,
) -> Part<N>
    requires pass { IsPassOf arena.now pass.old }
    requires path { IsOnPathOf arena.now (caller_of pass.old) place pass.old (record { parent = None; node = node }) }
    requires full { IsTrue (is_full N.layout (N.body node.body)) }
    ensures pass { IsPassOf arena.now pass.new }
    ensures caller { SameCaller pass.old pass.new }
    ensures fills { MustSplit N.layout place (N.body node.body) → OnlyFills N.layout N.ranged place pass.old pass.new }
    ensures part { TriedToSplit arena.now place pass.old pass.new (record { parent = None; node = node }) result }
    ensures open { (IsTrue (is_branch (N.body node.body)) → AllGrow arena.now) → ¬ IsShut result }
    ensures stretch { IsStretch pass.old pass.new }
    ensures down { PartsDown arena.now pass.old pass.new (record { parent = None; node = node }) result }
    ensures halves { IsTrue N.halves_have_room → IsRoomy N.layout N.body result }
    ensures narrows { IsNarrower N.layout N.body place (record { parent = None; node = node }) result }
{
    unlinked_law::<N>();
    let cut = cut_whole(arena, pass, &node);
    let grows = node.body.grows();
    if grows {
        return grow_whole(arena, pass, gate, place, cut, node);
    }
    let path = Path { parent: None, node };
    if path.node.body.is_branch() {
        return Part::Shut(path);
    }
    if !path.node.body.can_adopt(cut) {
        return Part::Shut(path);
    }
    split_alone(arena, pass, gate, place, cut, path)
}

/// Splits the full node under its parent, or by itself, where no node of the type grows in place. If all nodes grow and
/// branches adopt, one of the two is possible unless the parent is full; if not, unless the node is a branch.
pub(crate) fn split_child<N: Unlinked, G: Gate>(
    arena: &Arena<N, Tree>,
    pass: &mut Pass<N, Tree>,
    gate: &G,
    place: u64,
    parent: Held<N>,
    node: Held<N>,
) -> Part<N>
    requires pass { IsPassOf arena.now pass.old }
    requires path { IsOnPathOf arena.now (caller_of pass.old) place pass.old
        (record { parent = Some parent; node = node }) }
    requires full { IsTrue (is_full N.layout (N.body node.body)) }
    requires at_root { in_place N.layout ≡ false }
    ensures pass { IsPassOf arena.now pass.new }
    ensures caller { SameCaller pass.old pass.new }
    ensures fills { MustSplit N.layout place (N.body node.body) → OnlyFills N.layout N.ranged place pass.old pass.new }
    ensures part { TriedToSplit arena.now place pass.old pass.new
        (record { parent = Some parent; node = node }) result }
    ensures open { (IsTrue (is_branch (N.body node.body)) → AllGrow arena.now) →
        (AllGrow arena.now → is_full N.layout (N.body parent.body) ≡ false) → ¬ IsShut result }
    ensures stretch { IsStretch pass.old pass.new }
    ensures down { PartsDown arena.now pass.old pass.new (record { parent = Some parent; node = node }) result }
    ensures halves { IsTrue N.halves_have_room → IsRoomy N.layout N.body result }
    ensures narrows { IsNarrower N.layout N.body place (record { parent = Some parent; node = node }) result }
{
    unlinked_law::<N>();
    let cut = cut_below(arena, pass, place, &parent, &node);
    if parent.body.is_branch() && parent.body.can_adopt(cut) {
        return split_below(arena, pass, gate, place, cut, parent, node);
    }
    let path = Path {
        parent: Some(parent),
        node,
    };
    if path.node.body.is_branch() {
        return Part::Shut(path);
    }
    if !path.node.body.can_adopt(cut) {
        return Part::Shut(path);
    }
    split_alone(arena, pass, gate, place, cut, path)
}

/// Splits the full node of a path, if there is a way and a claim succeeds, and releases the half without the place,
/// unless that leads to its full right half itself and becomes the parent of it. Where nodes grow in place, the parent is
/// released before; else the next step of the search releases it, once the kept half is not full.
#[inline(never)]
pub(crate) fn split<N: Unlinked, G: Gate>(
    arena: &Arena<N, Tree>,
    pass: &mut Pass<N, Tree>,
    gate: &G,
    place: u64,
    path: Path<N>,
) -> Part<N>
    requires pass { IsPassOf arena.now pass.old }
    requires path { IsOnPathOf arena.now (caller_of pass.old) place pass.old path }
    requires full { IsTrue (is_full N.layout (N.body path.node.body)) }
    ensures pass { IsPassOf arena.now pass.new }
    ensures caller { SameCaller pass.old pass.new }
    ensures fills { MustSplit N.layout place (N.body path.node.body) →
        OnlyFills N.layout N.ranged place pass.old pass.new }
    ensures part { TriedToSplit arena.now place pass.old pass.new path result }
    ensures open { (IsTrue (is_branch (N.body path.node.body)) → AllGrow arena.now) →
        (AllGrow arena.now → HasRoomAbove N.layout N.body path.parent) → ¬ IsShut result }
    ensures stretch { IsStretch pass.old pass.new }
    ensures down { PartsDown arena.now pass.old pass.new path result }
    ensures halves { IsTrue N.halves_have_room → IsRoomy N.layout N.body result }
    ensures narrows { IsNarrower N.layout N.body place path result }
{
    search_law();
    unlinked_law::<N>();
    let grows = N::grows_in_place();
    if grows {
        let node = let_go(arena, pass, gate, place, path);
        return split_top(arena, pass, gate, place, node);
    }
    let Path { parent, node } = path;
    match parent {
        None => split_top(arena, pass, gate, place, node),
        Some(parent) => split_child(arena, pass, gate, place, parent, node),
    }
}

//! What is kept of a node that was split: the half that holds the place, and the node that leads to it.
ghost use Rattle.std.specs.Prelude.{◌≡◌, ◌⊎◌, ◌<◌, ◌≤◌, ◌∷◌, [], None, Some, false};
ghost use Rattle.ks_node.specs.Room.{is_full};
ghost use Rattle.ks_arena.specs.Clauses.{hand_of};
ghost use Rattle.ks_shape.specs.OnPath.{numbers};
ghost use Rattle.ks_arena.specs.Of.{IsInside, IsPassOf, IsCurrent, IsLiveAndCurrent, SameCaller, caller_of};
ghost use Rattle.ks_shape.specs.Of.{IsStretch};
ghost use Rattle.ks_shape.specs.Quiet.{KeepsQuiet};
ghost use Rattle.ks_shape.specs.Paths.{IsOnPathOf, IsUnderParent};
ghost use Rattle.ks_put.specs.Narrows.{cuts_left};
ghost use Rattle.ks_put.specs.Of.{IsPartOf, KeepsDown};
ghost use Rattle.ks_shape.specs.Does.{OnlySearches};

use ks_arena::{Arena, Held, Pass};
use ks_flow::Tree;
use ks_gate::{Gate, Point};
use ks_node::Unlinked;
use ks_shape::{Path, keep_alone, let_go, search_law};

/// The result of a try to split the node of a path.
pub(crate) enum Part<N> {
    /// It was split; the path goes to the half that holds the place.
    Split(Path<N>),
    /// No node was found free; the node is as before.
    Refused(Path<N>),
    /// There is no way to split it; the node is as before.
    Shut(Path<N>),
}

/// Releases one of two halves to which the parent leads, and keeps the one that holds the place.
pub(crate) fn keep_half<N: Unlinked, G: Gate>(
    arena: &Arena<N, Tree>,
    pass: &mut Pass<N, Tree>,
    gate: &G,
    place: u64,
    cut: u64,
    parent: Held<N>,
    left: Held<N>,
    right: Held<N>,
) -> Path<N>
    requires pass { IsPassOf arena.now pass.old }
    requires hands { hand_of pass.old ≡ right.node ∷ left.node ∷ parent.node ∷ [] }
    requires parent { IsLiveAndCurrent arena.now pass.old parent }
    requires left { IsLiveAndCurrent arena.now pass.old left }
    requires right { IsLiveAndCurrent arena.now pass.old right }
    requires below { place < cut → IsPartOf arena.now place pass.old parent left }
    requires from { cut ≤ place → IsPartOf arena.now place pass.old parent right }
    ensures pass { IsPassOf arena.now pass.new }
    ensures caller { SameCaller pass.old pass.new }
    ensures leaves { OnlySearches pass.old pass.new }
    ensures path { IsOnPathOf arena.now (caller_of pass.old) place pass.new result }
    ensures stretch { IsStretch pass.old pass.new }
    ensures quiet { KeepsQuiet pass.old pass.new }
    ensures parent { result.parent ≡ Some parent }
    ensures kept { (place < cut → result.node ≡ left) × (cut ≤ place → result.node ≡ right) }
    ensures room { is_full N.layout (N.body left.body) ≡ false → is_full N.layout (N.body right.body) ≡ false →
        is_full N.layout (N.body result.node.body) ≡ false }
{
    search_law();
    if place < cut {
        let number = right.node;
        arena.give(pass, right);
        gate.at(pass.caller(), Point::Given(number));
        Path {
            parent: Some(parent),
            node: left,
        }
    } else {
        let number = left.node;
        arena.give(pass, left);
        gate.at(pass.caller(), Point::Given(number));
        Path {
            parent: Some(parent),
            node: right,
        }
    }
}

/// Keeps the full right half of a node that leads to it itself and becomes its parent; releases the node's old parent.
pub(crate) fn keep_right<N: Unlinked, G: Gate>(
    arena: &Arena<N, Tree>,
    pass: &mut Pass<N, Tree>,
    gate: &G,
    place: u64,
    path: Path<N>,
    right: Held<N>,
) -> Path<N>
    requires pass { IsPassOf arena.now pass.old }
    requires hands { hand_of pass.old ≡ right.node ∷ path.node.node ∷ numbers path.parent }
    requires under { IsUnderParent arena.now place pass.old path.node path.parent }
    requires node { IsLiveAndCurrent arena.now pass.old path.node }
    requires right { IsLiveAndCurrent arena.now pass.old right }
    requires part { IsPartOf arena.now place pass.old path.node right }
    ensures pass { IsPassOf arena.now pass.new }
    ensures caller { SameCaller pass.old pass.new }
    ensures leaves { OnlySearches pass.old pass.new }
    ensures path { IsOnPathOf arena.now (caller_of pass.old) place pass.new result }
    ensures stretch { IsStretch pass.old pass.new }
    ensures quiet { KeepsQuiet pass.old pass.new }
    ensures parent { result.parent ≡ Some path.node }
    ensures node { result.node ≡ right }
{
    search_law();
    let Path { parent, node } = path;
    let Some(parent) = parent else {
        return Path {
            parent: Some(node),
            node: right,
        };
    };
    let number = parent.node;
    arena.give(pass, parent);
    gate.at(pass.caller(), Point::Given(number));
    Path {
        parent: Some(node),
        node: right,
    }
}

/// Keeps the right half, which is not full, of a node that leads to it itself; releases the node, and then its parent.
pub(crate) fn keep_right_alone<N: Unlinked, G: Gate>(
    arena: &Arena<N, Tree>,
    pass: &mut Pass<N, Tree>,
    gate: &G,
    place: u64,
    path: Path<N>,
    right: Held<N>,
) -> Path<N>
    requires pass { IsPassOf arena.now pass.old }
    requires hands { hand_of pass.old ≡ right.node ∷ path.node.node ∷ numbers path.parent }
    requires under { IsUnderParent arena.now place pass.old path.node path.parent }
    requires node { IsCurrent arena.now pass.old path.node }
    requires right { IsLiveAndCurrent arena.now pass.old right }
    requires inside { IsInside pass.old right.node place }
    requires room { is_full N.layout (N.body right.body) ≡ false }
    ensures pass { IsPassOf arena.now pass.new }
    ensures caller { SameCaller pass.old pass.new }
    ensures leaves { OnlySearches pass.old pass.new }
    ensures path { IsOnPathOf arena.now (caller_of pass.old) place pass.new result }
    ensures stretch { IsStretch pass.old pass.new }
    ensures quiet { KeepsQuiet pass.old pass.new }
    ensures parent { result.parent ≡ None }
    ensures node { result.node ≡ right }
{
    search_law();
    let Path { parent, node } = path;
    let number = node.node;
    arena.give(pass, node);
    gate.at(pass.caller(), Point::Given(number));
    let node = keep_alone(arena, pass, gate, place, parent, right);
    Path { parent: None, node }
}

/// Releases the parent of a node that is not full, which does not need it.
#[inline(always)]
pub(crate) fn settle<N: Unlinked, G: Gate>(
    arena: &Arena<N, Tree>,
    pass: &mut Pass<N, Tree>,
    gate: &G,
    place: u64,
    path: Path<N>,
) -> Path<N>
    requires pass { IsPassOf arena.now pass.old }
    requires path { IsOnPathOf arena.now (caller_of pass.old) place pass.old path }
    ensures pass { IsPassOf arena.now pass.new }
    ensures caller { SameCaller pass.old pass.new }
    ensures leaves { OnlySearches pass.old pass.new }
    ensures path { IsOnPathOf arena.now (caller_of pass.old) place pass.new result }
    ensures stretch { IsStretch pass.old pass.new }
    ensures down { KeepsDown arena.now pass.old pass.new path result }
    ensures node { result.node ≡ path.node }
    ensures narrows { cuts_left N.layout N.body place result ≤ cuts_left N.layout N.body place path }
    ensures alone { is_full N.layout (N.body path.node.body) ≡ false → result.parent ≡ None }
    ensures above { (result.parent ≡ None) ⊎ (result.parent ≡ path.parent) }
{
    search_law();
    if path.node.body.is_full() {
        return path;
    }
    let node = let_go(arena, pass, gate, place, path);
    Path { parent: None, node }
}

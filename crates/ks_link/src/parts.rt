//! How a full node is split: the root grows, any other node splits to the right.
ghost use Rattle.std.specs.Prelude.{◌≡◌, ℕ, ◌≢◌, ◌<◌, ◌≤◌, ◌⊎◌, IsTrue};
ghost use Rattle.ks_node.specs.Body.{content_of};
ghost use Rattle.ks_node.specs.Room.{is_full};
ghost use Rattle.ks_link.specs.Leads.{HalfHasRoom};
ghost use Rattle.ks_link.specs.Parts.{HalfReachesLess};
ghost use Rattle.ks_history.specs.Done.{link_move};
ghost use Rattle.ks_arena.specs.Of.{WasAlone, IsPassOf, SameCaller, caller_of};
ghost use Rattle.ks_shape.specs.Of.{IsStretchBy, MakesNoneLive, IsLiveInHand, IsFreeInHand};
ghost use Rattle.ks_link.specs.Of.{HoldsHalfOf, HoldsThree, HoldsTwo, LeadsParts, SearchIsAt};
ghost use Rattle.ks_shape.specs.Does.{MustSplit, OnlyFills, OnlySearches};

use ks_arena::laws::sound_law;
use ks_arena::{Arena, Held, Pass};
use ks_bodies::link_asks_law;
use ks_flow::Link;
use ks_gate::{Gate, Point};
use ks_keysets::Span;
use ks_node::{Linked, linked_law, node_law};
use ks_shape::{claim_one, claim_two, grow_right, split_right};

/// A node that was split off at a cut, and is reached only by its left neighbour's link till it is attached.
#[derive(Clone, Copy, Debug, Default, PartialEq, Eq)]
pub(crate) struct Waiting {
    pub cut: u64,
    pub node: u32,
    pub level: u32,
}

/// What a full node was split into: the half that is held, and the node that was split off, if the root did not grow.
pub(crate) struct Parted<N> {
    pub half: Held<N>,
    pub new: Option<Waiting>,
}

/// Releases the one of two halves in which the place does not lie.
fn keep_half<N: Linked, G: Gate>(
    arena: &Arena<N, Link>,
    pass: &mut Pass<N, Link>,
    gate: &G,
    place: u64,
    cut: u64,
    left: Held<N>,
    right: Held<N>,
) -> Held<N>
    requires pass { IsPassOf arena.now pass.old }
    requires left { IsLiveInHand arena.now pass.old left }
    requires right { IsLiveInHand arena.now pass.old right }
    requires hand { HoldsTwo pass.old left right }
    requires low { (N.body left.body).low ≤ place }
    requires cut { (N.body right.body).low ≡ cut }
    ensures pass { IsPassOf arena.now pass.new }
    ensures caller { SameCaller pass.old pass.new }
    ensures leaves { OnlySearches pass.old pass.new }
    ensures way { SearchIsAt arena.now (caller_of pass.old) place pass.new result }
    ensures half { ((result ≡ left) × (place < cut)) ⊎ (result ≡ right) }
    ensures stretch { IsStretchBy link_move pass.old pass.new }
    ensures makes { MakesNoneLive pass.old pass.new }
{
    if place < cut {
        let node = right.node;
        arena.give(pass, right);
        gate.at(pass.caller(), Point::Given(node));
        left
    } else {
        let node = left.node;
        arena.give(pass, left);
        gate.at(pass.caller(), Point::Given(node));
        right
    }
}

/// Splits a full node that is not the root, and keeps the half in which the place lies.
fn split<N: Linked, G: Gate>(
    arena: &Arena<N, Link>,
    pass: &mut Pass<N, Link>,
    gate: &G,
    place: u64,
    mut held: Held<N>,
    mut right: Held<N>,
) -> Parted<N>
    requires pass { IsPassOf arena.now pass.old }
    requires node { IsLiveInHand arena.now pass.old held }
    requires right { IsFreeInHand arena.now pass.old right }
    requires hand { HoldsTwo pass.old held right }
    requires no_root { held.node ≢ 0 }
    requires full { IsTrue (is_full N.layout (N.body held.body)) }
    requires low { (N.body held.body).low ≤ place }
    ensures pass { IsPassOf arena.now pass.new }
    ensures caller { SameCaller pass.old pass.new }
    ensures fills { (at : ℕ) → MustSplit N.layout at (N.body held.body) →
        OnlyFills N.layout N.ranged at pass.old pass.new }
    ensures parted { HoldsHalfOf arena.now place pass.old pass.new held (Ok result) }
    ensures narrower { HalfReachesLess N.body (N.body held.body) (Ok result) }
    ensures stretch { IsStretchBy link_move pass.old pass.new }
    ensures led { WasAlone pass.old pass.new → LeadsParts arena.now pass.old pass.new (Ok result) }
    ensures room { IsTrue N.halves_have_room → HalfHasRoom N.layout N.body (Ok result) }
{
    sound_law::<Link>();
    link_asks_law();
    linked_law::<N>();
    node_law(&held.body);
    let cut = held.body.cut(None);
    split_right(arena, pass, &mut held, &mut right, cut);
    let new = Waiting {
        cut,
        node: right.node,
        level: right.body.level(),
    };
    let half = keep_half(arena, pass, gate, place, cut, held, right);
    Parted {
        half,
        new: Some(new),
    }
}

/// Lets the full root grow over two nodes, releases it, and keeps the one in which the place lies.
fn grow<N: Linked, G: Gate>(
    arena: &Arena<N, Link>,
    pass: &mut Pass<N, Link>,
    gate: &G,
    place: u64,
    mut root: Held<N>,
    mut left: Held<N>,
    mut right: Held<N>,
) -> Parted<N>
    requires pass { IsPassOf arena.now pass.old }
    requires node { IsLiveInHand arena.now pass.old root }
    requires left { IsFreeInHand arena.now pass.old left }
    requires right { IsFreeInHand arena.now pass.old right }
    requires hand { HoldsThree pass.old root left right }
    requires root { root.node ≡ 0 }
    requires full { IsTrue (is_full N.layout (N.body root.body)) }
    requires grows { IsTrue (N.grows_at (content_of (N.body root.body))) }
    requires low { (N.body root.body).low ≤ place }
    ensures pass { IsPassOf arena.now pass.new }
    ensures caller { SameCaller pass.old pass.new }
    ensures fills { (at : ℕ) → MustSplit N.layout at (N.body root.body) →
        OnlyFills N.layout N.ranged at pass.old pass.new }
    ensures parted { HoldsHalfOf arena.now place pass.old pass.new root (Ok result) }
    ensures narrower { HalfReachesLess N.body (N.body root.body) (Ok result) }
    ensures stretch { IsStretchBy link_move pass.old pass.new }
    ensures led { WasAlone pass.old pass.new → LeadsParts arena.now pass.old pass.new (Ok result) }
    ensures room { IsTrue N.halves_have_room → HalfHasRoom N.layout N.body (Ok result) }
{
    sound_law::<Link>();
    link_asks_law();
    linked_law::<N>();
    node_law(&root.body);
    let all = Span {
        low: 0,
        last: u64::MAX,
    };
    let _nodes = arena.nodes();
    let cut = root.body.cut(Some(all));
    grow_right(arena, pass, &mut root, &mut left, &mut right, cut);
    arena.give(pass, root);
    gate.at(pass.caller(), Point::Given(0));
    let half = keep_half(arena, pass, gate, place, cut, left, right);
    Parted { half, new: None }
}

/// Splits a full node, and keeps the half in which the place lies. `Err`: the node is as it was, as none was found free.
pub(crate) fn part<N: Linked, G: Gate>(
    arena: &Arena<N, Link>,
    pass: &mut Pass<N, Link>,
    gate: &G,
    place: u64,
    held: Held<N>,
) -> Result<Parted<N>, Held<N>>
    requires pass { IsPassOf arena.now pass.old }
    requires way { SearchIsAt arena.now (caller_of pass.old) place pass.old held }
    requires full { IsTrue (is_full N.layout (N.body held.body)) }
    requires grows { held.node ≡ 0 → IsTrue (N.grows_at (content_of (N.body held.body))) }
    ensures pass { IsPassOf arena.now pass.new }
    ensures caller { SameCaller pass.old pass.new }
    ensures fills { (at : ℕ) → MustSplit N.layout at (N.body held.body) →
        OnlyFills N.layout N.ranged at pass.old pass.new }
    ensures parted { HoldsHalfOf arena.now place pass.old pass.new held result }
    ensures narrower { HalfReachesLess N.body (N.body held.body) result }
    ensures stretch { IsStretchBy link_move pass.old pass.new }
    ensures led { WasAlone pass.old pass.new → LeadsParts arena.now pass.old pass.new result }
    ensures room { IsTrue N.halves_have_room → HalfHasRoom N.layout N.body result }
{
    sound_law::<Link>();
    link_asks_law();
    linked_law::<N>();
    node_law(&held.body);
    if held.node == 0 {
        match claim_two(arena, pass, gate) {
            None => Err(held),
            Some((left, right)) => Ok(grow(arena, pass, gate, place, held, left, right)),
        }
    } else {
        match claim_one(arena, pass, gate) {
            None => Err(held),
            Some(right) => Ok(split(arena, pass, gate, place, held, right)),
        }
    }
}

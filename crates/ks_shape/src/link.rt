//! Shapes under links. Each requires that the pass holds its nodes with the bodies of the graph, and says what they become.
ghost use Rattle.std.specs.Prelude.{◌≡◌, ◌≢◌, ℕ, ◌<◌, IsTrue, None};
ghost use Rattle.ks_node.specs.Body.{content_of, is_branch};
ghost use Rattle.ks_node.specs.Room.{is_full};
ghost use Rattle.ks_node.specs.Effect.{split_right as right_part, adopted, with_link};
ghost use Rattle.ks_node.specs.Asks.{CanSplitAt, IsCut};
ghost use Rattle.ks_bodies.specs.Links as shapes;
ghost use Rattle.ks_arena.specs.Of.{IsPassOf, HasShaped, SameCaller};
ghost use Rattle.ks_shape.specs.Of.{IsLiveInHand, IsFreeInHand, HasBecome, IsLedTo, StandsUnderAt, splits_right, grows_right, attaches_to};
ghost use Rattle.ks_shape.specs.Does.{MustSplit, OnlyFills};

use ks_arena::laws::sound_law;
use ks_arena::{Arena, Held, Pass};
use ks_bodies::{link_asks_law, link_leads_law, link_steps_law};
use ks_flow::Link;
use ks_node::{Linked, linked_law, node_law};

/// The node, which is not the root, keeps what it has below the cut and links to `right`, which gets the rest and the
/// node's old link.
pub fn split_right<N: Linked>(
    arena: &Arena<N, Link>,
    pass: &mut Pass<N, Link>,
    node: &mut Held<N>,
    right: &mut Held<N>,
    cut: u64,
)
    requires pass { IsPassOf arena.now pass.old }
    requires node { IsLiveInHand arena.now pass.old node.old }
    requires right { IsFreeInHand arena.now pass.old right.old }
    requires no_root { node.old.node ≢ 0 }
    requires full { IsTrue (is_full N.layout (N.body node.old.body)) }
    requires cut { CanSplitAt (N.body node.old.body) cut }
    ensures pass { IsPassOf arena.now pass.new }
    ensures caller { SameCaller pass.old pass.new }
    ensures fills { (place : ℕ) → MustSplit N.layout place (N.body node.old.body) →
        OnlyFills N.layout N.ranged place pass.old pass.new }
    ensures shaped { HasShaped arena.now (splits_right arena.now node.old right.old cut) pass.old pass.new }
    ensures node { HasBecome arena.now pass.new
        (shapes.split_linked cut right.old.node (N.body node.old.body)) node.old node.new }
    ensures right { HasBecome arena.now pass.new (right_part cut (N.body node.old.body)) right.old right.new }
{
    sound_law::<Link>();
    link_steps_law();
    linked_law::<N>();
    node_law(&node.body);
    node.body.split_link(&mut right.body, right.node, cut);
    right.live = true;
    node_law(&node.body);
    node_law(&right.body);
    arena.shape(pass, node, Some(right), None);
}

/// The root becomes a branch over `left` and `right`, one level higher. They get what it has below the cut and the rest,
/// and `left` links to `right`.
pub fn grow_right<N: Linked>(
    arena: &Arena<N, Link>,
    pass: &mut Pass<N, Link>,
    node: &mut Held<N>,
    left: &mut Held<N>,
    right: &mut Held<N>,
    cut: u64,
)
    requires pass { IsPassOf arena.now pass.old }
    requires node { IsLiveInHand arena.now pass.old node.old }
    requires left { IsFreeInHand arena.now pass.old left.old }
    requires right { IsFreeInHand arena.now pass.old right.old }
    requires root { node.old.node ≡ 0 }
    requires apart { left.old.node ≢ right.old.node }
    requires full { IsTrue (is_full N.layout (N.body node.old.body)) }
    requires cut { CanSplitAt (N.body node.old.body) cut }
    requires grows { IsTrue (N.grows_at (content_of (N.body node.old.body)))
        × IsTrue (N.can_grow_at (content_of (N.body node.old.body)) cut) }
    requires level { (N.body node.old.body).level < 4294967295 }
    ensures pass { IsPassOf arena.now pass.new }
    ensures caller { SameCaller pass.old pass.new }
    ensures fills { (place : ℕ) → MustSplit N.layout place (N.body node.old.body) →
        OnlyFills N.layout N.ranged place pass.old pass.new }
    ensures shaped { HasShaped arena.now (grows_right arena.now node.old left.old right.old cut) pass.old pass.new }
    ensures node { HasBecome arena.now pass.new
        (shapes.grown_higher N.branch_kind cut left.old.node right.old.node (N.body node.old.body)) node.old node.new }
    ensures left { HasBecome arena.now pass.new
        (shapes.split_linked cut right.old.node (N.body node.old.body)) left.old left.new }
    ensures right { HasBecome arena.now pass.new
        (with_link None (right_part cut (N.body node.old.body))) right.old right.new }
    ensures led { IsLedTo arena.now pass.new left.old.node × IsLedTo arena.now pass.new right.old.node }
{
    sound_law::<Link>();
    link_asks_law();
    link_steps_law();
    link_leads_law();
    linked_law::<N>();
    node_law(&node.body);
    node.body.grow_link(&mut left.body, &mut right.body, left.node, right.node, cut);
    left.live = true;
    right.live = true;
    node_law(&node.body);
    node_law(&left.body);
    node_law(&right.body);
    arena.shape(pass, node, Some(left), Some(right));
}

/// The node, a branch, leads from the cut on to `id` as well. As far as the pass has seen, that one is live, one level
/// below it, and begins at the cut, as a node does that was split off there.
pub fn attach<N: Linked>(
    arena: &Arena<N, Link>,
    pass: &mut Pass<N, Link>,
    node: &mut Held<N>,
    cut: u64,
    id: u32,
)
    requires pass { IsPassOf arena.now pass.old }
    requires node { IsLiveInHand arena.now pass.old node.old }
    requires branch { IsTrue (is_branch (N.body node.old.body)) }
    requires cut { IsCut (N.body node.old.body) cut }
    requires adopts { IsTrue (N.can_adopt_at (content_of (N.body node.old.body)) cut) }
    requires under { StandsUnderAt arena.now pass.old id (N.body node.old.body).level cut }
    ensures pass { IsPassOf arena.now pass.new }
    ensures caller { SameCaller pass.old pass.new }
    ensures fills { (place : ℕ) → OnlyFills N.layout N.ranged place pass.old pass.new }
    ensures shaped { HasShaped arena.now (attaches_to arena.now node.old id cut) pass.old pass.new }
    ensures node { HasBecome arena.now pass.new (adopted cut id (N.body node.old.body)) node.old node.new }
    ensures led { IsLedTo arena.now pass.new id }
{
    sound_law::<Link>();
    link_asks_law();
    link_steps_law();
    link_leads_law();
    linked_law::<N>();
    node_law(&node.body);
    node.body.adopt(cut, id);
    node_law(&node.body);
    arena.shape(pass, node, None, None);
}

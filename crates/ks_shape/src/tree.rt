//! Shapes of trees. Each requires that the pass holds its nodes with the bodies of the graph, and says what they become.
ghost use Rattle.std.specs.Prelude.{◌≡◌, ◌≢◌, ℕ, ◌<◌, ◌≤◌, IsTrue, Some, None, true, false};
ghost use Rattle.ks_keysets.specs.Record.{LeadsTo};
ghost use Rattle.ks_node.specs.Body.{content_of, is_branch, chained_of, only_child_of, right_child};
ghost use Rattle.ks_node.specs.Edges.{record_of};
ghost use Rattle.ks_node.specs.Room.{is_full, is_low, fit_together};
ghost use Rattle.ks_node.specs.Effect.{split_left, split_right, grown, adopted, absorbed, forgot, collapsed};
ghost use Rattle.ks_node.specs.Asks.{CanSplitAt};
ghost use Rattle.ks_bodies.specs.Shapes as shapes;
ghost use Rattle.ks_arena.specs.Of.{IsInside, IsPassOf, HasShaped, SameCaller};
ghost use Rattle.ks_shape.specs.Of.{IsLiveInHand, IsFreeInHand, LeadsInto, HasBecome, HasBecomeFree, splits_own, splits_under, grows_to, HasPlaces, absorbs_own, absorbs_under, collapses_to};
ghost use Rattle.ks_shape.specs.Does.{MustSplit, OnlyDels, OnlyFills};

use ks_arena::laws::sound_law;
use ks_arena::{Arena, Held, Pass};
use ks_bodies::{tree_asks_law, tree_insets_law, tree_parts_law, tree_steps_law};
use ks_flow::Tree;
use ks_node::{Unlinked, node_law, unlinked_law};

/// The node keeps what it has below the cut and itself leads to `right`, which gets the rest.
pub fn split_own<N: Unlinked>(
    arena: &Arena<N, Tree>,
    pass: &mut Pass<N, Tree>,
    node: &mut Held<N>,
    right: &mut Held<N>,
    cut: u64,
)
    requires pass { IsPassOf arena.now pass.old }
    requires node { IsLiveInHand arena.now pass.old node.old }
    requires right { IsFreeInHand arena.now pass.old right.old }
    requires full { IsTrue (is_full N.layout (N.body node.old.body)) }
    requires cut { IsInside pass.old node.old.node cut × CanSplitAt (N.body node.old.body) cut }
    requires adopts { IsTrue (N.can_adopt_at (content_of (split_left cut (N.body node.old.body))) cut) }
    ensures pass { IsPassOf arena.now pass.new }
    ensures caller { SameCaller pass.old pass.new }
    ensures fills { (place : ℕ) → MustSplit N.layout place (N.body node.old.body) →
        OnlyFills N.layout N.ranged place pass.old pass.new }
    ensures shaped { HasShaped arena.now (splits_own arena.now node.old right.old cut) pass.old pass.new }
    ensures node { HasBecome arena.now pass.new
        (shapes.split_on cut right.old.node (N.body node.old.body)) node.old node.new }
    ensures right { HasBecome arena.now pass.new (split_right cut (N.body node.old.body)) right.old right.new }
    ensures parts { (p : ℕ) → IsInside pass.old node.old.node p →
        IsInside pass.new node.old.node p × (cut ≤ p →
        LeadsInto pass.new (shapes.split_on cut right.old.node (N.body node.old.body)) p right.old.node) }
{
    sound_law::<Tree>();
    tree_asks_law();
    tree_parts_law();
    tree_steps_law();
    unlinked_law::<N>();
    node_law(&node.body);
    node.body.split_to(&mut right.body, cut);
    node.body.reach(&right.body);
    node.body.adopt(cut, right.node);
    right.live = true;
    node_law(&node.body);
    node_law(&right.body);
    arena.shape(pass, node, Some(right), None);
}

/// The node keeps what it has below the cut, `right` gets the rest, and the parent, a branch that leads to the node, leads to both.
pub fn split_under<N: Unlinked>(
    arena: &Arena<N, Tree>,
    pass: &mut Pass<N, Tree>,
    parent: &mut Held<N>,
    node: &mut Held<N>,
    right: &mut Held<N>,
    cut: u64,
)
    requires pass { IsPassOf arena.now pass.old }
    requires parent { IsLiveInHand arena.now pass.old parent.old }
    requires node { IsLiveInHand arena.now pass.old node.old }
    requires right { IsFreeInHand arena.now pass.old right.old }
    requires branch { IsTrue (is_branch (N.body parent.old.body)) }
    requires leads { (place : ℕ) × LeadsTo (record_of (N.body parent.old.body)) place node.old.node }
    requires apart { parent.old.node ≢ node.old.node }
    requires full { IsTrue (is_full N.layout (N.body node.old.body)) }
    requires cut { IsInside pass.old node.old.node cut × CanSplitAt (N.body node.old.body) cut }
    requires adopts { IsTrue (N.can_adopt_at (content_of (N.body parent.old.body)) cut) }
    ensures pass { IsPassOf arena.now pass.new }
    ensures caller { SameCaller pass.old pass.new }
    ensures fills { (place : ℕ) → MustSplit N.layout place (N.body node.old.body) →
        OnlyFills N.layout N.ranged place pass.old pass.new }
    ensures shaped { HasShaped arena.now (splits_under arena.now parent.old node.old right.old cut) pass.old pass.new }
    ensures parent { HasBecome arena.now pass.new
        (adopted cut right.old.node (N.body parent.old.body)) parent.old parent.new }
    ensures node { HasBecome arena.now pass.new (split_left cut (N.body node.old.body)) node.old node.new }
    ensures right { HasBecome arena.now pass.new (split_right cut (N.body node.old.body)) right.old right.new }
    ensures parts { (p : ℕ) → IsInside pass.old node.old.node p →
        (p < cut → LeadsInto pass.new (adopted cut right.old.node (N.body parent.old.body)) p node.old.node)
        × (cut ≤ p → LeadsInto pass.new (adopted cut right.old.node (N.body parent.old.body)) p right.old.node) }
{
    sound_law::<Tree>();
    tree_asks_law();
    tree_parts_law();
    tree_steps_law();
    unlinked_law::<N>();
    node_law(&parent.body);
    node_law(&node.body);
    node.body.split_to(&mut right.body, cut);
    parent.body.adopt(cut, right.node);
    right.live = true;
    node_law(&parent.body);
    node_law(&node.body);
    node_law(&right.body);
    arena.shape(pass, parent, Some(node), Some(right));
}

/// The node becomes a branch over `left` and `right`, which get what it has below the cut and the rest.
pub fn grow<N: Unlinked>(
    arena: &Arena<N, Tree>,
    pass: &mut Pass<N, Tree>,
    node: &mut Held<N>,
    left: &mut Held<N>,
    right: &mut Held<N>,
    cut: u64,
)
    requires pass { IsPassOf arena.now pass.old }
    requires node { IsLiveInHand arena.now pass.old node.old }
    requires left { IsFreeInHand arena.now pass.old left.old }
    requires right { IsFreeInHand arena.now pass.old right.old }
    requires apart { left.old.node ≢ right.old.node }
    requires full { IsTrue (is_full N.layout (N.body node.old.body)) }
    requires cut { IsInside pass.old node.old.node cut × CanSplitAt (N.body node.old.body) cut }
    requires grows { IsTrue (N.grows_at (content_of (N.body node.old.body)))
        × IsTrue (N.can_grow_at (content_of (N.body node.old.body)) cut) }
    ensures pass { IsPassOf arena.now pass.new }
    ensures caller { SameCaller pass.old pass.new }
    ensures fills { (place : ℕ) → MustSplit N.layout place (N.body node.old.body) →
        OnlyFills N.layout N.ranged place pass.old pass.new }
    ensures shaped { HasShaped arena.now (grows_to arena.now node.old left.old right.old cut) pass.old pass.new }
    ensures node { HasBecome arena.now pass.new
        (grown N.branch_kind cut left.old.node right.old.node (N.body node.old.body)) node.old node.new }
    ensures left { HasBecome arena.now pass.new (split_left cut (N.body node.old.body)) left.old left.new }
    ensures right { HasBecome arena.now pass.new (split_right cut (N.body node.old.body)) right.old right.new }
    ensures parts { let branch = grown N.branch_kind cut left.old.node right.old.node (N.body node.old.body) in
        (p : ℕ) → IsInside pass.old node.old.node p → (p < cut → LeadsInto pass.new branch p left.old.node)
        × (cut ≤ p → LeadsInto pass.new branch p right.old.node) }
{
    sound_law::<Tree>();
    tree_asks_law();
    tree_parts_law();
    tree_steps_law();
    unlinked_law::<N>();
    node_law(&node.body);
    node.body.grow(&mut left.body, &mut right.body, left.node, right.node, cut);
    left.live = true;
    right.live = true;
    node_law(&node.body);
    node_law(&left.body);
    node_law(&right.body);
    arena.shape(pass, node, Some(left), Some(right));
}

/// The node takes in what `right` has, to which its own edge leads; `right` becomes free.
pub fn absorb_own<N: Unlinked>(
    arena: &Arena<N, Tree>,
    pass: &mut Pass<N, Tree>,
    node: &mut Held<N>,
    right: &mut Held<N>,
)
    requires pass { IsPassOf arena.now pass.old }
    requires node { IsLiveInHand arena.now pass.old node.old }
    requires right { IsLiveInHand arena.now pass.old right.old }
    requires chained { chained_of (N.body node.old.body) ≡ Some right.old.node }
    requires apart { node.old.node ≢ right.old.node }
    requires fits { IsTrue (fit_together N.layout (N.body node.old.body) (N.body right.old.body)) }
    ensures pass { IsPassOf arena.now pass.new }
    ensures caller { SameCaller pass.old pass.new }
    ensures dels { IsTrue (is_low N.layout (N.body node.old.body)) → OnlyDels N.layout N.ranged pass.old pass.new }
    ensures shaped { HasShaped arena.now (absorbs_own arena.now node.old right.old) pass.old pass.new }
    ensures node { HasBecome arena.now pass.new
        (absorbed (N.body node.old.body) (N.body right.old.body)) node.old node.new }
    ensures right { HasBecomeFree arena.now pass.new right.old right.new }
    ensures places { HasPlaces node.old.node node.old.node pass.old pass.new }
{
    sound_law::<Tree>();
    tree_asks_law();
    tree_steps_law();
    tree_insets_law();
    unlinked_law::<N>();
    node_law(&node.body);
    node_law(&right.body);
    node.body.absorb(&mut right.body);
    right.live = false;
    node_law(&node.body);
    arena.shape(pass, node, Some(right), None);
}

/// The node takes in what `right` has, to which the parent's next edge leads, and the parent forgets it; `right` becomes free.
pub fn absorb_under<N: Unlinked>(
    arena: &Arena<N, Tree>,
    pass: &mut Pass<N, Tree>,
    parent: &mut Held<N>,
    node: &mut Held<N>,
    right: &mut Held<N>,
)
    requires pass { IsPassOf arena.now pass.old }
    requires parent { IsLiveInHand arena.now pass.old parent.old }
    requires node { IsLiveInHand arena.now pass.old node.old }
    requires right { IsLiveInHand arena.now pass.old right.old }
    requires branch { IsTrue (is_branch (N.body parent.old.body)) }
    requires leads { (place : ℕ) × LeadsTo (record_of (N.body parent.old.body)) place node.old.node
        × (right_child (N.body parent.old.body) place ≡ Some right.old.node) }
    requires unchained { chained_of (N.body node.old.body) ≡ None }
    requires apart { (parent.old.node ≢ node.old.node) × (parent.old.node ≢ right.old.node)
        × (node.old.node ≢ right.old.node) }
    requires fits { IsTrue (fit_together N.layout (N.body node.old.body) (N.body right.old.body)) }
    ensures pass { IsPassOf arena.now pass.new }
    ensures caller { SameCaller pass.old pass.new }
    ensures dels { IsTrue (is_low N.layout (N.body node.old.body)) → OnlyDels N.layout N.ranged pass.old pass.new }
    ensures shaped { HasShaped arena.now (absorbs_under arena.now parent.old node.old right.old) pass.old pass.new }
    ensures parent { HasBecome arena.now pass.new
        (forgot right.old.node (N.body parent.old.body)) parent.old parent.new }
    ensures node { HasBecome arena.now pass.new
        (absorbed (N.body node.old.body) (N.body right.old.body)) node.old node.new }
    ensures right { HasBecomeFree arena.now pass.new right.old right.new }
    ensures places { HasPlaces node.old.node node.old.node pass.old pass.new }
    ensures leads { (p : ℕ) → IsInside pass.old node.old.node p →
        LeadsTo (record_of (forgot right.old.node (N.body parent.old.body))) p node.old.node }
{
    sound_law::<Tree>();
    tree_asks_law();
    tree_steps_law();
    tree_insets_law();
    unlinked_law::<N>();
    node_law(&parent.body);
    node_law(&node.body);
    node_law(&right.body);
    node.body.absorb(&mut right.body);
    parent.body.forget(right.node);
    right.live = false;
    node_law(&parent.body);
    node_law(&node.body);
    arena.shape(pass, parent, Some(node), Some(right));
}

/// The node becomes what its only child is, which becomes free.
pub fn collapse<N: Unlinked>(
    arena: &Arena<N, Tree>,
    pass: &mut Pass<N, Tree>,
    node: &mut Held<N>,
    child: &mut Held<N>,
)
    requires pass { IsPassOf arena.now pass.old }
    requires node { IsLiveInHand arena.now pass.old node.old }
    requires child { IsLiveInHand arena.now pass.old child.old }
    requires sole { only_child_of (N.body node.old.body) ≡ Some child.old.node }
    requires apart { node.old.node ≢ child.old.node }
    ensures pass { IsPassOf arena.now pass.new }
    ensures caller { SameCaller pass.old pass.new }
    ensures dels { OnlyDels N.layout N.ranged pass.old pass.new }
    ensures shaped { HasShaped arena.now (collapses_to arena.now node.old child.old) pass.old pass.new }
    ensures node { HasBecome arena.now pass.new
        (collapsed (N.body node.old.body) (N.body child.old.body)) node.old node.new }
    ensures child { HasBecomeFree arena.now pass.new child.old child.new }
    ensures places { HasPlaces child.old.node node.old.node pass.old pass.new }
{
    sound_law::<Tree>();
    tree_asks_law();
    tree_steps_law();
    tree_insets_law();
    unlinked_law::<N>();
    node_law(&node.body);
    node_law(&child.body);
    node.body.collapse(&mut child.body);
    child.live = false;
    node_law(&node.body);
    arena.shape(pass, node, Some(child), None);
}

//! Where a full node is cut.
ghost use Rattle.std.specs.Prelude.{◌≡◌, ◌⊎◌, IsTrue, false};
ghost use Rattle.ks_node.specs.Body.{is_branch};
ghost use Rattle.ks_node.specs.Room.{is_full, in_place};
ghost use Rattle.ks_node.specs.Asks.{CanSplitAt, HalvesHaveRoom};
ghost use Rattle.ks_arena.specs.Of.{IsInside, IsPassOf, IsLiveAndCurrent};
ghost use Rattle.ks_shape.specs.Paths.{LeadsDown};
ghost use Rattle.ks_put.specs.Of.{AllGrow};
ghost use Rattle.ks_put.specs.Parts.{Grows, CanAt, LeafCanAt, BranchCanAt, HalfAdopts};

use ks_arena::{Arena, Held, Pass};
use ks_bodies::{tree_asks_law, tree_spans_law};
use ks_flow::Tree;
use ks_keysets::Span;
use ks_node::{Unlinked, node_law, unlinked_law};
use ks_shape::search_law;

/// The cut of a full node that needs no parent to be split. If it is no branch, or all nodes grow and branches adopt, it
/// grows, or is no branch and can adopt the cut.
pub(crate) fn cut_whole<N: Unlinked>(
    arena: &Arena<N, Tree>,
    pass: &Pass<N, Tree>,
    node: &Held<N>,
) -> u64
    requires pass { IsPassOf arena.now pass.now }
    requires whole { (node.now.node ≡ 0) ⊎ IsTrue (in_place N.layout) }
    requires node { IsLiveAndCurrent arena.now pass.now node.now }
    requires full { IsTrue (is_full N.layout (N.body node.now.body)) }
    ensures cut { IsInside pass.now node.now.node result × CanSplitAt (N.body node.now.body) result }
    ensures grows { Grows N.grows_at (N.body node.now.body) → CanAt N.can_grow_at (N.body node.now.body) result }
    ensures open { (IsTrue (is_branch (N.body node.now.body)) → AllGrow arena.now) →
        Grows N.grows_at (N.body node.now.body) ⊎ LeafCanAt N.can_adopt_at (N.body node.now.body) result }
    ensures halves { IsTrue N.halves_have_room → HalvesHaveRoom N.layout result (N.body node.now.body) }
    ensures adopts { HalfAdopts N.can_adopt_at (N.body node.now.body) result }
{
    search_law();
    tree_spans_law();
    unlinked_law::<N>();
    node_law(&node.body);
    let span = if node.node == 0 {
        Some(Span {
            low: 0,
            last: u64::MAX,
        })
    } else {
        None
    };
    node.body.cut(span)
}

/// The cut of a full node below its parent, which leads to it at the place, where no node of the type grows in place. If
/// all nodes grow and branches adopt, the node, if no branch, or the parent can adopt the cut unless the parent is full; if
/// not, unless the node is a branch.
pub(crate) fn cut_below<N: Unlinked>(
    arena: &Arena<N, Tree>,
    pass: &Pass<N, Tree>,
    place: u64,
    parent: &Held<N>,
    node: &Held<N>,
) -> u64
    requires pass { IsPassOf arena.now pass.now }
    requires above { LeadsDown arena.now place node.now.node pass.now parent.now }
    requires node { IsLiveAndCurrent arena.now pass.now node.now }
    requires full { IsTrue (is_full N.layout (N.body node.now.body)) }
    requires at_root { in_place N.layout ≡ false }
    ensures cut { IsInside pass.now node.now.node result × CanSplitAt (N.body node.now.body) result }
    ensures open { (IsTrue (is_branch (N.body node.now.body)) → AllGrow arena.now) →
        (AllGrow arena.now → is_full N.layout (N.body parent.now.body) ≡ false) →
        LeafCanAt N.can_adopt_at (N.body node.now.body) result ⊎
        BranchCanAt N.can_adopt_at (N.body parent.now.body) result }
    ensures halves { IsTrue N.halves_have_room → HalvesHaveRoom N.layout result (N.body node.now.body) }
    ensures adopts { HalfAdopts N.can_adopt_at (N.body node.now.body) result }
{
    search_law();
    tree_asks_law();
    tree_spans_law();
    unlinked_law::<N>();
    node_law(&parent.body);
    node_law(&node.body);
    let span = if parent.node == 0 {
        parent.body.span_for(place)
    } else {
        None
    };
    node.body.cut(span)
}

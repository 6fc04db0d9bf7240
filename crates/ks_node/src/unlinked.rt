//! Nodes with no link to the right: how they split, grow and merge.

ghost use Rattle.std.specs.Prelude.{◌≢◌, ◌≡◌, ℕ, ◌<◌, ◌-◌, ◌^◌, Bool, Option, IsTrue, IsSome, Some, None, true, false, length, nat_eq, ◌||◌, ◌⊎◌};
ghost use Rattle.ks_node.specs.Body.{Body, Content, begins, content_of, is_branch, IsBlank, only_child_of, first_node};
ghost use Rattle.ks_node.specs.Room.{is_full, fit_together, in_place};
ghost use Rattle.ks_node.specs.Effect.{split_left, split_right, reached, grown, absorbed, forgot, collapsed, emptied};
ghost use Rattle.ks_node.specs.Asks.{CanSplitAt, AreNext, Absorbs, AdoptsItsCut, GrowsBare};

use crate::node::Node;

/// A node that is reached by the edges of branches, or by an edge of its left neighbour's own.
pub trait Unlinked: Node {
    /// Moves what is from the cut on into a blank node.
    fn split_to(&mut self, right: &mut Self, cut: u64)
        requires full { IsTrue (is_full Self.layout (Self.body self.old)) }
        requires blank { IsBlank (Self.body right.old) }
        requires cut { CanSplitAt (Self.body self.old) cut }
        ensures left { Self.body self.new ≡ split_left cut (Self.body self.old) }
        ensures right { Self.body right.new ≡ split_right cut (Self.body self.old) };

    /// Extends the range to the end of that of the node right of it.
    fn reach(&mut self, right: &Self)
        requires { AreNext (Self.body self.old) (Self.body right.now) }
        ensures { Self.body self.new ≡ reached (Self.body self.old) (Self.body right.now) };

    /// Moves what it has into two blank nodes, left and right of the cut, and becomes a branch over them.
    fn grow(&mut self, left: &mut Self, right: &mut Self, left_id: u32, right_id: u32, cut: u64)
        requires full { IsTrue (is_full Self.layout (Self.body self.old)) }
        requires grows { IsTrue (Self.grows_at (content_of (Self.body self.old))) }
        requires left_blank { IsBlank (Self.body left.old) }
        requires right_blank { IsBlank (Self.body right.old) }
        requires cut { CanSplitAt (Self.body self.old) cut }
        requires at { IsTrue (Self.can_grow_at (content_of (Self.body self.old)) cut) }
        ensures branch { Self.body self.new ≡ grown Self.branch_kind cut left_id right_id (Self.body self.old) }
        ensures left { Self.body left.new ≡ split_left cut (Self.body self.old) }
        ensures right { Self.body right.new ≡ split_right cut (Self.body self.old) };

    /// Takes in all that the node right of it has, which becomes blank.
    fn absorb(&mut self, right: &mut Self)
        requires fits { IsTrue (fit_together Self.layout (Self.body self.old) (Self.body right.old)) }
        requires meets { Absorbs (Self.body self.old) (Self.body right.old) }
        ensures left { Self.body self.new ≡ absorbed (Self.body self.old) (Self.body right.old) }
        ensures right { Self.body right.new ≡ emptied (Self.body right.old) };

    /// Drops the edge of a branch that leads to a node; the edge before it reaches to its end.
    fn forget(&mut self, id: u32)
        requires branch { IsTrue (is_branch (Self.body self.old)) }
        requires later { first_node (Self.body self.old).starts ≢ Some id }
        ensures { Self.body self.new ≡ forgot id (Self.body self.old) };

    /// Becomes what its only child is, which becomes blank.
    fn collapse(&mut self, child: &mut Self)
        requires one { IsSome (only_child_of (Self.body self.old)) }
        requires range { (Self.body self.old).range ≡ (Self.body child.old).range }
        ensures parent { Self.body self.new ≡ collapsed (Self.body self.old) (Self.body child.old) }
        ensures child { Self.body child.new ≡ emptied (Self.body child.old) };

    /// There is no link.
    ghost no_link: { (s : Self) → (Self.body s).link ≡ None };

    /// There is only one level.
    ghost no_level: { (s : Self) → (Self.body s).level ≡ 0 };

    /// A node is cut by the span that is passed.
    ghost by_span: { Self.cuts_by_range ≡ false };

    /// An edge is added only at a cut at which none starts.
    ghost none_starts: { (c : Content) (cut : ℕ) → IsTrue (Self.can_adopt_at c cut) → begins cut c.starts ≡ false };

    /// If it does not grow in place, either each full node can adopt its cut, or each node grows, branches adopt, and neither
    /// half of a full node is full.
    ghost sort: { in_place Self.layout ≡ false →
        ((s : Self) → AdoptsItsCut Self.can_adopt_at Self.cut_at Self.layout (Self.body s))
        ⊎ (((s : Self) → IsTrue (Self.grows_at (content_of (Self.body s)))) × IsTrue Self.branches_adopt
        × IsTrue Self.halves_have_room) };

    /// If it grows in place, each node grows, one that is no branch has no edge, and neither half of a full node is full.
    ghost stands: { IsTrue (in_place Self.layout) → ((s : Self) → GrowsBare Self.grows_at (Self.body s))
        × IsTrue Self.halves_have_room };
}

/// A node that grows if it is a branch or has no edge.
pub trait Growing: Unlinked {
    /// A branch grows, and so does a node with no edge.
    ghost grows_where: { (s : Self) → IsTrue (is_branch (Self.body s) || nat_eq (length (Self.body s).starts) 0) →
        IsTrue (Self.grows_at (content_of (Self.body s))) };

    /// Only the root grows.
    ghost at_root: { in_place Self.layout ≡ false };

    /// Its edges and one more can be counted.
    ghost few_edges: { (s : Self) → length (Self.body s).starts < 2 ^ 32 - 1 };
}

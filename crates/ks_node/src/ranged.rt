//! Nodes that know which places may be searched for in them, and nodes with a link to the right.

ghost use Rattle.std.specs.Prelude.{◌≡◌, ℕ, ◌+◌, ◌<◌, Bool, Option, IsTrue, true, false, length, nat_eq, nat_lt, is_some, Some, None, ◌||◌};
ghost use Rattle.ks_keysets.specs.Record.{top};
ghost use Rattle.ks_node.specs.Body.{Body, content_of, is_branch, IsBlank, last_of};
ghost use Rattle.ks_node.specs.Room.{is_full, in_place};
ghost use Rattle.ks_node.specs.Effect.{split_left, split_right, grown, with_link, with_level};
ghost use Rattle.ks_node.specs.Asks.{CanSplitAt};

use crate::node::Node;
use ks_keysets::Span;

/// A node with a range.
pub trait Ranged: Node {
    /// The places that may be searched for here.
    fn range(&self) -> Span
        ensures { (Self.body self.now).range ≡ Some result };

    /// Each body has a range.
    ghost is_ranged: { Self.ranged ≡ true };
}

/// A node with a level and, if its range does not end at the last place, a link to the node right of it.
pub trait Linked: Ranged {
    /// How many levels are below it.
    fn level(&self) -> u32
        ensures { result ≡ (Self.body self.now).level };

    /// The node whose range begins where this one's ends.
    fn link(&self) -> Option<u32>
        ensures { result ≡ (Self.body self.now).link };

    /// Moves what is from the cut on into a blank node of the same level, which takes over the link, and links to it.
    fn split_link(&mut self, right: &mut Self, right_id: u32, cut: u64)
        requires full { IsTrue (is_full Self.layout (Self.body self.old)) }
        requires blank { IsBlank (Self.body right.old) }
        requires cut { CanSplitAt (Self.body self.old) cut }
        ensures left { Self.body self.new ≡ with_link (Some right_id) (split_left cut (Self.body self.old)) }
        ensures right { Self.body right.new ≡ split_right cut (Self.body self.old) };

    /// Moves what it has into two blank nodes of its level, the left linked to the right, and becomes a branch over
    /// them, one level higher.
    fn grow_link(
        &mut self,
        left: &mut Self,
        right: &mut Self,
        left_id: u32,
        right_id: u32,
        cut: u64,
    )
        requires full { IsTrue (is_full Self.layout (Self.body self.old)) }
        requires grows { IsTrue (Self.grows_at (content_of (Self.body self.old))) }
        requires left_blank { IsBlank (Self.body left.old) }
        requires right_blank { IsBlank (Self.body right.old) }
        requires cut { CanSplitAt (Self.body self.old) cut }
        requires at { IsTrue (Self.can_grow_at (content_of (Self.body self.old)) cut) }
        requires ends { last_of (Self.body self.old).range ≡ top }
        requires level { (Self.body self.old).level < 4294967295 }
        ensures branch { Self.body self.new
            ≡ with_level ((Self.body self.old).level + 1)
            (grown Self.branch_kind cut left_id right_id (Self.body self.old)) }
        ensures left { Self.body left.new ≡ with_link (Some right_id) (split_left cut (Self.body self.old)) }
        ensures right { Self.body right.new ≡ with_link None (split_right cut (Self.body self.old)) };

    /// There is a link if the range ends below the last place.
    ghost link_where: { (s : Self) → is_some (Self.body s).link ≡ nat_lt (last_of (Self.body s).range) top };

    /// A node is cut by its range.
    ghost by_range: { Self.cuts_by_range ≡ true };

    /// Only the root grows.
    ghost at_root: { in_place Self.layout ≡ false };

    /// A branch grows, and so does a node with no edge except its link.
    ghost grows_where: { (s : Self) → IsTrue (is_branch (Self.body s) || nat_eq (length (Self.body s).starts) 0) →
        IsTrue (Self.grows_at (content_of (Self.body s))) };
}

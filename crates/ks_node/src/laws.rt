//! What holds of every node, as calls that do nothing: generic code cites their clauses.

ghost use Rattle.std.specs.Prelude.{◌≡◌, ℕ, ◌<◌, ◌-◌, ◌^◌, ◌||◌, ◌⊎◌, Option, IsTrue, Some, None, true, false, length, nat_eq, nat_lt, is_some};
ghost use Rattle.std.specs.Option.{ForSome};
ghost use Rattle.ks_keysets.specs.Layout.{room};
ghost use Rattle.ks_keysets.specs.Record.{top};
ghost use Rattle.ks_node.specs.Body.{Content, begins, content_of, is_branch, is_branch_kind, last_of};
ghost use Rattle.ks_node.specs.Room.{IsHeld, is_full, may_grow, in_place};
ghost use Rattle.ks_node.specs.Asks.{IsCut, AdoptsItsCut, BranchesAdopt, GrowsBare};
ghost use Rattle.ks_node.specs.Sound.{Sound, Framed};

use crate::node::Node;
use crate::ranged::Linked;
use crate::unlinked::{Growing, Unlinked};

/// The laws of a node: order and shape, its range, its load, how it adopts.
pub fn node_law<N: Node>(node: &N)
    ensures sound { Sound (content_of (N.body node.now)) }
    ensures framed { ForSome (N.body node.now).range (λ r. Framed r (N.body node.now)) }
    ensures held { IsHeld N.layout (N.body node.now) }
    ensures has_range { is_some (N.body node.now).range ≡ N.ranged }
    ensures adopting { IsTrue N.branches_adopt → BranchesAdopt N.can_adopt_at N.layout (N.body node.now) }
    ensures room_is { room N.layout ≡ N.ROOM }
    ensures grows_as { IsTrue (N.grows_at (content_of (N.body node.now))) → IsTrue (may_grow N.layout) }
    ensures becomes_branch { IsTrue (is_branch_kind N.branch_kind) }
{}

/// A branch that is not full adopts a cut in its range at which no edge starts, if the type promises it.
pub fn adopt_law<N: Node>(node: &N, cut: u64)
    ensures { IsTrue N.branches_adopt → IsTrue (is_branch (N.body node.now)) →
        is_full N.layout (N.body node.now) ≡ false → IsCut (N.body node.now) cut →
        begins cut (N.body node.now).starts ≡ false → IsTrue (N.can_adopt_at (content_of (N.body node.now)) cut) }
{}

/// The laws of a node type without links: neither link nor level, how it is cut, which of its nodes adopt or grow, and where.
pub fn unlinked_law<N: Unlinked>()
    ensures no_link { (s : N) → (N.body s).link ≡ None }
    ensures no_level { (s : N) → (N.body s).level ≡ 0 }
    ensures by_span { N.cuts_by_range ≡ false }
    ensures none_starts { (c : Content) (cut : ℕ) → IsTrue (N.can_adopt_at c cut) → begins cut c.starts ≡ false }
    ensures adopting { IsTrue N.branches_adopt → (s : N) → BranchesAdopt N.can_adopt_at N.layout (N.body s) }
    ensures sort { in_place N.layout ≡ false →
        ((s : N) → AdoptsItsCut N.can_adopt_at N.cut_at N.layout (N.body s))
        ⊎ (((s : N) → IsTrue (N.grows_at (content_of (N.body s)))) × IsTrue N.branches_adopt
        × IsTrue N.halves_have_room) }
    ensures stands { IsTrue (in_place N.layout) → ((s : N) → GrowsBare N.grows_at (N.body s)) × IsTrue N.halves_have_room }
{}

/// The laws of a node type whose branches grow, and its nodes with no edge.
pub fn growing_law<N: Growing>()
    ensures grows_where { (s : N) → IsTrue (is_branch (N.body s) || nat_eq (length (N.body s).starts) 0) →
        IsTrue (N.grows_at (content_of (N.body s))) }
    ensures at_root { in_place N.layout ≡ false }
    ensures few_edges { (s : N) → length (N.body s).starts < 2 ^ 32 - 1 }
{}

/// The laws of a node type with links: its range, when it has a link, how it is cut, which of its nodes adopt or grow.
pub fn linked_law<N: Linked>()
    ensures is_ranged { N.ranged ≡ true }
    ensures at_root { in_place N.layout ≡ false }
    ensures link_where { (s : N) → is_some (N.body s).link ≡ nat_lt (last_of (N.body s).range) top }
    ensures by_range { N.cuts_by_range ≡ true }
    ensures adopting { IsTrue N.branches_adopt → (s : N) → BranchesAdopt N.can_adopt_at N.layout (N.body s) }
    ensures grows_where { (s : N) → IsTrue (is_branch (N.body s) || nat_eq (length (N.body s).starts) 0) →
        IsTrue (N.grows_at (content_of (N.body s))) }
{}

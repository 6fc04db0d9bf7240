//! Nodes whose keys are their places, so that a span of keys is a span of places, and that list the pairs of a span.

ghost use Rattle.std.specs.Prelude.{◌≡◌, ℕ, ◌<◌, ◌^◌, IsTrue, []};
ghost use Rattle.ks_node.specs.Effect.{pairs_within};

use crate::ranged::Ranged;
use crate::unlinked::Unlinked;
use ks_keysets::Few;

/// A node type without links whose keys are its places. A wrapper makes it `Listed`.
pub trait Ordered: Unlinked {
    /// Fills an empty list with the pairs from `low` to `last`, both included, in ascending order. There is none in a
    /// branch, and none if `last` is below `low`.
    fn pairs_in(&self, low: u64, last: u64, into: &mut Few)
        requires { into.old ≡ [] }
        ensures { into.new ≡ pairs_within low last (Self.body self.now).pairs };

    /// Each key is its place.
    ghost plain: { (k : ℕ) → k < 2 ^ 64 → Self.Places.place_of k ≡ k };

    /// Only branches have edges.
    ghost adopts: { IsTrue Self.branches_adopt };
}

/// A node with a range whose keys are its places.
pub trait Listed: Ranged {
    /// Fills an empty list with the pairs from `low` to `last`, both included, in ascending order. There is none in a
    /// branch, and none if `last` is below `low`.
    fn list(&self, low: u64, last: u64, into: &mut Few)
        requires { into.old ≡ [] }
        ensures { into.new ≡ pairs_within low last (Self.body self.now).pairs };

    /// Each key is its place.
    ghost plain: { (k : ℕ) → k < 2 ^ 64 → Self.Places.place_of k ≡ k };

    /// Only branches have edges, except a link.
    ghost adopts: { IsTrue Self.branches_adopt };
}

/// The laws of a node type that lists: each key is its place, and only branches have edges, except a link.
pub fn listed_law<N: Listed>()
    ensures plain { (k : ℕ) → k < 2 ^ 64 → N.Places.place_of k ≡ k }
    ensures adopts { IsTrue N.branches_adopt }
{}

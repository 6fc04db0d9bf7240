//! What a node stores: a leaf its pairs, a fork its two children and where the right one starts, a stem its only child.

ghost use Rattle.std.specs.Prelude.{◌≡◌, ◌≢◌, ◌+◌, ◌<◌, ◌≤◌, ◌++◌, [], None, Some, suc, true, false, length, slice_index_or};
ghost use Rattle.ks_keysets.specs.Record.{top};
ghost use Rattle.ks_node.specs.Keyed.{Ascends};
ghost use Rattle.ks_node.specs.Body.{value_at, pairs_below, pairs_from, starts_from, led_to, go_to, first_node, sole};
ghost use Rattle.ks_node.specs.Effect.{pairs_put, pairs_del, without};
ghost use Rattle.ks_node.specs.Spans.{plain_edges};
ghost use Rattle.ks_bst.specs.Parts.{is_inner, pairs_of, starts_of, cut_of};

use ks_keysets::{Edge, Pair, Span};
use ks_node::Next;
use ks_pairs::Pairs;

/// A leaf's pairs, or the children of an inner node. Those of a fork are left and right of a cut; a stem has one child for
/// all its places.
#[derive(Drop)]
pub(crate) enum Parts {
    Leaf(Pairs<2>),
    Fork { left: u32, cut: u64, right: u32 },
    Stem { child: u32 },
}

impl Parts {
    /// A leaf with no pair.
    pub(crate) fn blank() -> Self
        ensures leaf { is_inner result ≡ false }
        ensures pairs { pairs_of result ≡ [] }
        ensures starts { starts_of result ≡ [] }
    {
        Parts::Leaf(Pairs::new())
    }

    /// Whether there are children.
    pub(crate) fn is_inner(&self) -> bool
        ensures { result ≡ is_inner self.now }
    {
        match self {
            Parts::Leaf(_) => false,
            _ => true,
        }
    }

    /// The number of children: 0 in a leaf.
    pub(crate) fn children(&self) -> u32
        ensures { result ≡ length (starts_of self.now) }
    {
        match self {
            Parts::Leaf(_) => 0,
            Parts::Fork { .. } => 2,
            Parts::Stem { .. } => 1,
        }
    }

    /// The number of pairs: 0 in an inner node.
    pub(crate) fn pairs_held(&self) -> usize
        ensures is { result ≡ length (pairs_of self.now) }
        ensures fits { result ≤ 2 }
    {
        match self {
            Parts::Leaf(pairs) => pairs.len(),
            _ => 0,
        }
    }

    /// The pair at an index.
    pub(crate) fn pair(&self, at: usize) -> Pair
        requires { at < length (pairs_of self.now) }
        ensures { result ≡ slice_index_or (pairs_of self.now) at result }
    {
        match self {
            Parts::Leaf(pairs) => pairs.pair(at),
            _ => unreachable!(),
        }
    }

    /// The place of the second pair.
    pub(crate) fn cut(&self) -> u64
        requires { length (pairs_of self.now) ≡ 2 }
        ensures { result ≡ cut_of self.now }
    {
        match self {
            Parts::Leaf(pairs) => pairs.pair(1).place,
            _ => unreachable!(),
        }
    }

    /// Where the search for a place continues.
    pub(crate) fn next(&self, place: u64) -> Next
        ensures { result ≡ go_to (led_to (starts_of self.now) place) }
    {
        match self {
            Parts::Leaf(_) => Next::Here,
            Parts::Fork { left, cut, right } => Next::Go(if place < *cut { *left } else { *right }),
            Parts::Stem { child } => Next::Go(*child),
        }
    }

    /// The child after the one of a place.
    pub(crate) fn right_of(&self, place: u64) -> Option<u32>
        ensures { result ≡ first_node (starts_from (suc place) (starts_of self.now)) }
    {
        match self {
            Parts::Fork { cut, right, .. } if place < *cut => Some(*right),
            _ => None,
        }
    }

    /// The child, if all children are the same node.
    pub(crate) fn only_child(&self) -> Option<u32>
        ensures { result ≡ sole (starts_of self.now) }
    {
        match self {
            Parts::Fork { left, right, .. } if *right == *left => Some(*left),
            Parts::Stem { child } => Some(*child),
            _ => None,
        }
    }

    /// The edge to the child at an index.
    pub(crate) fn edge(&self, at: u32) -> Edge
        requires within { at < length (starts_of self.now) }
        requires ascend { Ascends (λ s. s.low) (starts_of self.now) }
        ensures { result ≡ slice_index_or (plain_edges 0 top (starts_of self.now)) at result }
    {
        match self {
            Parts::Leaf(_) => unreachable!(),
            Parts::Fork { left, cut, right } => {
                if at == 0 {
                    edge_to(0, *cut - 1, *left)
                } else {
                    edge_to(*cut, u64::MAX, *right)
                }
            }
            Parts::Stem { child } => edge_to(0, u64::MAX, *child),
        }
    }

    /// The value at a place.
    pub(crate) fn get(&self, place: u64) -> Option<u128>
        requires { Ascends (λ x. x.place) (pairs_of self.now) }
        ensures { result ≡ value_at (pairs_of self.now) place }
    {
        match self {
            Parts::Leaf(pairs) => pairs.get(place),
            _ => None,
        }
    }

    /// Sets the value at a place of a leaf, and returns the one that was there.
    pub(crate) fn put(&mut self, place: u64, value: u128) -> Option<u128>
        requires leaf { is_inner self.old ≡ false }
        requires ascend { Ascends (λ x. x.place) (pairs_of self.old) }
        requires room { value_at (pairs_of self.old) place ≡ None → length (pairs_of self.old) < 2 }
        ensures answer { result ≡ value_at (pairs_of self.old) place }
        ensures leaf { is_inner self.new ≡ is_inner self.old }
        ensures pairs { pairs_of self.new ≡ pairs_put place value (pairs_of self.old) }
        ensures starts { starts_of self.new ≡ starts_of self.old }
        ensures fits { length (pairs_of self.new) ≤ 2 }
    {
        match self {
            Parts::Leaf(pairs) => pairs.put(place, value),
            _ => unreachable!(),
        }
    }

    /// Removes the pair of a place from a leaf, and returns its value.
    pub(crate) fn del(&mut self, place: u64) -> Option<u128>
        requires leaf { is_inner self.old ≡ false }
        requires ascend { Ascends (λ x. x.place) (pairs_of self.old) }
        ensures answer { result ≡ value_at (pairs_of self.old) place }
        ensures leaf { is_inner self.new ≡ is_inner self.old }
        ensures pairs { pairs_of self.new ≡ pairs_del place (pairs_of self.old) }
        ensures starts { starts_of self.new ≡ starts_of self.old }
        ensures fits { length (pairs_of self.new) ≤ 2 }
    {
        match self {
            Parts::Leaf(pairs) => pairs.del(place),
            _ => unreachable!(),
        }
    }

    /// Takes away the right child of a fork if it is `node`: a stem with the left one is what is left.
    pub(crate) fn forget(&mut self, node: u32)
        requires inner { is_inner self.old ≡ true }
        requires later { first_node (starts_of self.old) ≢ Some node }
        ensures inner { is_inner self.new ≡ true }
        ensures pairs { pairs_of self.new ≡ pairs_of self.old }
        ensures starts { starts_of self.new ≡ without node (starts_of self.old) }
    {
        match self {
            Parts::Leaf(_) => unreachable!(),
            Parts::Fork { left, right, .. } => {
                if *right == node {
                    let child = *left;
                    *self = Parts::Stem { child };
                }
            }
            Parts::Stem { .. } => {}
        }
    }

    /// Moves the pairs of a leaf from a cut on into a leaf with no pair.
    pub(crate) fn split_to(&mut self, right: &mut Self, cut: u64)
        requires leaf { is_inner self.old ≡ false }
        requires ascend { Ascends (λ x. x.place) (pairs_of self.old) }
        requires right_leaf { is_inner right.old ≡ false }
        requires right_blank { pairs_of right.old ≡ [] }
        ensures leaf { is_inner self.new ≡ false }
        ensures pairs { pairs_of self.new ≡ pairs_below cut (pairs_of self.old) }
        ensures starts { starts_of self.new ≡ [] }
        ensures right_leaf { is_inner right.new ≡ false }
        ensures right_pairs { pairs_of right.new ≡ pairs_from cut (pairs_of self.old) }
        ensures right_starts { starts_of right.new ≡ [] }
    {
        match (self, right) {
            (Parts::Leaf(pairs), Parts::Leaf(upper)) => pairs.split_to(upper, cut),
            _ => unreachable!(),
        }
    }

    /// Moves all pairs of a leaf behind those of this one.
    pub(crate) fn append(&mut self, right: &mut Self)
        requires leaf { is_inner self.old ≡ false }
        requires right_leaf { is_inner right.old ≡ false }
        requires room { length (pairs_of self.old) + length (pairs_of right.old) ≤ 2 }
        ensures leaf { is_inner self.new ≡ false }
        ensures pairs { pairs_of self.new ≡ pairs_of self.old ++ pairs_of right.old }
        ensures starts { starts_of self.new ≡ [] }
        ensures right_leaf { is_inner right.new ≡ false }
        ensures right_pairs { pairs_of right.new ≡ [] }
        ensures right_starts { starts_of right.new ≡ [] }
        ensures fits { length (pairs_of self.new) ≤ 2 }
    {
        match (self, right) {
            (Parts::Leaf(pairs), Parts::Leaf(upper)) => pairs.append(upper),
            _ => unreachable!(),
        }
    }
}

/// An edge to a node from a first place to a last one, both included.
fn edge_to(low: u64, last: u64, node: u32) -> Edge
    ensures low { result.span.low ≡ low }
    ensures last { result.span.last ≡ last }
    ensures node { result.node ≡ node }
{
    Edge {
        span: Span { low, last },
        node,
    }
}

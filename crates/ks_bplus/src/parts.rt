//! What a node stores: a leaf its pairs, an inner node the starts of its children.

ghost use Rattle.std.specs.Prelude.{◌≡◌, ◌+◌, ◌<◌, ◌≤◌, ◌++◌, ◌∷◌, [], None, true, false, IsTrue, length, slice_index_or};
ghost use Rattle.ks_node.specs.Keyed.{Ascends};
ghost use Rattle.ks_node.specs.Body.{value_at, pairs_below, pairs_from, starts_below, starts_from};
ghost use Rattle.ks_node.specs.Effect.{pairs_put, pairs_del, pairs_within, first_from, without};
ghost use Rattle.ks_node.specs.Room.{load};
ghost use Rattle.ks_bplus.specs.Bplus.{two_children, with_child};
ghost use Rattle.ks_bplus.specs.Parts.{is_inner, pairs_of, starts_of, body_of, cut_of};

use crate::starts::{Starts, add_start, append_starts, move_starts, remove_node};
use ks_keysets::{Few, Pair};
use ks_node::Start;
use ks_pairs::Pairs;

/// A leaf's pairs, or where an inner node's children start.
#[derive(Drop)]
pub(crate) enum Parts {
    Leaf(Pairs<16>),
    Inner(Starts),
}

impl Parts {
    /// A leaf with no pair.
    pub(crate) fn blank() -> Self
        ensures leaf { is_inner result ≡ false }
        ensures pairs { pairs_of result ≡ [] }
        ensures starts { starts_of result ≡ [] }
    {
        Parts::Leaf(Pairs::new())
    }

    /// Two children, the right one from a cut on.
    pub(crate) fn over(left: u32, cut: u64, right: u32) -> Self
        ensures inner { is_inner result ≡ true }
        ensures pairs { pairs_of result ≡ [] }
        ensures starts { starts_of result ≡ two_children left cut right }
    {
        let mut starts = Starts::new();
        starts.push(Start { low: 0, node: left });
        starts.push(Start {
            low: cut,
            node: right,
        });
        Parts::Inner(starts)
    }

    /// Whether there are children.
    pub(crate) fn is_inner(&self) -> bool
        ensures { result ≡ is_inner self.now }
    {
        match self {
            Parts::Leaf(_) => false,
            Parts::Inner(_) => true,
        }
    }

    /// Where the children start: none in a leaf.
    pub(crate) fn starts(&self) -> &[Start]
        ensures { result.now ≡ starts_of self.now }
    {
        match self {
            Parts::Leaf(_) => &[],
            Parts::Inner(starts) => starts.as_slice(),
        }
    }

    /// Children of an inner node, pairs of a leaf.
    pub(crate) fn load(&self) -> usize
        ensures is { result ≡ load (body_of 0 self.now) }
        ensures fits { result ≤ 16 }
    {
        match self {
            Parts::Leaf(pairs) => pairs.len(),
            Parts::Inner(starts) => starts.len(),
        }
    }

    /// The number of pairs: 0 in an inner node.
    pub(crate) fn pairs_held(&self) -> usize
        ensures is { result ≡ length (pairs_of self.now) }
        ensures fits { result ≤ 16 }
    {
        match self {
            Parts::Leaf(pairs) => pairs.len(),
            Parts::Inner(_) => 0,
        }
    }

    /// The pair at an index.
    pub(crate) fn pair(&self, at: usize) -> Pair
        requires { at < length (pairs_of self.now) }
        ensures { result ≡ slice_index_or (pairs_of self.now) at result }
    {
        match self {
            Parts::Leaf(pairs) => pairs.pair(at),
            Parts::Inner(_) => unreachable!(),
        }
    }

    /// The place of the ninth pair, or the start of the ninth child.
    pub(crate) fn cut(&self) -> u64
        requires { load (body_of 0 self.now) ≡ 16 }
        ensures { result ≡ cut_of self.now }
    {
        match self {
            Parts::Leaf(pairs) => pairs.pair(8).place,
            Parts::Inner(starts) => starts.as_slice()[8].low,
        }
    }

    /// The value at a place.
    pub(crate) fn get(&self, place: u64) -> Option<u128>
        requires { Ascends (λ x. x.place) (pairs_of self.now) }
        ensures { result ≡ value_at (pairs_of self.now) place }
    {
        match self {
            Parts::Leaf(pairs) => pairs.get(place),
            Parts::Inner(_) => None,
        }
    }

    /// Fills an empty list with the pairs from one place to another, both included: an inner node has none.
    pub(crate) fn list(&self, low: u64, last: u64, into: &mut Few)
        requires ascend { Ascends (λ x. x.place) (pairs_of self.now) }
        requires few { length (pairs_of self.now) ≤ 16 }
        requires empty { into.old ≡ [] }
        ensures { into.new ≡ pairs_within low last (pairs_of self.now) }
    {
        match self {
            Parts::Leaf(pairs) => pairs.list(low, last, into),
            Parts::Inner(_) => {}
        }
    }

    /// Sets the value at a place of a leaf, and returns the one that was there.
    pub(crate) fn put(&mut self, place: u64, value: u128) -> Option<u128>
        requires leaf { is_inner self.old ≡ false }
        requires ascend { Ascends (λ x. x.place) (pairs_of self.old) }
        requires room { value_at (pairs_of self.old) place ≡ None → length (pairs_of self.old) < 16 }
        ensures answer { result ≡ value_at (pairs_of self.old) place }
        ensures leaf { is_inner self.new ≡ is_inner self.old }
        ensures pairs { pairs_of self.new ≡ pairs_put place value (pairs_of self.old) }
        ensures starts { starts_of self.new ≡ starts_of self.old }
        ensures fits { length (pairs_of self.new) ≤ 16 }
    {
        match self {
            Parts::Leaf(pairs) => pairs.put(place, value),
            Parts::Inner(_) => unreachable!(),
        }
    }

    /// Removes the pair of a place from a leaf, and returns its value.
    pub(crate) fn del(&mut self, place: u64) -> Option<u128>
        requires leaf { is_inner self.old ≡ false }
        requires ascend { Ascends (λ x. x.place) (pairs_of self.old) }
        ensures answer { result ≡ value_at (pairs_of self.old) place }
        ensures leaf { is_inner self.new ≡ is_inner self.old }
        ensures pairs { pairs_of self.new ≡ pairs_del place (pairs_of self.old) }
        ensures starts { starts_of self.new ≡ starts_of self.old }
        ensures fits { length (pairs_of self.new) ≤ 16 }
    {
        match self {
            Parts::Leaf(pairs) => pairs.del(place),
            Parts::Inner(_) => unreachable!(),
        }
    }

    /// Lets a new child of an inner node begin at a place at which none begins.
    pub(crate) fn add(&mut self, low: u64, node: u32)
        requires inner { is_inner self.old ≡ true }
        requires ascend { Ascends (λ s. s.low) (starts_of self.old) }
        requires room { length (starts_of self.old) < 16 }
        ensures inner { is_inner self.new ≡ is_inner self.old }
        ensures pairs { pairs_of self.new ≡ pairs_of self.old }
        ensures starts { starts_of self.new ≡ with_child low node (starts_of self.old) }
        ensures fits { length (starts_of self.new) ≤ 16 }
    {
        match self {
            Parts::Leaf(_) => unreachable!(),
            Parts::Inner(starts) => add_start(starts, low, node),
        }
    }

    /// Takes away the first child of an inner node that is `node`.
    pub(crate) fn remove(&mut self, node: u32)
        requires { is_inner self.old ≡ true }
        ensures inner { is_inner self.new ≡ is_inner self.old }
        ensures pairs { pairs_of self.new ≡ pairs_of self.old }
        ensures starts { starts_of self.new ≡ without node (starts_of self.old) }
    {
        match self {
            Parts::Leaf(_) => unreachable!(),
            Parts::Inner(starts) => remove_node(starts, node),
        }
    }

    /// Moves what lies from a cut on into a leaf with no pair, which becomes what this is. Its first child, if there is
    /// one, starts at 0.
    pub(crate) fn split_to(&mut self, right: &mut Self, cut: u64)
        requires pairs_ascend { Ascends (λ x. x.place) (pairs_of self.old) }
        requires starts_ascend { Ascends (λ s. s.low) (starts_of self.old) }
        requires right_leaf { is_inner right.old ≡ false }
        requires right_blank { pairs_of right.old ≡ [] }
        ensures kind { is_inner self.new ≡ is_inner self.old }
        ensures pairs { pairs_of self.new ≡ pairs_below cut (pairs_of self.old) }
        ensures starts { starts_of self.new ≡ starts_below cut (starts_of self.old) }
        ensures right_kind { is_inner right.new ≡ is_inner self.old }
        ensures right_pairs { pairs_of right.new ≡ pairs_from cut (pairs_of self.old) }
        ensures right_starts { starts_of right.new ≡ first_from 0 (starts_from cut (starts_of self.old)) }
    {
        match self {
            Parts::Leaf(pairs) => split_leaf(pairs, right, cut),
            Parts::Inner(starts) => *right = Parts::Inner(upper_starts(starts, cut)),
        }
    }

    /// Takes in all that the right one has, which is of the same kind and becomes a leaf with no pair. Its first child,
    /// if there is one, then starts at the seam.
    pub(crate) fn append(&mut self, right: &mut Self, seam: u64)
        requires kinds { is_inner self.old ≡ is_inner right.old }
        requires room { load (body_of 0 self.old) + load (body_of 0 right.old) ≤ 16 }
        ensures kind { is_inner self.new ≡ is_inner self.old }
        ensures pairs { pairs_of self.new ≡ pairs_of self.old ++ pairs_of right.old }
        ensures starts { starts_of self.new ≡ starts_of self.old ++ first_from seam (starts_of right.old) }
        ensures right_kind { is_inner right.new ≡ false }
        ensures right_pairs { pairs_of right.new ≡ [] }
        ensures right_starts { starts_of right.new ≡ [] }
        ensures pairs_fit { length (pairs_of self.new) ≤ 16 }
        ensures starts_fit { length (starts_of self.new) ≤ 16 }
    {
        match self {
            Parts::Leaf(pairs) => append_leaf(pairs, right),
            Parts::Inner(starts) => append_inner(starts, right, seam),
        }
    }
}

/// Moves the pairs from a cut on into a leaf with no pair.
fn split_leaf(pairs: &mut Pairs<16>, right: &mut Parts, cut: u64)
    requires ascend { Ascends (λ x. x.place) pairs.old.items }
    requires right_leaf { is_inner right.old ≡ false }
    requires right_blank { pairs_of right.old ≡ [] }
    ensures left { pairs.new.items ≡ pairs_below cut pairs.old.items }
    ensures right_kind { is_inner right.new ≡ false }
    ensures right_pairs { pairs_of right.new ≡ pairs_from cut pairs.old.items }
    ensures right_starts { starts_of right.new ≡ [] }
{
    match right {
        Parts::Leaf(upper) => pairs.split_to(upper, cut),
        Parts::Inner(_) => unreachable!(),
    }
}

/// Takes away the children from a cut on, and returns them, the first from place 0 on.
fn upper_starts(starts: &mut Starts, cut: u64) -> Starts
    requires { Ascends (λ s. s.low) starts.old.items }
    ensures left { starts.new.items ≡ starts_below cut starts.old.items }
    ensures right { result.items ≡ first_from 0 (starts_from cut starts.old.items) }
{
    let mut upper = Starts::new();
    move_starts(starts, &mut upper, cut);
    upper
}

/// Moves all pairs of a leaf behind other pairs.
fn append_leaf(pairs: &mut Pairs<16>, right: &mut Parts)
    requires leaf { is_inner right.old ≡ false }
    requires room { length pairs.old.items + length (pairs_of right.old) ≤ 16 }
    ensures left { pairs.new.items ≡ pairs.old.items ++ pairs_of right.old }
    ensures fits { length pairs.new.items ≤ 16 }
    ensures right_kind { is_inner right.new ≡ false }
    ensures right_pairs { pairs_of right.new ≡ [] }
    ensures right_starts { starts_of right.new ≡ [] }
{
    match right {
        Parts::Leaf(upper) => pairs.append(upper),
        Parts::Inner(_) => unreachable!(),
    }
}

/// Moves all children of an inner node behind other children, the first of them from the seam on.
fn append_inner(starts: &mut Starts, right: &mut Parts, seam: u64)
    requires inner { is_inner right.old ≡ true }
    requires room { length starts.old.items + length (starts_of right.old) ≤ 16 }
    ensures left { starts.new.items ≡ starts.old.items ++ first_from seam (starts_of right.old) }
    ensures fits { length starts.new.items ≤ 16 }
    ensures right_kind { is_inner right.new ≡ false }
    ensures right_pairs { pairs_of right.new ≡ [] }
    ensures right_starts { starts_of right.new ≡ [] }
{
    match right {
        Parts::Leaf(_) => unreachable!(),
        Parts::Inner(upper) => append_starts(starts, upper, seam),
    }
    *right = Parts::blank();
}

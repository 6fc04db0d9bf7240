//! What a node stores: a leaf its pairs, a branch its children.

ghost use Rattle.std.specs.Prelude.{◌≡◌, suc, ◌+◌, ◌*◌, ◌<◌, ◌≤◌, ◌++◌, [], None, true, false, nat_le, length, slice_index_or};
ghost use Rattle.ks_keysets.specs.Record.{top};
ghost use Rattle.ks_keysets.specs.Layout.{wide_layout};
ghost use Rattle.ks_node.specs.Keyed.{Ascends};
ghost use Rattle.ks_node.specs.Body.{content_of, value_at, pairs_below, pairs_from, starts_below, starts_from, first_node, go_to, led_to, sole};
ghost use Rattle.ks_node.specs.Effect.{pairs_put, pairs_del, pairs_within, first_from, without};
ghost use Rattle.ks_node.specs.Room.{fit_together, is_full, is_low};
ghost use Rattle.ks_node.specs.Spans.{plain_edges};
ghost use Rattle.ks_wide.specs.Wide.{two_children, wide_can_adopt, with_child};
ghost use Rattle.ks_wide.specs.Parts.{body_of, cut_of, is_inner, load_of, pairs_of, room_of, starts_of};

use crate::children::Children;
use ks_keysets::{Edge, Few, Pair};
use ks_node::Next;
use ks_pairs::Pairs;

/// A leaf's pairs, or a branch's children.
#[derive(Drop)]
pub(crate) enum Parts<const L: usize, const F: usize> {
    Leaf(Pairs<L>),
    Inner(Children<F>),
}

impl<const L: usize, const F: usize> Parts<L, F> {
    /// A leaf with no pair.
    pub(crate) fn blank() -> Self
        ensures leaf { is_inner result ≡ false }
        ensures pairs { pairs_of result ≡ [] }
        ensures starts { starts_of result ≡ [] }
    {
        Parts::Leaf(Pairs::new())
    }

    /// Two children, the right one from a cut on.
    pub(crate) fn over(left: u32, cut: u64, right: u32) -> Self
        requires { 2 ≤ F }
        ensures inner { is_inner result ≡ true }
        ensures pairs { pairs_of result ≡ [] }
        ensures starts { starts_of result ≡ two_children left cut right }
    {
        Parts::Inner(Children::over(left, cut, right))
    }

    /// Whether there are children.
    pub(crate) fn is_inner(&self) -> bool
        ensures { result ≡ is_inner self.now }
    {
        match self {
            Parts::Leaf(_) => false,
            Parts::Inner(_) => true,
        }
    }

    /// Whether as many pairs are held as fill a leaf, or as many children as fill a branch.
    pub(crate) fn is_full(&self) -> bool
        ensures { result ≡ is_full (wide_layout L F) (body_of 0 self.now) }
    {
        match self {
            Parts::Leaf(pairs) => pairs.len() == L,
            Parts::Inner(children) => children.len() == F,
        }
    }

    /// Whether at most half as many are held.
    pub(crate) fn is_low(&self) -> bool
        ensures { result ≡ is_low (wide_layout L F) (body_of 0 self.now) }
    {
        match self {
            Parts::Leaf(pairs) => is_half(pairs.len(), L),
            Parts::Inner(children) => is_half(children.len(), F),
        }
    }

    /// Whether two nodes are both leaves or both branches, and what they hold fits into one.
    pub(crate) fn fits(&self, right: &Self) -> bool
        ensures { result ≡ fit_together (wide_layout L F) (body_of 0 self.now) (body_of 0 right.now) }
    {
        match (self, right) {
            (Parts::Leaf(pairs), Parts::Leaf(more)) => is_room(pairs.len(), more.len(), L),
            (Parts::Inner(children), Parts::Inner(more)) => is_room(children.len(), more.len(), F),
            (Parts::Leaf(_), Parts::Inner(_)) => false,
            (Parts::Inner(_), Parts::Leaf(_)) => false,
        }
    }

    /// Whether a new child can begin at the cut.
    pub(crate) fn can_add(&self, cut: u64) -> bool
        requires { Ascends (λ s. s.low) (starts_of self.now) }
        ensures { result ≡ wide_can_adopt F (content_of (body_of 0 self.now)) cut }
    {
        match self {
            Parts::Leaf(_) => false,
            Parts::Inner(children) => !children.begins_at(cut) && children.len() < F,
        }
    }

    /// The number of pairs: 0 in a branch.
    pub(crate) fn pairs_held(&self) -> usize
        ensures is { result ≡ length (pairs_of self.now) }
        ensures fits { result ≤ L }
    {
        match self {
            Parts::Leaf(pairs) => pairs.len(),
            Parts::Inner(_) => 0,
        }
    }

    /// The number of children: 0 in a leaf.
    pub(crate) fn children_held(&self) -> usize
        ensures is { result ≡ length (starts_of self.now) }
        ensures fits { result ≤ F }
    {
        match self {
            Parts::Leaf(_) => 0,
            Parts::Inner(children) => children.len(),
        }
    }

    /// The pair at an index.
    pub(crate) fn pair(&self, at: usize) -> Pair
        requires { at < length (pairs_of self.now) }
        ensures { result ≡ slice_index_or (pairs_of self.now) at result }
    {
        match self {
            Parts::Leaf(pairs) => pairs.pair(at),
            Parts::Inner(_) => unreachable!(),
        }
    }

    /// The edge to the child at an index.
    pub(crate) fn edge(&self, at: usize) -> Edge
        requires within { at < length (starts_of self.now) }
        requires ascend { Ascends (λ s. s.low) (starts_of self.now) }
        ensures { result ≡ slice_index_or (plain_edges 0 top (starts_of self.now)) at result }
    {
        match self {
            Parts::Leaf(_) => unreachable!(),
            Parts::Inner(children) => children.edge(at),
        }
    }

    /// The place of the pair, or the start of the child, at the middle.
    pub(crate) fn cut(&self) -> u64
        requires full { load_of self.now ≡ room_of self.now }
        requires some { 2 ≤ room_of self.now }
        ensures { result ≡ cut_of self.now }
    {
        match self {
            Parts::Leaf(pairs) => pairs.pair(L / 2).place,
            Parts::Inner(children) => children.low(F / 2),
        }
    }

    /// Where the search for a place continues.
    pub(crate) fn next(&self, place: u64) -> Next
        requires { Ascends (λ s. s.low) (starts_of self.now) }
        ensures { result ≡ go_to (led_to (starts_of self.now) place) }
    {
        match self {
            Parts::Leaf(_) => Next::Here,
            Parts::Inner(children) => children.next(place),
        }
    }

    /// The child after the one to which the place leads.
    pub(crate) fn child_after(&self, place: u64) -> Option<u32>
        requires { Ascends (λ s. s.low) (starts_of self.now) }
        ensures { result ≡ first_node (starts_from (suc place) (starts_of self.now)) }
    {
        match self {
            Parts::Leaf(_) => None,
            Parts::Inner(children) => children.after(place),
        }
    }

    /// The child that all children are.
    pub(crate) fn only_child(&self) -> Option<u32>
        ensures { result ≡ sole (starts_of self.now) }
    {
        match self {
            Parts::Leaf(_) => None,
            Parts::Inner(children) => children.only(),
        }
    }

    /// The value at a place.
    pub(crate) fn get(&self, place: u64) -> Option<u128>
        requires { Ascends (λ x. x.place) (pairs_of self.now) }
        ensures { result ≡ value_at (pairs_of self.now) place }
    {
        match self {
            Parts::Leaf(pairs) => pairs.get(place),
            Parts::Inner(_) => None,
        }
    }

    /// Fills an empty list with the pairs from one place to another, both included: a branch has none.
    pub(crate) fn list(&self, low: u64, last: u64, into: &mut Few)
        requires ascend { Ascends (λ x. x.place) (pairs_of self.now) }
        requires few { length (pairs_of self.now) ≤ 16 }
        requires empty { into.old ≡ [] }
        ensures { into.new ≡ pairs_within low last (pairs_of self.now) }
    {
        match self {
            Parts::Leaf(pairs) => pairs.list(low, last, into),
            Parts::Inner(_) => {}
        }
    }

    /// Sets the value at a place of a leaf, and returns the one that was there.
    pub(crate) fn put(&mut self, place: u64, value: u128) -> Option<u128>
        requires leaf { is_inner self.old ≡ false }
        requires ascend { Ascends (λ x. x.place) (pairs_of self.old) }
        requires room { value_at (pairs_of self.old) place ≡ None → length (pairs_of self.old) < L }
        ensures answer { result ≡ value_at (pairs_of self.old) place }
        ensures leaf { is_inner self.new ≡ is_inner self.old }
        ensures pairs { pairs_of self.new ≡ pairs_put place value (pairs_of self.old) }
        ensures starts { starts_of self.new ≡ starts_of self.old }
        ensures fits { length (pairs_of self.new) ≤ L }
    {
        match self {
            Parts::Leaf(pairs) => pairs.put(place, value),
            Parts::Inner(_) => unreachable!(),
        }
    }

    /// Removes the pair of a place from a leaf, and returns its value.
    pub(crate) fn del(&mut self, place: u64) -> Option<u128>
        requires leaf { is_inner self.old ≡ false }
        requires ascend { Ascends (λ x. x.place) (pairs_of self.old) }
        ensures answer { result ≡ value_at (pairs_of self.old) place }
        ensures leaf { is_inner self.new ≡ is_inner self.old }
        ensures pairs { pairs_of self.new ≡ pairs_del place (pairs_of self.old) }
        ensures starts { starts_of self.new ≡ starts_of self.old }
        ensures fits { length (pairs_of self.new) ≤ L }
    {
        match self {
            Parts::Leaf(pairs) => pairs.del(place),
            Parts::Inner(_) => unreachable!(),
        }
    }

    /// Lets a new child of a branch begin at a place at which none begins.
    pub(crate) fn add(&mut self, low: u64, node: u32)
        requires inner { is_inner self.old ≡ true }
        requires ascend { Ascends (λ s. s.low) (starts_of self.old) }
        requires room { length (starts_of self.old) < F }
        ensures inner { is_inner self.new ≡ is_inner self.old }
        ensures pairs { pairs_of self.new ≡ pairs_of self.old }
        ensures starts { starts_of self.new ≡ with_child low node (starts_of self.old) }
        ensures fits { length (starts_of self.new) ≤ F }
    {
        match self {
            Parts::Leaf(_) => unreachable!(),
            Parts::Inner(children) => children.add(low, node),
        }
    }

    /// Takes away the first child of a branch that is `node`.
    pub(crate) fn remove(&mut self, node: u32)
        requires { is_inner self.old ≡ true }
        ensures inner { is_inner self.new ≡ is_inner self.old }
        ensures pairs { pairs_of self.new ≡ pairs_of self.old }
        ensures starts { starts_of self.new ≡ without node (starts_of self.old) }
    {
        match self {
            Parts::Leaf(_) => unreachable!(),
            Parts::Inner(children) => children.forget(node),
        }
    }

    /// Moves what lies from a cut on into a leaf with no pair, which becomes what this is. Its first child, if there is
    /// one, starts at 0.
    pub(crate) fn split_to(&mut self, right: &mut Self, cut: u64)
        requires pairs_ascend { Ascends (λ x. x.place) (pairs_of self.old) }
        requires starts_ascend { Ascends (λ s. s.low) (starts_of self.old) }
        requires right_leaf { is_inner right.old ≡ false }
        requires right_blank { pairs_of right.old ≡ [] }
        ensures kind { is_inner self.new ≡ is_inner self.old }
        ensures pairs { pairs_of self.new ≡ pairs_below cut (pairs_of self.old) }
        ensures starts { starts_of self.new ≡ starts_below cut (starts_of self.old) }
        ensures right_kind { is_inner right.new ≡ is_inner self.old }
        ensures right_pairs { pairs_of right.new ≡ pairs_from cut (pairs_of self.old) }
        ensures right_starts { starts_of right.new ≡ first_from 0 (starts_from cut (starts_of self.old)) }
    {
        match self {
            Parts::Leaf(pairs) => split_leaf(pairs, right, cut),
            Parts::Inner(children) => *right = Parts::Inner(children.upper(cut)),
        }
    }

    /// Takes in all that the right one has, which is of the same kind and becomes a leaf with no pair. Its first child,
    /// if there is one, then starts at the seam.
    pub(crate) fn append(&mut self, right: &mut Self, seam: u64)
        requires kinds { is_inner self.old ≡ is_inner right.old }
        requires room { load_of self.old + load_of right.old ≤ room_of self.old }
        ensures kind { is_inner self.new ≡ is_inner self.old }
        ensures pairs { pairs_of self.new ≡ pairs_of self.old ++ pairs_of right.old }
        ensures starts { starts_of self.new ≡ starts_of self.old ++ first_from seam (starts_of right.old) }
        ensures right_kind { is_inner right.new ≡ false }
        ensures right_pairs { pairs_of right.new ≡ [] }
        ensures right_starts { starts_of right.new ≡ [] }
        ensures pairs_fit { length (pairs_of self.new) ≤ L }
        ensures starts_fit { length (starts_of self.new) ≤ F }
    {
        match self {
            Parts::Leaf(pairs) => append_leaf(pairs, right),
            Parts::Inner(children) => append_inner(children, right, seam),
        }
    }
}

/// Whether what is held is at most half of the room.
fn is_half(held: usize, room: usize) -> bool
    requires { held ≤ room }
    ensures { result ≡ nat_le (2 * held) room }
{
    held <= room - held
}

/// Whether there is room for more beside what is held.
fn is_room(held: usize, more: usize, room: usize) -> bool
    requires { held ≤ room }
    ensures { result ≡ nat_le (held + more) room }
{
    more <= room - held
}

/// Moves the pairs from a cut on into a leaf with no pair.
fn split_leaf<const L: usize, const F: usize>(
    pairs: &mut Pairs<L>,
    right: &mut Parts<L, F>,
    cut: u64,
)
    requires ascend { Ascends (λ x. x.place) pairs.old.items }
    requires right_leaf { is_inner right.old ≡ false }
    requires right_blank { pairs_of right.old ≡ [] }
    ensures left { pairs.new.items ≡ pairs_below cut pairs.old.items }
    ensures right_kind { is_inner right.new ≡ false }
    ensures right_pairs { pairs_of right.new ≡ pairs_from cut pairs.old.items }
    ensures right_starts { starts_of right.new ≡ [] }
{
    match right {
        Parts::Leaf(upper) => pairs.split_to(upper, cut),
        Parts::Inner(_) => unreachable!(),
    }
}

/// Moves all pairs of a leaf behind other pairs.
fn append_leaf<const L: usize, const F: usize>(pairs: &mut Pairs<L>, right: &mut Parts<L, F>)
    requires leaf { is_inner right.old ≡ false }
    requires room { length pairs.old.items + length (pairs_of right.old) ≤ L }
    ensures left { pairs.new.items ≡ pairs.old.items ++ pairs_of right.old }
    ensures fits { length pairs.new.items ≤ L }
    ensures right_kind { is_inner right.new ≡ false }
    ensures right_pairs { pairs_of right.new ≡ [] }
    ensures right_starts { starts_of right.new ≡ [] }
{
    match right {
        Parts::Leaf(upper) => pairs.append(upper),
        Parts::Inner(_) => unreachable!(),
    }
}

/// Moves all children of a branch behind other children, the first of them from the seam on.
fn append_inner<const L: usize, const F: usize>(
    children: &mut Children<F>,
    right: &mut Parts<L, F>,
    seam: u64,
)
    requires inner { is_inner right.old ≡ true }
    requires room { length children.old.items + length (starts_of right.old) ≤ F }
    ensures left { children.new.items ≡ children.old.items ++ first_from seam (starts_of right.old) }
    ensures fits { length children.new.items ≤ F }
    ensures right_kind { is_inner right.new ≡ false }
    ensures right_pairs { pairs_of right.new ≡ [] }
    ensures right_starts { starts_of right.new ≡ [] }
{
    match right {
        Parts::Leaf(_) => unreachable!(),
        Parts::Inner(upper) => children.append(upper, seam),
    }
    *right = Parts::blank();
}

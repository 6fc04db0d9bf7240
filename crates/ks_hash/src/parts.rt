//! What a node stores: a bucket its pairs and the edge of its own, a directory its slices.

ghost use Rattle.std.specs.Prelude.{◌≡◌, ◌+◌, ◌%◌, ◌<◌, ◌≤◌, ◌++◌, ◌∷◌, [], Some, None, true, false, IsTrue, length, slice_index_or};
ghost use Rattle.ks_node.specs.Keyed.{Ascends};
ghost use Rattle.ks_node.specs.Body.{value_at, pairs_below, pairs_from, starts_below, starts_from, begins, first_node};
ghost use Rattle.ks_node.specs.Effect.{pairs_put, pairs_del, runs, without};
ghost use Rattle.ks_hash.specs.Slices.{is_size, smallest, starts_of, with_run};
ghost use Rattle.ks_hash.specs.Parts.{is_directory, pairs_of, own_of, slices_of};

use crate::slices::{Slices, adopt_slice, forget_child, halve};
use ks_keysets::Pair;
use ks_node::Start;
use ks_pairs::Pairs;

/// A bucket's pairs and the edge of its own, or a directory's slices.
#[derive(Drop)]
pub(crate) enum Parts {
    Bucket(Pairs<8>, Option<Start>),
    Directory(Slices),
}

impl Parts {
    /// A bucket with neither a pair nor an edge.
    pub(crate) fn blank() -> Self
        ensures kind { is_directory result ≡ false }
        ensures pairs { pairs_of result ≡ [] }
        ensures own { own_of result ≡ None }
        ensures slices { slices_of result ≡ [] }
    {
        Parts::Bucket(Pairs::new(), None)
    }

    /// Two slices, each a half of all places.
    pub(crate) fn over(left: u32, right: u32) -> Self
        ensures kind { is_directory result ≡ true }
        ensures pairs { pairs_of result ≡ [] }
        ensures own { own_of result ≡ None }
        ensures slices { slices_of result ≡ left ∷ right ∷ [] }
    {
        let mut slices = Slices::new();
        halve(&mut slices, left, right);
        Parts::Directory(slices)
    }

    /// Whether there are slices.
    pub(crate) fn is_directory(&self) -> bool
        ensures { result ≡ is_directory self.now }
    {
        match self {
            Parts::Bucket(_, _) => false,
            Parts::Directory(_) => true,
        }
    }

    /// The number of pairs: 0 in a directory.
    pub(crate) fn pairs_held(&self) -> usize
        ensures is { result ≡ length (pairs_of self.now) }
        ensures fits { result ≤ 8 }
    {
        match self {
            Parts::Bucket(pairs, _) => pairs.len(),
            Parts::Directory(_) => 0,
        }
    }

    /// The pair at an index.
    pub(crate) fn pair(&self, at: usize) -> Pair
        requires { at < length (pairs_of self.now) }
        ensures { result ≡ slice_index_or (pairs_of self.now) at result }
    {
        match self {
            Parts::Bucket(pairs, _) => pairs.pair(at),
            Parts::Directory(_) => unreachable!(),
        }
    }

    /// The edge of a bucket's own: none in a directory.
    pub(crate) fn own(&self) -> Option<Start>
        ensures { result ≡ own_of self.now }
    {
        match self {
            Parts::Bucket(_, own) => *own,
            Parts::Directory(_) => None,
        }
    }

    /// The slices: none in a bucket.
    pub(crate) fn slices(&self) -> &[u32]
        ensures { result.now ≡ slices_of self.now }
    {
        match self {
            Parts::Bucket(_, _) => &[],
            Parts::Directory(slices) => slices.as_slice(),
        }
    }

    /// The value at a place.
    pub(crate) fn get(&self, place: u64) -> Option<u128>
        requires { Ascends (λ x. x.place) (pairs_of self.now) }
        ensures { result ≡ value_at (pairs_of self.now) place }
    {
        match self {
            Parts::Bucket(pairs, _) => pairs.get(place),
            Parts::Directory(_) => None,
        }
    }

    /// Sets the value at a place of a bucket, and returns the one that was there.
    pub(crate) fn put(&mut self, place: u64, value: u128) -> Option<u128>
        requires bucket { is_directory self.old ≡ false }
        requires ascend { Ascends (λ x. x.place) (pairs_of self.old) }
        requires room { value_at (pairs_of self.old) place ≡ None → length (pairs_of self.old) < 8 }
        ensures answer { result ≡ value_at (pairs_of self.old) place }
        ensures kind { is_directory self.new ≡ is_directory self.old }
        ensures pairs { pairs_of self.new ≡ pairs_put place value (pairs_of self.old) }
        ensures own { own_of self.new ≡ own_of self.old }
        ensures slices { slices_of self.new ≡ slices_of self.old }
        ensures fits { length (pairs_of self.new) ≤ 8 }
    {
        match self {
            Parts::Bucket(pairs, _) => pairs.put(place, value),
            Parts::Directory(_) => unreachable!(),
        }
    }

    /// Removes the pair of a place from a bucket, and returns its value.
    pub(crate) fn del(&mut self, place: u64) -> Option<u128>
        requires bucket { is_directory self.old ≡ false }
        requires ascend { Ascends (λ x. x.place) (pairs_of self.old) }
        ensures answer { result ≡ value_at (pairs_of self.old) place }
        ensures kind { is_directory self.new ≡ is_directory self.old }
        ensures pairs { pairs_of self.new ≡ pairs_del place (pairs_of self.old) }
        ensures own { own_of self.new ≡ own_of self.old }
        ensures slices { slices_of self.new ≡ slices_of self.old }
        ensures fits { length (pairs_of self.new) ≤ 8 }
    {
        match self {
            Parts::Bucket(pairs, _) => pairs.del(place),
            Parts::Directory(_) => unreachable!(),
        }
    }

    /// Adds an edge of its own to a bucket.
    pub(crate) fn lead(&mut self, low: u64, node: u32)
        requires { is_directory self.old ≡ false }
        ensures kind { is_directory self.new ≡ is_directory self.old }
        ensures pairs { pairs_of self.new ≡ pairs_of self.old }
        ensures own { own_of self.new ≡ Some (record { low = low; node = node }) }
        ensures slices { slices_of self.new ≡ slices_of self.old }
    {
        match self {
            Parts::Bucket(_, own) => *own = Some(Start { low, node }),
            Parts::Directory(_) => unreachable!(),
        }
    }

    /// Leads the places of a directory from a cut to the end of its run to a node.
    pub(crate) fn adopt(&mut self, cut: u64, id: u32)
        requires directory { is_directory self.old ≡ true }
        requires size { IsTrue (is_size (length (slices_of self.old))) }
        requires whole { cut % smallest ≡ 0 }
        requires above { 0 < cut }
        requires free { begins cut (starts_of (slices_of self.old)) ≡ false }
        ensures kind { is_directory self.new ≡ is_directory self.old }
        ensures pairs { pairs_of self.new ≡ pairs_of self.old }
        ensures own { own_of self.new ≡ own_of self.old }
        ensures starts { starts_of (slices_of self.new) ≡ with_run cut id (starts_of (slices_of self.old)) }
        ensures size { IsTrue (is_size (length (slices_of self.new))) }
    {
        match self {
            Parts::Bucket(_, _) => unreachable!(),
            Parts::Directory(slices) => adopt_slice(slices, cut, id),
        }
    }

    /// Leads the first run of a directory that leads to a node where the run before it leads.
    pub(crate) fn forget(&mut self, id: u32)
        requires directory { is_directory self.old ≡ true }
        requires size { IsTrue (is_size (length (slices_of self.old))) }
        requires later { first_node (starts_of (slices_of self.old)) ≡ Some id → ⊥ }
        ensures kind { is_directory self.new ≡ is_directory self.old }
        ensures pairs { pairs_of self.new ≡ pairs_of self.old }
        ensures own { own_of self.new ≡ own_of self.old }
        ensures starts { starts_of (slices_of self.new) ≡ runs (without id (starts_of (slices_of self.old))) }
        ensures size { IsTrue (is_size (length (slices_of self.new))) }
    {
        match self {
            Parts::Bucket(_, _) => unreachable!(),
            Parts::Directory(slices) => forget_child(slices, id),
        }
    }

    /// Moves a bucket's pairs from a cut on, and the edge of its own, into one with no pair.
    pub(crate) fn split_to(&mut self, right: &mut Self, cut: u64)
        requires bucket { is_directory self.old ≡ false }
        requires ascend { Ascends (λ x. x.place) (pairs_of self.old) }
        requires right_bucket { is_directory right.old ≡ false }
        requires right_blank { pairs_of right.old ≡ [] }
        ensures kind { is_directory self.new ≡ false }
        ensures pairs { pairs_of self.new ≡ pairs_below cut (pairs_of self.old) }
        ensures own { own_of self.new ≡ None }
        ensures slices { slices_of self.new ≡ [] }
        ensures right_kind { is_directory right.new ≡ false }
        ensures right_pairs { pairs_of right.new ≡ pairs_from cut (pairs_of self.old) }
        ensures right_own { own_of right.new ≡ own_of self.old }
        ensures right_slices { slices_of right.new ≡ [] }
    {
        match self {
            Parts::Bucket(pairs, own) => {
                split_bucket(pairs, *own, right, cut);
                *own = None;
            }
            Parts::Directory(_) => unreachable!(),
        }
    }

    /// Takes in all that another bucket has, which then has neither a pair nor an edge.
    pub(crate) fn append(&mut self, right: &mut Self)
        requires bucket { is_directory self.old ≡ false }
        requires right_bucket { is_directory right.old ≡ false }
        requires room { length (pairs_of self.old) + length (pairs_of right.old) ≤ 8 }
        ensures kind { is_directory self.new ≡ false }
        ensures pairs { pairs_of self.new ≡ pairs_of self.old ++ pairs_of right.old }
        ensures own { own_of self.new ≡ own_of right.old }
        ensures slices { slices_of self.new ≡ [] }
        ensures right_kind { is_directory right.new ≡ false }
        ensures right_pairs { pairs_of right.new ≡ [] }
        ensures right_own { own_of right.new ≡ None }
        ensures right_slices { slices_of right.new ≡ [] }
        ensures fits { length (pairs_of self.new) ≤ 8 }
    {
        match self {
            Parts::Bucket(pairs, own) => *own = append_bucket(pairs, right),
            Parts::Directory(_) => unreachable!(),
        }
    }
}

/// Moves the pairs from a cut on into a bucket with no pair, and sets its edge.
fn split_bucket(pairs: &mut Pairs<8>, edge: Option<Start>, right: &mut Parts, cut: u64)
    requires ascend { Ascends (λ x. x.place) pairs.old.items }
    requires right_bucket { is_directory right.old ≡ false }
    requires right_blank { pairs_of right.old ≡ [] }
    ensures left { pairs.new.items ≡ pairs_below cut pairs.old.items }
    ensures right_kind { is_directory right.new ≡ false }
    ensures right_pairs { pairs_of right.new ≡ pairs_from cut pairs.old.items }
    ensures right_own { own_of right.new ≡ edge }
    ensures right_slices { slices_of right.new ≡ [] }
{
    match right {
        Parts::Bucket(upper, own) => {
            pairs.split_to(upper, cut);
            *own = edge;
        }
        Parts::Directory(_) => unreachable!(),
    }
}

/// Moves all pairs of a bucket behind other pairs, and takes away and returns the edge of its own.
fn append_bucket(pairs: &mut Pairs<8>, right: &mut Parts) -> Option<Start>
    requires bucket { is_directory right.old ≡ false }
    requires room { length pairs.old.items + length (pairs_of right.old) ≤ 8 }
    ensures left { pairs.new.items ≡ pairs.old.items ++ pairs_of right.old }
    ensures fits { length pairs.new.items ≤ 8 }
    ensures edge { result ≡ own_of right.old }
    ensures right_kind { is_directory right.new ≡ false }
    ensures right_pairs { pairs_of right.new ≡ [] }
    ensures right_own { own_of right.new ≡ None }
    ensures right_slices { slices_of right.new ≡ [] }
{
    match right {
        Parts::Bucket(upper, own) => {
            pairs.append(upper);
            let edge = *own;
            *own = None;
            edge
        }
        Parts::Directory(_) => unreachable!(),
    }
}

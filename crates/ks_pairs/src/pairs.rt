//! `Pairs`, and what a put, a del, a split and a merge make of them.

ghost use Rattle.std.specs.Prelude.{◌≡◌, ◌+◌, ◌<◌, ◌≤◌, ◌++◌, [], None, length, slice_index_or};
ghost use Rattle.ks_node.specs.Keyed.{Ascends, IsRank};
ghost use Rattle.ks_pairs.specs.Paired.{Stands};
ghost use Rattle.ks_node.specs.Body.{value_at, pairs_below, pairs_from};
ghost use Rattle.ks_node.specs.Effect.{pairs_put, pairs_del, pairs_within};

use crate::slices::{count_below, insert_at, item, remove_at, set_item};
use arrayvec::ArrayVec;
use ks_keysets::{Few, Pair};
use std::marker::Model;

/// At most `N` pairs. A pair is a place and a value, and the places ascend whenever a search is made.
#[derive(Drop)]
pub struct Pairs<const N: usize> {
    places: ArrayVec<u64, N>,
    values: ArrayVec<u128, N>,
}

impl<const N: usize> Model for Pairs<N> {
    ghost use Rattle.std.specs.Prelude.{◌≡◌, ◌≤◌, length};
    ghost use Rattle.ks_keysets.specs.Paired.{paired};
    ghost use Rattle.ks_pairs.specs.Paired.{Items};

    ghost Value = { Items };

    ghost view = { λ p. record { items = paired p.places.items p.values.items } };

    ghost invariant = { λ p. (length p.places.items ≡ length p.values.items) × (length p.places.items ≤ N) };
}

impl<const N: usize> Pairs<N> {
    /// No pair.
    pub fn new() -> Self
        ensures { result.items ≡ [] }
    {
        Pairs {
            places: ArrayVec::new(),
            values: ArrayVec::new(),
        }
    }

    /// The number of pairs.
    pub fn len(&self) -> usize
        ensures value { result ≡ length self.now.items }
        ensures fits { result ≤ N }
    {
        self.places.len()
    }

    /// The pair at an index.
    pub fn pair(&self, at: usize) -> Pair
        requires { at < length self.now.items }
        ensures { result ≡ slice_index_or self.now.items at result }
    {
        Pair {
            place: item(self.places.as_slice(), at),
            value: item(self.values.as_slice(), at),
        }
    }

    /// How many pairs lie below a place.
    fn rank(&self, place: u64) -> usize
        requires { Ascends (λ x. x.place) self.now.items }
        ensures { IsRank (λ x. x.place) place self.now.items result }
    {
        count_below(self.places.as_slice(), place)
    }

    /// Returns where the pair of a place is, or `Err` with where it would be.
    fn seek(&self, place: u64) -> Result<usize, usize>
        requires { Ascends (λ x. x.place) self.now.items }
        ensures { Stands place self.now.items result }
    {
        let at = self.rank(place);
        if at >= self.places.len() {
            return Err(at);
        }
        if item(self.places.as_slice(), at) == place {
            Ok(at)
        } else {
            Err(at)
        }
    }

    /// The value at a place.
    pub fn get(&self, place: u64) -> Option<u128>
        requires { Ascends (λ x. x.place) self.now.items }
        ensures { result ≡ value_at self.now.items place }
    {
        match self.seek(place) {
            Ok(at) => Some(item(self.values.as_slice(), at)),
            Err(_) => None,
        }
    }

    /// Fills an empty list with the pairs from one place to another, both included, where no more than 16 pairs are held.
    /// There is none if the second place is below the first.
    pub fn list(&self, low: u64, last: u64, into: &mut Few)
        requires ascend { Ascends (λ x. x.place) self.now.items }
        requires few { length self.now.items ≤ 16 }
        requires empty { into.old ≡ [] }
        ensures { into.new ≡ pairs_within low last self.now.items }
    {
        let first = self.rank(low);
        for at in first..self.len() {
            let pair = self.pair(at);
            let place = pair.place;
            if last < place {
                return;
            }
            into.push(pair);
        }
    }

    /// Sets the value at a place, and returns the one that was there.
    pub fn put(&mut self, place: u64, value: u128) -> Option<u128>
        requires ascend { Ascends (λ x. x.place) self.old.items }
        requires room { value_at self.old.items place ≡ None → length self.old.items < N }
        ensures items { self.new.items ≡ pairs_put place value self.old.items }
        ensures answer { result ≡ value_at self.old.items place }
        ensures fits { length self.new.items ≤ N }
    {
        match self.seek(place) {
            Ok(at) => {
                let old = item(self.values.as_slice(), at);
                set_item(self.values.as_mut_slice(), at, value);
                Some(old)
            }
            Err(at) => {
                insert_at(&mut self.places, at, place);
                insert_at(&mut self.values, at, value);
                None
            }
        }
    }

    /// Removes the pair of a place, and returns its value.
    pub fn del(&mut self, place: u64) -> Option<u128>
        requires { Ascends (λ x. x.place) self.old.items }
        ensures items { self.new.items ≡ pairs_del place self.old.items }
        ensures answer { result ≡ value_at self.old.items place }
        ensures fits { length self.new.items ≤ N }
    {
        match self.seek(place) {
            Ok(at) => {
                let removed = item(self.values.as_slice(), at);
                remove_at(&mut self.places, at);
                remove_at(&mut self.values, at);
                Some(removed)
            }
            Err(_) => None,
        }
    }

    /// Moves the pairs from a cut on to an empty list.
    pub fn split_to(&mut self, right: &mut Self, cut: u64)
        requires ascend { Ascends (λ x. x.place) self.old.items }
        requires blank { right.old.items ≡ [] }
        ensures left { self.new.items ≡ pairs_below cut self.old.items }
        ensures right { right.new.items ≡ pairs_from cut self.old.items }
    {
        let at = self.rank(cut);
        let (_, places) = self.places.as_slice().split_at(at);
        let (_, values) = self.values.as_slice().split_at(at);
        let _ = right.places.try_extend_from_slice(places);
        let _ = right.values.try_extend_from_slice(values);
        self.places.truncate(at);
        self.values.truncate(at);
    }

    /// Moves all pairs behind those of another list.
    pub fn append(&mut self, right: &mut Self)
        requires { length self.old.items + length right.old.items ≤ N }
        ensures left { self.new.items ≡ self.old.items ++ right.old.items }
        ensures right { right.new.items ≡ [] }
        ensures fits { length self.new.items ≤ N }
    {
        let _ = self.places.try_extend_from_slice(right.places.as_slice());
        let _ = self.values.try_extend_from_slice(right.values.as_slice());
        right.places.clear();
        right.values.clear();
    }
}

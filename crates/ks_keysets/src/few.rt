//! `Few`: the pairs of a part of one node.

ghost use Rattle.std.specs.Prelude.{◌≡◌, ◌<◌, ◌≤◌, ◌++◌, ◌∷◌, [], length, slice_index_or};
ghost use Rattle.std.proofs.Common.{rules};
ghost use Rattle.std.specs.Cmp.Rules.{comparing};
ghost use Rattle.ks_keysets.specs.Paired.{same_pairs};

use crate::Pair;
use std::fmt::{self, Debug, Formatter};
use std::marker::Model;

/// At most 16 pairs, in the order in which they were pushed. It is 400 bytes and needs no allocator; a clause reads it
/// as the list of its pairs.
#[derive(Drop)]
pub struct Few {
    values: [u128; 16],
    places: [u64; 16],
    len: usize,
}

impl Model for Few {
    ghost use Rattle.std.specs.Prelude.{List, take, ◌≤◌};
    ghost use Rattle.ks_keysets.specs.declared.Pair.{Pair};
    ghost use Rattle.ks_keysets.specs.Paired.{paired};

    ghost Value = { List Pair };

    ghost view = { λ f. take f.len (paired f.places f.values) };

    ghost invariant = { λ f. f.len ≤ 16 };
}

impl Few {
    /// No pair.
    pub fn new() -> Few
        ensures { result ≡ [] }
    {
        Few {
            values: [0; 16],
            places: [0; 16],
            len: 0,
        }
    }

    /// The number of pairs.
    pub fn len(&self) -> usize
        ensures value { result ≡ length self.now }
        ensures fits { result ≤ 16 }
    {
        self.len
    }

    /// Adds a pair behind the others, of which there are fewer than 16.
    pub fn push(&mut self, pair: Pair)
        requires { length self.old < 16 }
        ensures { self.new ≡ self.old ++ pair ∷ [] }
    {
        self.values[self.len] = pair.value;
        self.places[self.len] = pair.place;
        self.len += 1;
    }

    /// The pair at an index.
    pub fn pair(&self, at: usize) -> Pair
        requires { at < length self.now }
        ensures { result ≡ slice_index_or self.now at result }
    {
        let places = &self.places;
        let values = &self.values;
        Pair {
            place: places[at],
            value: values[at],
        }
    }

    /// Another list of the same pairs.
    pub fn copied(&self) -> Few
        ensures { result ≡ self.now }
    {
        Few {
            values: self.values,
            places: self.places,
            len: self.len,
        }
    }
}

impl Debug for Few {
    fn fmt<W: fmt::Write>(&self, f: &mut Formatter<W>) -> fmt::Result {
        let mut list = f.debug_list();
        for at in 0..self.len() {
            list.entry(&self.pair(at));
        }
        list.finish()
    }
}

impl PartialEq for Few {
    ghost eq = { same_pairs };

    ghost laws = { Prim.search (comparing, rules) };

    fn eq(&self, other: &Few) -> bool {
        self.places[..self.len] == other.places[..other.len]
            && self.values[..self.len] == other.values[..other.len]
    }
}

impl Eq for Few {
    ghost laws = { Prim.search (comparing, rules) };
}

//! A map from keys to values in order of key, which lists spans of its keys.

ghost use Rattle.std.specs.Prelude.{ℕ, ◌≡◌, None};
ghost use Rattle.std.specs.Ordering.{nat_cmp};
ghost use Rattle.std.specs.BTreeMap.{get};

use crate::store::Store;
use crate::table::can_be_place;
use ks_history::lists_span;
use ks_keysets::Few;
use std::alloc::{AllocError, Global};
use std::collections::BTreeMap;

/// A map from keys to values, in order of key.
#[derive(Drop)]
pub struct Ordered {
    entries: BTreeMap<u64, u128>,
}

impl Ordered {
    /// An empty map.
    pub fn new(alloc: Global) -> Ordered
        ensures { (p : ℕ) → get nat_cmp result.entries p ≡ None }
    {
        Ordered {
            entries: BTreeMap::new(alloc),
        }
    }
}

impl Store for Ordered {
    ghost use Rattle.std.specs.Prelude.{true};

    ghost has = { λ m. get nat_cmp m.entries };

    ghost lists = { true };

    fn get(&self, key: u64) -> Option<u128> {
        self.entries.get(&key).copied()
    }

    fn insert(&mut self, key: u64, value: u128) -> Result<Option<u128>, AllocError> {
        Ok(self.entries.insert(key, value)?)
    }

    fn remove(&mut self, key: u64) -> Option<u128> {
        self.entries.remove(&key)
    }

    fn lists_span(&self, low: u64, last: u64, pairs: &Few) -> bool {
        lists_span(&self.entries, low, last, pairs)
    }

    fn has_nothing(self, _alloc: Global) -> Result<bool, AllocError> {
        match self.entries.first_key_value() {
            Some((key, _)) => {
                can_be_place(*key);
                Ok(false)
            }
            None => Ok(true),
        }
    }
}

//! A map from keys to values in which the least keys have places of their own, and need no hash.

ghost use Rattle.std.specs.Prelude.{ℕ, ◌≡◌, ◌<◌, ◌≤◌, ◌↔◌, [], All, length, nat_eq, slice_index_or, None, IsTrue, IfOk, IfSome, IfNone, OnOk};
ghost use Rattle.std.specs.HashMap.{get};
ghost use Rattle.ks_keysets.specs.Record.{IsPlace};
ghost use Rattle.ks_history.specs.Write.{sets, removes, map_with};
ghost use Rattle.ks_history.specs.Served.{IsListing};

use crate::store::Store;
use ks_keysets::Few;
use std::alloc::{AllocError, Global};
use std::collections::HashMap;

/// A map from keys to values.
#[derive(Drop)]
pub struct Table {
    /// What the keys below its length have, each at its own place.
    low: Vec<Option<u128>>,
    /// What the other keys have.
    high: HashMap<u64, u128>,
    ghost apart: { (key : ℕ) → key < length low.items → get nat_eq high key ≡ None },
}

/// A number of 64 bits can be a place. It computes nothing.
pub fn can_be_place(key: u64)
    ensures { IsPlace key }
{
    let _key = key;
}

/// The keys of all entries can be places. It changes nothing.
pub fn keys_can_be_places(entries: &[(u64, u128)])
    ensures { All (λ e. IsPlace e.0) entries.now }
{
    for entry in entries {
        can_be_place(entry.0);
    }
}

/// Whether none of them is there.
fn are_none(values: &[Option<u128>]) -> bool
    ensures { IsTrue result ↔ ((at : ℕ) → slice_index_or values.now at None ≡ None) }
{
    'values: for at in 0..values.len() {
        if values[at].is_some() {
            return false;
        }
    }
    true
}

impl Table {
    ghost use Rattle.ks_judge.specs.Table.{found};

    /// An empty map, in which keys below `places` have their own.
    pub fn new(alloc: Global, places: usize) -> Result<Table, AllocError>
        ensures { IfOk result (λ table. (p : ℕ) → found table p ≡ None) }
    {
        Ok(Table {
            low: vec![in alloc; None; places]?,
            high: HashMap::new(alloc),
        })
    }

    /// The place of the key, if it has one of its own.
    #[inline(always)]
    fn place_of(&self, key: u64) -> Option<usize>
        ensures some { IfSome result (λ at. (at ≡ key) × (key < length self.now.low.items)) }
        ensures none { IfNone result (length self.now.low.items ≤ key) }
    {
        if key < self.low.len() as u64 {
            return Some(key as usize);
        }
        None
    }
}

impl Store for Table {
    ghost use Rattle.std.specs.Prelude.{false};
    ghost use Rattle.ks_judge.specs.Table.{found};

    ghost has = { found };

    ghost lists = { false };

    #[inline(always)]
    fn get(&self, key: u64) -> Option<u128> {
        match self.place_of(key) {
            Some(at) => self.low[at],
            None => self.high.get(&key).copied(),
        }
    }

    #[inline(always)]
    fn insert(&mut self, key: u64, value: u128) -> Result<Option<u128>, AllocError> {
        let Some(at) = self.place_of(key) else {
            return Ok(self.high.insert(key, value)?);
        };
        let had = self.low[at];
        self.low[at] = Some(value);
        Ok(had)
    }

    #[inline(always)]
    fn remove(&mut self, key: u64) -> Option<u128> {
        let Some(at) = self.place_of(key) else {
            return self.high.remove(&key);
        };
        let had = self.low[at];
        self.low[at] = None;
        had
    }

    fn lists_span(&self, _low: u64, _last: u64, _pairs: &Few) -> bool {
        false
    }

    fn has_nothing(self, alloc: Global) -> Result<bool, AllocError> {
        let Table { low, high } = self;
        if !are_none(&low) {
            return Ok(false);
        }
        let entries: Vec<(u64, u128)> = high.into_iter().collect(alloc)?;
        let listed = entries.as_slice();
        keys_can_be_places(listed);
        Ok(listed.is_empty())
    }
}

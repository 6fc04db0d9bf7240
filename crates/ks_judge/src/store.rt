//! What the calls of a run are made again on: a map from keys to values.

ghost use Rattle.std.specs.Prelude.{ℕ, ◌≡◌, ◌↔◌, [], Bool, Option, IsTrue, IfOk, OnOk};
ghost use Rattle.ks_history.specs.Write.{sets, removes, map_with};
ghost use Rattle.ks_history.specs.Map.{ListsSpan};
ghost use Rattle.ks_history.specs.Served.{IsListing};

use ks_keysets::Few;
use std::alloc::{AllocError, Global};

/// A map from keys to values. Some list a span of their keys.
pub trait Store: Drop {
    /// What a key has.
    ghost has: { Self → ℕ → Option ℕ };

    /// Whether it lists spans.
    ghost lists: { Bool };

    /// What the key has.
    fn get(&self, key: u64) -> Option<u128>
        ensures { result ≡ has self.now key };

    /// Sets the value of the key, and returns what it had.
    fn insert(&mut self, key: u64, value: u128) -> Result<Option<u128>, AllocError>
        ensures had { IfOk result (λ had. had ≡ has self.old key) }
        ensures map { OnOk result ((p : ℕ) → has self.new p ≡ map_with (has self.old) (sets key value) p) };

    /// Leaves the key nothing, and returns what it had.
    fn remove(&mut self, key: u64) -> Option<u128>
        ensures had { result ≡ has self.old key }
        ensures map { (p : ℕ) → has self.new p ≡ map_with (has self.old) (removes key) p };

    /// Whether these pairs are what it has from one key to another, in order of key. Only a map that lists spans says so.
    fn lists_span(&self, low: u64, last: u64, pairs: &Few) -> bool
        ensures { IsTrue lists → (IsTrue result ↔ ListsSpan (has self.now) low last pairs.now) };

    /// Whether no key has anything.
    fn has_nothing(self, alloc: Global) -> Result<bool, AllocError>
        ensures { IfOk result (λ is. IsTrue is ↔ IsListing (has self) []) };
}

//! From keys to places and back.
//!
//! A dictionary stores a key at its place, and the layers below it know only places. A placing is a one-to-one map of all
//! 64-bit numbers onto themselves. `Plain` keeps the order of keys, as sorted nodes require. `Golden` spreads neighbouring
//! keys over the whole range, as a hash table requires: it multiplies by 2^64 divided by the golden ratio, and its inverse
//! multiplies by the inverse of that factor modulo 2^64.
#![tactic(auto)]

ghost use Rattle.std.specs.Prelude.{◌≡◌, ℕ, ◌^◌, ◌<◌};

/// A way to place keys, and its inverse.
///
/// Both functions are total, and by the two laws each undoes the other: no two keys share a place, and each place
/// belongs to a key.
pub trait Placing {
    ghost place_of: { ℕ → ℕ };

    ghost key_at: { ℕ → ℕ };

    /// The place of the key `k`.
    fn place(k: u64) -> u64
        ensures { result ≡ place_of k };

    /// The key whose place is `p`.
    fn key_of(p: u64) -> u64
        ensures { result ≡ key_at p };

    ghost key_of_place: { (k : ℕ) → k < 2 ^ 64 → key_at (place_of k) ≡ k };

    ghost place_of_key: { (p : ℕ) → p < 2 ^ 64 → place_of (key_at p) ≡ p };
}

/// Each key is its own place.
pub struct Plain;

/// Places spread over the whole range, by a multiplication modulo 2^64.
pub struct Golden;

impl Placing for Plain {
    ghost use Rattle.std.specs.Prelude.{refl};

    ghost place_of = { λ k. k };

    ghost key_at = { λ p. p };

    ghost key_of_place = { λ k _. refl };

    ghost place_of_key = { λ p _. refl };

    fn place(k: u64) -> u64 {
        k
    }

    fn key_of(p: u64) -> u64 {
        p
    }
}

impl Placing for Golden {
    ghost use Rattle.ks_places.specs.Golden.{golden_place};
    ghost use Rattle.ks_places.specs.Inverse.{golden_key};
    ghost use Rattle.ks_places.specs.Laws.Golden.{golden_round, golden_round_back};

    ghost place_of = { golden_place };

    ghost key_at = { golden_key };

    ghost key_of_place = { golden_round };

    ghost place_of_key = { golden_round_back };

    fn place(k: u64) -> u64 {
        k.wrapping_mul(0x9E3779B97F4A7C15)
    }

    fn key_of(p: u64) -> u64 {
        p.wrapping_mul(0xF1DE83E19937733D)
    }
}

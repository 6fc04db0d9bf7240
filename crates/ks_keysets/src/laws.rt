//! Laws of graphs. Each function here computes nothing: its contract is a law.

ghost use Rattle.std.specs.Prelude.{ℕ, ◌≡◌, ◌↔◌, Option};
ghost use Rattle.ks_keysets.specs.declared.NodeState.{NodeState};
ghost use Rattle.ks_keysets.specs.Record.{IsPlace};
ghost use Rattle.ks_keysets.specs.Keyset.{AreApart, Good, InKeyset, IsFound, opening, value_at};
ghost use Rattle.ks_keysets.specs.Walk.{EndsAt, MeetsNotLive, NeverEnds};

/// A place is in the keyset of a node if and only if its walk ends there. If edges are disjoint, no place is in two
/// keysets, and a walk that ends neither meets a node that is not live nor goes on without end.
pub fn keyset_law()
    ensures walk { (g : ℕ → NodeState) (n p : ℕ) → IsPlace p → InKeyset g n p ↔ EndsAt g p n }
    ensures one { (g : ℕ → NodeState) (n m p : ℕ) → AreApart g → InKeyset g n p → InKeyset g m p → n ≡ m }
    ensures ended { (g : ℕ → NodeState) (n p : ℕ) → AreApart g → EndsAt g p n → ¬ MeetsNotLive g p }
    ensures endless { (g : ℕ → NodeState) (n p : ℕ) → AreApart g → EndsAt g p n → ¬ NeverEnds g p }
{}

/// What a graph holds at a place is one value. In a good graph it is what the node whose keyset has the place has
/// there.
pub fn found_law()
    ensures one { (g : ℕ → NodeState) (p : ℕ) (v w : Option ℕ) → IsFound g p v → IsFound g p w → v ≡ w }
    ensures stands { (g : ℕ → NodeState) (n p : ℕ) → Good g → InKeyset g n p → IsFound g p (value_at g n p) }
    ensures opening { Good opening }
{}

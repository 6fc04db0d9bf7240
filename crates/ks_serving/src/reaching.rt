//! What workers ask for beside calls at one key: ordered scans, and moves of a value between two keys.
ghost use Rattle.std.specs.Prelude.{◌≡◌, ◌≢◌, ◌≤◌, ◌<◌, ◌^◌, ℕ, [], Bool, IsTrue, false, vec_capacity};
ghost use Rattle.ks_history.specs.declared.Op.TheVariants.{Move};
ghost use Rattle.ks_lines.specs.Scan.{IsScanOf};
ghost use Rattle.ks_arena.specs.Of.{SameCaller};
ghost use Rattle.ks_shape.specs.Answers.{move_number, move_reply};
ghost use Rattle.ks_shape.specs.Idle.{IsDone, IsIdle};
ghost use Rattle.ks_dictionary.specs.Scan.{IsDoneScan};

use ks_arena::Pass;
use ks_gate::Gate;
use ks_lines::{Part, Scanned};
use ks_node::Node;
use ks_shape::{MoveLeft, Numbered, Ruled, Shelf};
use std::sync::Wait;

/// Which calls a pairing serves beside those at one key. It is no part of `Reaching`, since an impl of it has no type
/// parameters.
pub trait Reach {
    /// Whether it serves scans.
    ghost scans: { Bool };

    /// Whether it serves moves.
    ghost moves: { Bool };

    /// Whether it serves scans. It computes nothing else.
    fn serves_scans(&self) -> bool
        ensures { result ≡ scans };
}

/// The calls that a pairing of nodes and a technique serves beside those at one key. Each pairing serves scans or not, and
/// moves or not; what it does not serve, no caller may call.
///
/// Workers are generic over it, beside a technique. Its values have nothing in them: a closure that workers run captures one.
pub trait Reaching<N: Node, A: Shelf, T: Ruled>: Reach {
    /// Lists the pairs from `low` to `last`, both included, in at most `most` parts, which it pushes into `into`, an empty
    /// list with room for them. It stops at `last`, or after `most` parts. Keys are places where it may be called.
    fn scan_into<R: Wait, G: Gate>(
        &self,
        rt: &R,
        arena: &A,
        pass: &mut Pass<N, T::Rule>,
        gate: &G,
        low: u64,
        last: u64,
        most: usize,
        into: &mut Vec<Part>,
    ) -> Scanned
        requires scans { IsTrue Self.scans }
        requires pass { IsIdle (A.site arena.now) pass.old }
        requires span { low ≤ last }
        requires some { 1 ≤ most }
        requires blank { into.old.items ≡ [] }
        requires room { most ≤ vec_capacity into.old }
        ensures pass { IsIdle (A.site arena.now) pass.new }
        ensures caller { SameCaller pass.old pass.new }
        ensures done { IsDoneScan N.layout T.technique (A.site arena.now) low last
            pass.old pass.new into.new.items }
        ensures scan { IsScanOf low last most into.new.items result }
        ensures keys { (k : ℕ) → k < 2 ^ 64 → N.Places.place_of k ≡ k };

    /// Moves the value at `from` to `to`, another place, and returns it. If there is none, the map stays as it was.
    ///
    /// # Errors
    ///
    /// As for `Moving::move_value`.
    fn move_value<R: Wait, G: Gate>(
        &self,
        rt: &R,
        arena: &A,
        pass: &mut Pass<N, T::Rule>,
        gate: &G,
        from: u64,
        to: u64,
    ) -> Result<Numbered, MoveLeft>
        requires moves { IsTrue Self.moves }
        requires pass { IsIdle (A.site arena.now) pass.old }
        requires apart { from ≢ to }
        ensures pass { IsIdle (A.site arena.now) pass.new }
        ensures caller { SameCaller pass.old pass.new }
        ensures done { IsDone N.layout T.technique (A.site arena.now) (Move from to)
            pass.old pass.new (move_reply result) (move_number result) };
}

/// Calls at one key, and none beside them: no scans, and no moves.
pub struct AtOneKey;

impl Reach for AtOneKey {
    ghost scans = { false };

    ghost moves = { false };

    fn serves_scans(&self) -> bool {
        false
    }
}

impl<N: Node, A: Shelf, T: Ruled> Reaching<N, A, T> for AtOneKey {
    // No caller may call it.
    fn scan_into<R: Wait, G: Gate>(
        &self,
        _rt: &R,
        _arena: &A,
        pass: &mut Pass<N, T::Rule>,
        _gate: &G,
        _low: u64,
        _last: u64,
        _most: usize,
        into: &mut Vec<Part>,
    ) -> Scanned
        ensures pass { pass.new ≡ pass.old }
        ensures into { into.new ≡ into.old }
    {
        Scanned::Whole
    }

    // No caller may call it.
    fn move_value<R: Wait, G: Gate>(
        &self,
        _rt: &R,
        _arena: &A,
        pass: &mut Pass<N, T::Rule>,
        _gate: &G,
        _from: u64,
        _to: u64,
    ) -> Result<Numbered, MoveLeft>
        ensures { pass.new ≡ pass.old }
    {
        Err(MoveLeft::Full { number: 0 })
    }
}

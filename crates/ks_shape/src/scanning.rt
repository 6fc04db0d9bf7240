//! What a technique of concurrency offers besides: ordered scans, one part at a time.
ghost use Rattle.std.specs.Prelude.{◌≡◌, ◌≤◌, ◌<◌, ◌^◌, ℕ};
ghost use Rattle.ks_arena.specs.Of.{SameCaller};
ghost use Rattle.ks_shape.specs.Does.{OnlySearches};
ghost use Rattle.ks_shape.specs.Idle.{IsIdle};
ghost use Rattle.ks_shape.specs.Parts.{IsDonePart};

use crate::parts::Part;
use crate::template::{Ruled, Shelf};
use ks_arena::Pass;
use ks_gate::Gate;
use ks_node::Node;
use std::sync::Wait;

/// A technique with ordered scans, over nodes whose keys are their places. Each part of a scan is a call of its own, which
/// lists the pairs of one node.
pub trait Scanning<N: Node, A: Shelf>: Ruled {
    /// Lists the pairs from `low` on, at most to `last`, both included, and returns at which place it stopped: it stops
    /// below `last` only where the keyset of its node ends. A scan goes on from the place after that one.
    fn scan_part<R: Wait, G: Gate>(
        rt: &R,
        arena: &A,
        pass: &mut Pass<N, Self::Rule>,
        gate: &G,
        low: u64,
        last: u64,
    ) -> Part
        requires pass { IsIdle (A.site arena.now) pass.old }
        requires span { low ≤ last }
        ensures pass { IsIdle (A.site arena.now) pass.new }
        ensures caller { SameCaller pass.old pass.new }
        ensures leaves { OnlySearches pass.old pass.new }
        ensures done { IsDonePart N.layout Self.technique (A.site arena.now) low last
            pass.old pass.new result };

    /// Each key is its place.
    ghost plain: { (k : ℕ) → k < 2 ^ 64 → N.Places.place_of k ≡ k };
}

/// The law of a technique with ordered scans: each key is its place.
pub fn scanning_law<N: Node, A: Shelf, T: Scanning<N, A>>()
    ensures plain { (k : ℕ) → k < 2 ^ 64 → N.Places.place_of k ≡ k }
{}

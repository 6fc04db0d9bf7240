//! What is served beside calls at one key.
ghost use Rattle.std.specs.Prelude.{◌≡◌, true, false};

use ks_arena::{Arena, Pass};
use ks_bst::TNode;
use ks_flow::Tree;
use ks_gate::Gate;
use ks_giveup::GiveUp;
use ks_lines::{Part, Scanned};
use ks_node::WithRange;
use ks_serving::{Reach, Reaching};
use ks_shape::{MoveLeft, Moving, Numbered};
use std::sync::Wait;

/// A node of a binary search tree by giving up.
type Ranged = WithRange<TNode>;

/// Moves by giving up, and no scans.
pub struct Moves;

impl Reach for Moves {
    ghost scans = { false };

    ghost moves = { true };

    fn serves_scans(&self) -> bool {
        false
    }
}

impl Reaching<Ranged, Arena<Ranged, Tree>, GiveUp> for Moves {
    // No caller may call it.
    fn scan_into<R: Wait, G: Gate>(
        &self,
        _rt: &R,
        _arena: &Arena<Ranged, Tree>,
        pass: &mut Pass<Ranged, Tree>,
        _gate: &G,
        _low: u64,
        _last: u64,
        _most: usize,
        into: &mut Vec<Part>,
    ) -> Scanned
        ensures pass { pass.new ≡ pass.old }
        ensures into { into.new ≡ into.old }
    {
        Scanned::Whole
    }

    fn move_value<R: Wait, G: Gate>(
        &self,
        rt: &R,
        arena: &Arena<Ranged, Tree>,
        pass: &mut Pass<Ranged, Tree>,
        gate: &G,
        from: u64,
        to: u64,
    ) -> Result<Numbered, MoveLeft> {
        GiveUp::move_value(rt, arena, pass, gate, from, to)
    }
}

//! What is served beside calls at one key.
ghost use Rattle.std.specs.Prelude.{◌≡◌, true, false};

use ks_arena::{Arena, Pass};
use ks_bplus::BNode;
use ks_dictionary::scan_into;
use ks_flow::{Link, Tree};
use ks_gate::Gate;
use ks_giveup::GiveUp;
use ks_lines::{Part, Scanned};
use ks_link::LinkMove;
use ks_linked::WithLink;
use ks_node::WithRange;
use ks_serving::{Reach, Reaching};
use ks_shape::{MoveLeft, Moving, Numbered};
use std::sync::Wait;

/// A node of a B+ tree by giving up.
type BplusRange = WithRange<BNode>;

/// A node of a B+ tree along links.
type BplusLink = WithLink<BNode>;

/// Scans and moves, by giving up.
pub struct ScansAndMoves;

impl Reach for ScansAndMoves {
    ghost scans = { true };

    ghost moves = { true };

    fn serves_scans(&self) -> bool {
        true
    }
}

impl Reaching<BplusRange, Arena<BplusRange, Tree>, GiveUp> for ScansAndMoves {
    fn scan_into<R: Wait, G: Gate>(
        &self,
        rt: &R,
        arena: &Arena<BplusRange, Tree>,
        pass: &mut Pass<BplusRange, Tree>,
        gate: &G,
        low: u64,
        last: u64,
        most: usize,
        into: &mut Vec<Part>,
    ) -> Scanned {
        scan_into::<BplusRange, Arena<BplusRange, Tree>, GiveUp, R, G>(
            rt, arena, pass, gate, low, last, most, into,
        )
    }

    fn move_value<R: Wait, G: Gate>(
        &self,
        rt: &R,
        arena: &Arena<BplusRange, Tree>,
        pass: &mut Pass<BplusRange, Tree>,
        gate: &G,
        from: u64,
        to: u64,
    ) -> Result<Numbered, MoveLeft> {
        GiveUp::move_value(rt, arena, pass, gate, from, to)
    }
}

/// Scans along links, and no moves.
pub struct Scans;

impl Reach for Scans {
    ghost scans = { true };

    ghost moves = { false };

    fn serves_scans(&self) -> bool {
        true
    }
}

impl Reaching<BplusLink, Arena<BplusLink, Link>, LinkMove> for Scans {
    fn scan_into<R: Wait, G: Gate>(
        &self,
        rt: &R,
        arena: &Arena<BplusLink, Link>,
        pass: &mut Pass<BplusLink, Link>,
        gate: &G,
        low: u64,
        last: u64,
        most: usize,
        into: &mut Vec<Part>,
    ) -> Scanned {
        scan_into::<BplusLink, Arena<BplusLink, Link>, LinkMove, R, G>(
            rt, arena, pass, gate, low, last, most, into,
        )
    }

    // No caller may call it.
    fn move_value<R: Wait, G: Gate>(
        &self,
        _rt: &R,
        _arena: &Arena<BplusLink, Link>,
        pass: &mut Pass<BplusLink, Link>,
        _gate: &G,
        _from: u64,
        _to: u64,
    ) -> Result<Numbered, MoveLeft>
        ensures { pass.new ≡ pass.old }
    {
        Err(MoveLeft::Full { number: 0 })
    }
}

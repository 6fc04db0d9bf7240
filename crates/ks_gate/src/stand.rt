//! A gate for tests, at which one caller is stopped while another makes some calls.

ghost use Rattle.std.specs.Prelude.{◌≡◌};

use crate::{Gate, Point};
use std::marker::Model;
use std::sync::atomic::AtomicU64;
use std::sync::atomic::Ordering::SeqCst;
use std::thread::yield_now;

/// Which caller is stopped and where, how many calls of which other end the stop, and how long it lasts at most.
#[derive(Clone, Copy)]
pub struct Standing {
    pub stander: u32,
    pub after: u64,
    pub at: Point,
    pub mover: u32,
    pub moves: u64,
    pub limit: u64,
}

/// A gate that stops one caller, the stander, at a point while another, the mover, makes a number of calls.
///
/// After the stander has passed `after` points Decided, the gate stops it at the next point `at`, until the mover has
/// passed `moves` points Decided since the gate was made. It stops the mover at its first Begin until the stander is
/// stopped. Each of the two is stopped once. A stop takes a limited number of turns, each a look at what the other has
/// done; if it ends by the limit, the gate has failed and both callers go on. Other callers pass.
///
/// Contracts see what a gate was made for. What it has seen of callers is in words that any thread may change at any time,
/// so no contract can say it: tests show when a caller is stopped, and when the gate has failed.
#[derive(Drop)]
pub struct Stand {
    standing: Standing,
    /// The points Decided that the stander has still to pass before it may be stopped.
    to_decide: AtomicU64,
    /// 1 until the stander has been stopped.
    to_stand: AtomicU64,
    /// 1 until the mover has come to a Begin.
    to_begin: AtomicU64,
    /// The points Decided that the mover has still to pass before the stander goes on.
    to_move: AtomicU64,
    /// 1 once a stop has ended by the limit.
    failures: AtomicU64,
}

impl Model for Stand {
    ghost use Rattle.ks_gate.specs.declared.stand.Standing.{Standing};

    ghost Value = { Standing };

    ghost view = { λ s. s.standing };
}

impl Stand {
    /// A gate that stops the stander, once it has passed `after` points Decided, at its next point `at`, until the mover
    /// has passed `moves` points Decided. Each stop takes at most `limit` turns; with 0 each fails at once. Stander and
    /// mover are two callers: if they were one, no other would end its stop before the limit.
    pub fn of(stander: u32, after: u64, at: Point, mover: u32, moves: u64, limit: u64) -> Stand
        ensures stander { result.stander ≡ stander }
        ensures after { result.after ≡ after }
        ensures point { result.at ≡ at }
        ensures mover { result.mover ≡ mover }
        ensures moves { result.moves ≡ moves }
        ensures limit { result.limit ≡ limit }
    {
        Stand {
            standing: Standing {
                stander,
                after,
                at,
                mover,
                moves,
                limit,
            },
            to_decide: AtomicU64::new(after),
            to_stand: AtomicU64::new(1),
            to_begin: AtomicU64::new(1),
            to_move: AtomicU64::new(moves),
            failures: AtomicU64::new(0),
        }
    }

    /// Whether a stop has ended by its limit. It is false for a new gate, and once true it remains so.
    pub fn failed(&self) -> bool {
        self.failures.load(SeqCst) > 0
    }

    /// Waits until the other caller has nothing left to do, or for as many turns as the limit says, and then has failed.
    fn stand_while(&self, left: &AtomicU64) {
        for _ in 0..self.standing.limit {
            if left.load(SeqCst) == 0 {
                return;
            }
            yield_now();
        }
        self.failures.store(1, SeqCst);
    }

    fn stander_at(&self, point: Point) {
        if self.to_decide.load(SeqCst) > 0 {
            pass(&self.to_decide, point);
        } else if point == self.standing.at && self.to_stand.swap(0, SeqCst) > 0 {
            self.stand_while(&self.to_move);
        }
    }

    fn mover_at(&self, point: Point) {
        if point == Point::Begin && self.to_begin.swap(0, SeqCst) > 0 {
            self.stand_while(&self.to_stand);
        }
        pass(&self.to_move, point);
    }
}

/// Counts down at a point Decided, if any is left to pass. Only the caller that a word counts for changes it.
fn pass(left: &AtomicU64, point: Point) {
    let count = left.load(SeqCst);
    if count > 0 && matches!(point, Point::Decided(_)) {
        left.store(count - 1, SeqCst);
    }
}

impl Gate for Stand {
    fn at(&self, caller: u32, point: Point) {
        if caller == self.standing.stander {
            self.stander_at(point);
        } else if caller == self.standing.mover {
            self.mover_at(point);
        }
    }
}

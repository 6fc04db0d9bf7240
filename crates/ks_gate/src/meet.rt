//! A gate for tests, at which two callers meet.

ghost use Rattle.std.specs.Prelude.{◌≡◌};

use crate::{Gate, Point, Stand};
use std::marker::Model;

/// A gate that stops one caller, the stander, at a point while another, the mover, makes a call.
///
/// It is a `Stand` of one call: after the stander has passed `after` points Decided, the gate stops it at the next point
/// `at`, until the mover has passed a point Decided. It stops the mover at its first Begin until the stander is stopped.
/// Each of the two is stopped once, for a limited number of turns; if a stop ends by the limit, the gate has failed and both
/// callers go on. Other callers pass.
#[derive(Drop)]
pub struct Meet {
    stand: Stand,
}

impl Model for Meet {
    ghost use Rattle.ks_gate.specs.declared.stand.Standing.{Standing};

    ghost Value = { Standing };

    ghost view = { λ m. m.stand };
}

impl Meet {
    /// A gate that stops the stander, once it has passed `after` points Decided, at its next point `at`, until the mover
    /// has passed a point Decided. Each stop takes at most `limit` turns; with 0 each fails at once. Stander and mover are
    /// two callers: if they were one, no other would end its stop before the limit.
    pub fn of(stander: u32, after: u64, at: Point, mover: u32, limit: u64) -> Meet
        ensures stander { result.stander ≡ stander }
        ensures after { result.after ≡ after }
        ensures point { result.at ≡ at }
        ensures mover { result.mover ≡ mover }
        ensures moves { result.moves ≡ 1 }
        ensures limit { result.limit ≡ limit }
    {
        Meet {
            stand: Stand::of(stander, after, at, mover, 1, limit),
        }
    }

    /// Whether a stop has ended by its limit. It is false for a new gate, and once true it remains so.
    pub fn failed(&self) -> bool {
        self.stand.failed()
    }
}

impl Gate for Meet {
    fn at(&self, caller: u32, point: Point) {
        self.stand.at(caller, point);
    }
}

//! Where bytes come from and where they go.
//!
//! A source or a sink may make its bytes known, so that contracts can speak of them, or not. It may fail, and then
//! its count of faults rises; the count stays at 2^64 - 1 and never falls.

ghost use Rattle.std.specs.Prelude.{ℕ, ◌<◌, ◌≤◌, List, Option, None, length, IfOk, OnErr};
ghost use Rattle.ks_script.specs.Outside.{Rose, Reads, Writes};

use crate::Failed;

/// Where bytes come from.
pub trait Source {
    /// The bytes to come, if they are known.
    ghost left: { Self → Option (List ℕ) } = { λ _. None };

    /// How often it failed.
    ghost faults: { Self → ℕ };

    /// Moves the next bytes to the start of the buffer, and returns how many they are. No bytes for a buffer that is
    /// not empty are the end.
    fn read(&mut self, into: &mut [u8]) -> Result<usize, Failed>
        ensures bound { IfOk result (λ n. n ≤ length into.new) }
        ensures bytes { Reads (left self.old) (left self.new) into.new result }
        ensures count { faults self.old ≤ faults self.new }
        ensures cause { OnErr result (Rose (faults self.old) (faults self.new)) };
}

/// Where bytes go.
pub trait Sink {
    /// The bytes taken, if they are known.
    ghost taken: { Self → Option (List ℕ) } = { λ _. None };

    /// How often it failed.
    ghost faults: { Self → ℕ };

    /// Takes the first bytes of the piece, and returns how many they are: one at least, if the piece is not empty.
    fn write(&mut self, piece: &[u8]) -> Result<usize, Failed>
        ensures bound { IfOk result (λ n. n ≤ length piece.now) }
        ensures some { 0 < length piece.now → IfOk result (λ n. 0 < n) }
        ensures bytes { Writes (taken self.old) (taken self.new) piece.now result }
        ensures count { faults self.old ≤ faults self.new }
        ensures cause { OnErr result (Rose (faults self.old) (faults self.new)) };
}

//! The parts of an ordered scan.
ghost use Rattle.std.specs.Prelude.{◌≡◌};

use ks_keysets::Few;
use std::marker::Model;

/// One part of an ordered scan: its number in the one history of all calls, modulo 2^64; the last place that it covers;
/// and the pairs from its first place to that one, in ascending order.
#[derive(Debug, PartialEq, Eq, Drop)]
pub struct Part {
    pub number: u64,
    pub last: u64,
    pub pairs: Few,
}

/// The parts of a scan, in order. A clause reads them as their list.
#[derive(Drop)]
pub struct Parts {
    parts: Vec<Part>,
}

impl Model for Parts {
    ghost use Rattle.std.specs.Prelude.{List};
    ghost use Rattle.ks_lines.specs.declared.parts.Part.{Part};

    ghost Value = { List Part };

    ghost view = { λ p. p.parts.items };
}

impl Parts {
    /// These parts.
    pub fn of(parts: Vec<Part>) -> Parts
        ensures { result ≡ parts.items }
    {
        Parts { parts }
    }

    /// All of them, in order.
    pub fn as_slice(&self) -> &[Part]
        ensures { result.now ≡ self.now }
    {
        self.parts.as_slice()
    }
}

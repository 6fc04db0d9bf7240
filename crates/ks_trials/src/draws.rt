//! Calls that are drawn, the same in each run.
use crate::calls::Op;

/// A number that looks drawn (the mixing step of splitmix64).
fn mixed(seed: u64) -> u64 {
    let first = (seed ^ (seed >> 30)).wrapping_mul(0xBF58_476D_1CE4_E5B9);
    let second = (first ^ (first >> 27)).wrapping_mul(0x94D0_49BB_1331_11EB);
    second ^ (second >> 31)
}

/// A sequence of draws.
#[derive(Clone, Copy)]
pub(crate) struct Draws {
    seed: u64,
}

impl Draws {
    /// The sequence with this number.
    pub(crate) fn of(number: u64) -> Draws {
        Draws {
            seed: mixed(number.wrapping_add(1)),
        }
    }

    /// The next draw, below `many`, or 0 if `many` is 0.
    pub(crate) fn below(&mut self, many: u64) -> u64 {
        self.seed = self.seed.wrapping_add(0x9E37_79B9_7F4A_7C15);
        let draw = mixed(self.seed);
        if many == 0 { 0 } else { draw % many }
    }

    /// A value. There are few, so that swaps find theirs.
    fn value(&mut self) -> u128 {
        u128::from(self.below(3))
    }

    /// What a call does: of eight, three put or add, two swap, two delete, and one gets.
    pub(crate) fn op(&mut self) -> Op {
        match self.below(8) {
            0 | 1 => Op::Put(self.value()),
            2 => Op::Add(self.value()),
            3 | 4 => Op::Swap(self.value(), self.value()),
            5 | 6 => Op::Del,
            _ => Op::Get,
        }
    }

    /// What a call does where keys become more: of eight, six put or add.
    pub(crate) fn growing(&mut self) -> Op {
        match self.below(8) {
            0 | 1 | 2 => Op::Put(self.value()),
            3 | 4 | 5 => Op::Add(self.value()),
            6 => Op::Del,
            _ => Op::Get,
        }
    }
}

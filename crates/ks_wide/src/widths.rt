//! Which widths suit a node.

ghost use Rattle.std.specs.Prelude.{ℕ};
ghost use Rattle.ks_wide.specs.Widths.{AreWidths};

use ks_places::{Golden, Placing, Plain};

/// A placing over which nodes have `L` pairs in a leaf and `F` children in a branch. `L` is at least 2 and `F` at
/// least 4, so that each half of a full node has something, and each half of a branch two children; both are below 2^32 - 1.
pub trait Widths<const L: usize, const F: usize>: Placing {
    /// The pairs that fill a leaf: `L`.
    const ROOM: u32;

    ghost ROOM: { ℕ };

    ghost suit: { AreWidths L F ROOM };
}

impl Widths<32, 64> for Golden {
    ghost use Rattle.ks_wide.specs.Laws.Widths.{suit_32_64};

    const ROOM: u32 = 32;

    ghost ROOM = { 32 };

    ghost suit = { suit_32_64 };
}

impl Widths<16, 64> for Plain {
    ghost use Rattle.ks_wide.specs.Laws.Widths.{suit_16_64};

    const ROOM: u32 = 16;

    ghost ROOM = { 16 };

    ghost suit = { suit_16_64 };
}

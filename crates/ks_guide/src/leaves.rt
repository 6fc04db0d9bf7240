//! Where calls were decided: sets of two spots, found by a hash of a block of places.
ghost use Rattle.std.specs.Prelude.{ℕ, ◌≡◌, ◌<◌, ◌≤◌, length, IfOk, None, Some};
ghost use Rattle.ks_guide.specs.Spots.{Holds};

use crate::spot::{BLANK, Spot, Two};
use std::alloc::{AllocError, Global};

/// The odd number nearest to 2^64 divided by the golden ratio.
const SPREAD: u64 = 0x9E3779B97F4A7C15;

/// A span is wide if at least this number of blocks are in it.
const MANY_BLOCKS: u64 = 16;

/// Blocks become coarser after this number of notes of wide spans, with none of a narrow one among them.
const PATIENCE: u32 = 4096;

#[derive(Drop)]
pub struct Leaves {
    sets: Vec<Two>,
    /// A block has 2^shift places.
    pub(crate) shift: u32,
    wide: u32,
    ghost some: { 0 < length sets.items },
    ghost shifts: { shift ≤ 63 },
}

impl Leaves {
    ghost use Rattle.ks_guide.specs.Leaves.{guess_of, set_of};

    /// Sets that have no place.
    pub fn start(alloc: Global, sets: usize) -> Result<Leaves, AllocError>
        requires { 1 ≤ sets }
        ensures { IfOk result (λ leaves. (p : ℕ) → guess_of leaves p ≡ None) }
    {
        let blank = Two {
            first: BLANK,
            second: BLANK,
        };
        Ok(Leaves {
            sets: vec![in alloc; blank; sets]?,
            shift: 63,
            wide: 0,
        })
    }

    /// The set of a place.
    #[inline(always)]
    fn set_of(&self, place: u64) -> usize
        ensures is { result ≡ set_of self.now place }
        ensures inside { result < length self.now.sets.items }
    {
        let spread = (place >> self.shift).wrapping_mul(SPREAD) as u128;
        ((spread * self.sets.len() as u128) >> 64) as usize
    }

    /// The node of the span that has the place.
    #[inline(always)]
    pub fn guess(&self, place: u64) -> Option<u32>
        ensures { result ≡ guess_of self.now place }
    {
        self.sets[self.set_of(place)].guess(place)
    }

    /// Notes that the place is in this span.
    #[inline(always)]
    pub fn note(&mut self, place: u64, spot: Spot)
        requires { Holds place spot }
        ensures { guess_of self.new place ≡ Some spot.node }
    {
        let at = self.set_of(place);
        if self.sets[at].is_settled(place, spot) {
            return;
        }
        self.fit(spot.last - spot.low);
        let at = self.set_of(place);
        self.sets[at] = self.sets[at].noted(place, spot);
    }

    /// Makes blocks finer, if a block has at least four times the places of a span from 0 to `width`, or coarser after many
    /// notes of wide spans.
    fn fit(&mut self, width: u64) {
        if self.shift > 2 && width >> (self.shift - 2) == 0 {
            self.shift -= 1;
            self.wide = 0;
        } else if width >> self.shift >= MANY_BLOCKS && self.shift < 63 {
            self.wide = self.wide.wrapping_add(1) % PATIENCE;
            if self.wide == 0 {
                self.shift += 1;
            }
        }
    }
}

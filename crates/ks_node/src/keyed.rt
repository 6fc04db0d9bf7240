//! The position of a place among keyed elements in ascending order.

ghost use Rattle.std.specs.Prelude.{◌≡◌, ℕ, ◌<◌, ◌≤◌, length, take, drop, MatchResult};
ghost use Rattle.ks_node.specs.Keyed.{Ascends, below, from, IsRank, IsFound, IsMissing};

use crate::start::Start;
use ks_keysets::Pair;

/// An element with a number by which lists are ordered.
pub trait Keyed: Copy {
    ghost key: { Self → ℕ };

    fn key(&self) -> u64
        ensures { result ≡ key self.now };
}

impl Keyed for Pair {
    ghost key = { λ x. x.place };

    fn key(&self) -> u64 {
        self.place
    }
}

impl Keyed for Start {
    ghost key = { λ x. x.low };

    fn key(&self) -> u64 {
        self.low
    }
}

/// How many elements are below the place.
pub fn rank<T: Keyed>(items: &[T], place: u64) -> usize
    requires { Ascends T.key items.now }
    ensures rank { IsRank T.key place items.now result }
    ensures below { below T.key place items.now ≡ take result items.now }
    ensures from { from T.key place items.now ≡ drop result items.now }
{
    for (i, x) in items.iter().enumerate() {
        if place <= x.key() {
            return i;
        }
    }
    items.len()
}

/// The position of the place, or the one at which it would be.
pub fn seek<T: Keyed>(items: &[T], place: u64) -> Result<usize, usize>
    requires { Ascends T.key items.now }
    ensures { MatchResult result (IsFound T.key place items.now) (IsMissing T.key place items.now) }
{
    let i = rank(items, place);
    if i >= items.len() {
        return Err(i);
    }
    if items[i].key() == place {
        Ok(i)
    } else {
        Err(i)
    }
}

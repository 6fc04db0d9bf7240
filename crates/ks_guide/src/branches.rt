//! Branches that searches passed: spots that ascend by their first places.
ghost use Rattle.std.specs.Prelude.{ℕ, ◌≡◌, ◌≤◌, ◌<◌, ◌+◌, ◌⊎◌, length, Some, None, IfOk, vec_capacity};
ghost use Rattle.ks_guide.specs.Branches.{Ascend, IsBegun, IsGap, IsPlaced, guess_among};

use crate::spot::Spot;
use std::alloc::{AllocError, Global};

#[derive(Drop)]
pub struct Branches {
    spots: Vec<Spot>,
    most: usize,
    /// Which neighbour of a new spot went last in a full table: the one before it, or the one behind. They take turns.
    before: bool,
    ghost ascend: { Ascend spots.items },
    ghost room: { most ≤ vec_capacity spots },
}

impl Branches {
    /// A table that has room for `most` spots, and has none.
    pub fn start(alloc: Global, most: usize) -> Result<Branches, AllocError>
        ensures most { IfOk result (λ branches. branches.most ≡ most) }
        ensures none { IfOk result (λ branches. (p : ℕ) → guess_among p branches.spots.items ≡ None) }
    {
        Ok(Branches {
            spots: Vec::with_capacity(alloc, most)?,
            most,
            before: false,
        })
    }

    /// The node of the last span that begins at the place or below it, if it has the place.
    pub fn guess(&self, place: u64) -> Option<u32>
        ensures { result ≡ guess_among place self.now.spots.items }
    {
        let begun = begun(self.spots.as_slice(), place);
        if begun == 0 {
            return None;
        }
        let spot = self.spots[begun - 1];
        if spot.holds(place) {
            return Some(spot.node);
        }
        None
    }

    /// Notes a span, in place of those that begin in it. In a full table with none of them one beside it goes.
    pub fn note(&mut self, new: Spot)
        requires { new.low ≤ new.last }
        ensures most { self.new.most ≡ self.old.most }
        ensures told { (p : ℕ) → 0 < self.old.most → new.low ≤ p → p ≤ new.last →
            guess_among p self.new.spots.items ≡ Some new.node }
    {
        if self.most == 0 {
            return;
        }
        let to = begun(self.spots.as_slice(), new.last);
        if to > 0 && self.spots[to - 1] == new {
            return;
        }
        let from = begun_before(self.spots.as_slice(), new, to);
        if from < to {
            put_over(&mut self.spots, new, from, to);
        } else if self.spots.len() < self.most {
            put_between(&mut self.spots, new, from);
        } else {
            self.before = !self.before;
            let goes = beside(from, self.spots.len(), self.before);
            put_beside(&mut self.spots, new, from, goes);
        }
    }
}

/// How many spots begin at the place or below it.
fn begun(spots: &[Spot], place: u64) -> usize
    requires { Ascend spots.now }
    ensures { IsBegun place spots.now result }
{
    let mut begun = 0;
    let mut left = spots.len();
    while left > 0 {
        let half = left / 2;
        if spots[begun + half].low <= place {
            begun += half + 1;
            left -= half + 1;
        } else {
            left = half;
        }
    }
    begun
}

/// How many spots begin before a new one; those from there to `to` begin in its span.
fn begun_before(spots: &[Spot], new: Spot, to: usize) -> usize
    requires ascend { Ascend spots.now }
    requires upright { new.low ≤ new.last }
    requires to { IsBegun new.last spots.now to }
    ensures { IsGap new spots.now result to }
{
    if new.low == 0 {
        return 0;
    }
    begun(spots, new.low - 1)
}

/// Puts a new spot in place of those that begin in its span.
fn put_over(spots: &mut Vec<Spot>, new: Spot, from: usize, to: usize)
    requires ascend { Ascend spots.old.items }
    requires gap { IsGap new spots.old.items from to }
    requires some { from < to }
    ensures ascend { Ascend spots.new.items }
    ensures capacity { vec_capacity spots.old ≤ vec_capacity spots.new }
    ensures placed { IsPlaced new spots.new.items from }
{
    spots[from] = new;
    let mut left = to - from - 1;
    while left > 0 {
        let _ = spots.remove(from + 1);
        left -= 1;
    }
}

/// Puts a new spot between others, none of which begins in its span.
fn put_between(spots: &mut Vec<Spot>, new: Spot, at: usize)
    requires ascend { Ascend spots.old.items }
    requires gap { IsGap new spots.old.items at at }
    requires room { length spots.old.items < vec_capacity spots.old }
    ensures ascend { Ascend spots.new.items }
    ensures capacity { vec_capacity spots.old ≤ vec_capacity spots.new }
    ensures placed { IsPlaced new spots.new.items at }
{
    match spots.insert(at, new) {
        Ok(()) => {}
        Err(_) => unreachable!(),
    }
}

/// Which spot of a full table goes for a new one that belongs at this index: that before it if `before`, or that behind.
fn beside(at: usize, count: usize, before: bool) -> usize
    requires within { at ≤ count }
    requires some { 0 < count }
    ensures within { result < count }
    ensures near { (result ≡ at) ⊎ (result + 1 ≡ at) }
{
    if at == count || (before && 0 < at) {
        return at - 1;
    }
    at
}

/// Puts a new spot in place of one beside it, as none begins in its span.
fn put_beside(spots: &mut Vec<Spot>, new: Spot, at: usize, goes: usize)
    requires ascend { Ascend spots.old.items }
    requires gap { IsGap new spots.old.items at at }
    requires within { goes < length spots.old.items }
    requires near { (goes ≡ at) ⊎ (goes + 1 ≡ at) }
    ensures ascend { Ascend spots.new.items }
    ensures capacity { vec_capacity spots.old ≤ vec_capacity spots.new }
    ensures placed { IsPlaced new spots.new.items goes }
{
    spots[goes] = new;
}

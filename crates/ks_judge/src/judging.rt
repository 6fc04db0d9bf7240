//! Judges a printed run of a script.

ghost use Rattle.std.specs.Prelude.{ℕ, ◌≡◌, ◌↔◌, ◌<◌, ◌≤◌, ◌+◌, false, length, Some, None, IsTrue, IfOk};
ghost use Rattle.ks_history.specs.Write.{removes, map_with};
ghost use Rattle.ks_history.specs.Served.{IsListing};
ghost use Rattle.ks_lines.specs.Lines.{AreAnswered, ops_in, replies_in};
ghost use Rattle.ks_script.specs.Script.{calls_in};
ghost use Rattle.ks_script.specs.PackedReplies.{said_at};
ghost use Rattle.ks_script.specs.Plain.{IsOfCall};
ghost use Rattle.ks_judge.specs.Flat.{replies_of, replies_all, lines_said, NoScans};
ghost use Rattle.ks_judge.specs.Verdict.{IsJudged, IsJudgedRun};

use crate::ordered::Ordered;
use crate::replay::{Replayed, replay};
use crate::slots::slots;
use crate::store::Store;
use crate::table::{Table, keys_can_be_places};
use ks_script::{Calls, Printed, Replies, Script};
use std::alloc::{AllocError, Global};

// Keys below this number have places of their own, if there are as many calls.
const LOW_KEYS: usize = 32_768;

/// What a printed run is judged to be.
#[derive(Clone, Copy, Debug, PartialEq, Eq)]
pub enum Judged {
    /// The replies are those of a map, in the order of their numbers.
    Legal { calls: u64 },
    /// The least number that is wrong; the number of all calls where the map at the end is.
    Wrong { number: u64 },
}

/// What is counted of lines: how many calls they make, and whether one of them is a scan.
#[derive(Clone, Copy, Debug)]
struct Counted {
    calls: usize,
    scans: bool,
}

impl Counted {
    /// What is counted with the line at a place too.
    #[inline(always)]
    fn with(self, said: &Replies, at: usize) -> Counted
        requires within { at < length said.now }
        requires few { self.calls + length (replies_of (said_at said.now at)) ≤ 1114112 }
        ensures calls { result.calls ≡ self.calls + length (replies_of (said_at said.now at)) }
        ensures scans { result.scans ≡ false → (self.scans ≡ false) × IsOfCall (said_at said.now at) }
    {
        match said.scan_at(at) {
            Some((parts, _)) => Counted {
                calls: self.calls + parts.as_slice().len(),
                scans: true,
            },
            None => Counted {
                calls: self.calls + 1,
                scans: self.scans,
            },
        }
    }

    /// What is counted with the lines of a caller too.
    fn with_all(self, said: &Replies) -> Counted
        requires few { self.calls + length (replies_all said.now) ≤ 1114112 }
        ensures calls { result.calls ≡ self.calls + length (replies_all said.now) }
        ensures scans { result.scans ≡ false → (self.scans ≡ false) × ((at : ℕ) → IsOfCall (said_at said.now at)) }
    {
        let mut counted = self;
        for at in 0..said.len() {
            counted = counted.with(said, at);
        }
        counted
    }
}

/// What is counted of the callers' lines.
fn count(callers: &[Replies]) -> Counted
    requires { calls_in (lines_said callers.now) ≤ 1114112 }
    ensures calls { result.calls ≡ calls_in (lines_said callers.now) }
    ensures scans { result.scans ≡ false → NoScans callers.now }
{
    let mut counted = Counted {
        calls: 0,
        scans: false,
    };
    for said in callers {
        counted = counted.with_all(said);
    }
    counted
}

/// Whether the pairs are just the map, ascending by key. Each pair is taken out of the map.
fn is_listing<M: Store>(alloc: Global, map: M, pairs: &[(u64, u128)]) -> Result<bool, AllocError>
    ensures { IfOk result (λ is. IsTrue is ↔ IsListing (M.has map) pairs.now) }
{
    keys_can_be_places(pairs);
    let mut rest = map;
    let mut least: u128 = 0;
    for pair in pairs {
        if u128::from(pair.0) < least {
            return Ok(false);
        }
        if !takes(&mut rest, pair.0, pair.1) {
            return Ok(false);
        }
        least = u128::from(pair.0) + 1;
    }
    rest.has_nothing(alloc)
}

/// Takes out what is at the key, and returns whether it was the value.
fn takes<M: Store>(map: &mut M, key: u64, value: u128) -> bool
    ensures had { IsTrue result ↔ (M.has map.old key ≡ Some value) }
    ensures gone { (p : ℕ) → M.has map.new p ≡ map_with (M.has map.old) (removes key) p }
{
    map.remove(key) == Some(value)
}

/// Judges a printed run of a script: whether its replies are those of one map in the order of their numbers, and the
/// pairs that map at the end, and else which number is the least that is wrong. Each part of a scan is a call with a
/// number of its own.
pub fn judge(alloc: Global, script: &Script, printed: &Printed) -> Result<Judged, AllocError>
    requires answered { AreAnswered script.now printed.now.callers }
    requires few { calls_in (ops_in script.now printed.now.callers) ≤ 1114112 }
    ensures { IfOk result (λ judged. IsJudgedRun script.now printed.now judged) }
{
    judge_lists(alloc, &script.callers, &printed.callers, &printed.pairs)
}

// The same of the callers' lines, of what is said of them, and of the pairs of the map at the end. A map that lists
// spans is slower, so it is taken only if there are scans.
fn judge_lists(
    alloc: Global,
    callers: &[Calls],
    said: &[Replies],
    pairs: &[(u64, u128)],
) -> Result<Judged, AllocError>
    requires answered { AreAnswered callers.now said.now }
    requires few { calls_in (ops_in callers.now said.now) ≤ 1114112 }
    ensures { IfOk result
        (λ judged. IsJudged (ops_in callers.now said.now) (replies_in callers.now said.now) pairs.now judged) }
{
    let counted = count(said);
    if counted.scans {
        let map = Ordered::new(alloc);
        return judge_on(alloc, map, callers, said, pairs, counted.calls);
    }
    let map = Table::new(alloc, counted.calls.min(LOW_KEYS))?;
    judge_on(alloc, map, callers, said, pairs, counted.calls)
}

// The same on an empty map, where the number of calls is known.
fn judge_on<M: Store>(
    alloc: Global,
    map: M,
    callers: &[Calls],
    said: &[Replies],
    pairs: &[(u64, u128)],
    count: usize,
) -> Result<Judged, AllocError>
    requires answered { AreAnswered callers.now said.now }
    requires count { count ≡ calls_in (ops_in callers.now said.now) }
    requires lists { M.lists ≡ false → NoScans said.now }
    requires empty { (p : ℕ) → M.has map p ≡ None }
    ensures { IfOk result
        (λ judged. IsJudged (ops_in callers.now said.now) (replies_in callers.now said.now) pairs.now judged) }
{
    let slots = slots(alloc, said, count)?;
    let Replayed { right, map } = replay(alloc, map, callers, said, &slots)?;
    let number = right as u64;
    if right < count {
        return Ok(Judged::Wrong { number });
    }
    if !is_listing(alloc, map, pairs)? {
        return Ok(Judged::Wrong { number });
    }
    Ok(Judged::Legal { calls: number })
}

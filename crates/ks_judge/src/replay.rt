//! The calls of a run, made again in the order of their numbers on a map that begins empty.

ghost use Rattle.std.specs.Prelude.{ℕ, ◌≡◌, ◌<◌, ◌≤◌, ◌+◌, ◌^◌, ◌↔◌, false, length, slice_index_or, None, IsTrue, IfOk, IfSome, IfNone, OnOk};
ghost use Rattle.ks_history.specs.Write.{sets, map_with, written};
ghost use Rattle.ks_history.specs.Map.{told, IsAnswer, map_after};
ghost use Rattle.ks_lines.specs.Scan.{PartsAscend};
ghost use Rattle.ks_lines.specs.Lines.{AllBoth, AreAnswered, MayAnswer, part_calls, ops_in, replies_in};
ghost use Rattle.ks_script.specs.PackedReplies.{said_at};
ghost use Rattle.ks_script.specs.Plain.{IsPlain, IsOfCall};
ghost use Rattle.ks_judge.specs.Judgment.{carriers, calls_below, IsRight};
ghost use Rattle.ks_judge.specs.Flat.{NoScans};
ghost use Rattle.ks_judge.specs.Places.{IsPlaceIn, IsAnswered, HasMade, no_call, begin_at, call_in, next_place, place_after};
ghost use Rattle.ks_judge.specs.Slots.{Notes};

use crate::slots::{PackedSlot, Slot, told_by};
use crate::store::Store;
use ks_history::{Op, Reply, reply_of, reply_of_move};
use ks_lines::{Line, Part};
use ks_script::{Calls, Replies};
use std::alloc::{AllocError, Global};

/// How many numbers from 0 on are right, and, if all are, the map after their calls.
#[derive(Drop)]
pub struct Replayed<M: Store> {
    pub right: usize,
    pub map: M,
}

/// Where a caller's next call is: on which of its lines, and if that is a scan at which of its parts.
#[derive(Clone, Copy, Debug, PartialEq, Eq)]
pub struct Place {
    line: usize,
    part: usize,
}

/// Writes the value, and returns whether the reply says what was there.
#[inline(always)]
fn set<M: Store>(map: &mut M, key: u64, value: u128, reply: &Reply) -> Result<bool, AllocError>
    ensures answer { IfOk result (λ right. IsTrue right ↔ (reply.now ≡ told (M.has map.old key))) }
    ensures map { OnOk result
        ((p : ℕ) → M.has map.new p ≡ map_with (M.has map.old) (sets key value) p) }
{
    let was = map.insert(key, value)?;
    Ok(*reply == reply_of(was))
}

/// Makes the call with this plain reply on the map, and returns whether the reply is the map's answer.
fn make<M: Store>(map: &mut M, op: Op, reply: &Reply) -> Result<bool, AllocError>
    requires { IsPlain reply.now }
    ensures answer { IfOk result (λ right. IsTrue right ↔ IsAnswer (M.has map.old) op reply.now) }
    ensures map { OnOk result
        ((p : ℕ) → M.has map.new p ≡ map_with (M.has map.old) (written op reply.now) p) }
{
    match op {
        Op::Get(key) => Ok(*reply == reply_of(map.get(key))),
        Op::Put(key, value) => match reply {
            Reply::Full => Ok(true),
            _ => set(map, key, value, reply),
        },
        Op::Del(key) => {
            let was = map.remove(key);
            Ok(*reply == reply_of(was))
        }
        Op::Add(key, value) => match reply {
            Reply::Full => Ok(true),
            Reply::Nothing => set(map, key, value, reply),
            Reply::Value(_) | Reply::Listed(_) | Reply::Kept => Ok(
                *reply == reply_of(map.get(key)),
            ),
        },
        Op::Swap(key, old, new) => match reply {
            Reply::Value(found) if *found == old => set(map, key, new, reply),
            _ => Ok(*reply == reply_of(map.get(key))),
        },
        // No plain reply lists pairs.
        Op::Part(..) => Ok(false),
        Op::Move(from, to) => {
            let due = reply_of_move(map.get(from), map.get(to));
            match reply {
                Reply::Full => Ok(true),
                Reply::Value(value) => {
                    map.remove(from);
                    map.insert(to, *value)?;
                    Ok(*reply == due)
                }
                Reply::Nothing | Reply::Listed(_) | Reply::Kept => Ok(*reply == due),
            }
        }
    }
}

/// The first key of a part of a scan: that of the scan, or the one after the last key of the part before it.
fn begin_of(first: u64, parts: &[Part], at: usize) -> u64
    requires within { at < length parts.now }
    requires ascend { (last : ℕ) × PartsAscend first last parts.now }
    ensures { result ≡ begin_at first parts.now at }
{
    if at == 0 {
        return first;
    }
    // It ends at a number of 64 bits, and the part before it ends below that.
    let _last = parts[at].last;
    parts[at - 1].last + 1
}

/// Compares the part of a scan at a place with the map, if it has the number; and returns the place after it, if it
/// lists what the map has.
fn after_part<M: Store>(
    map: &M,
    first: u64,
    parts: &[Part],
    at: Place,
    number: usize,
) -> Option<Place>
    requires lists { IsTrue M.lists }
    requires ascend { (last : ℕ) × PartsAscend first last parts.now }
    requires within { at.part < length parts.now }
    requires few { at.line + 1 < 2 ^ 64 }
    ensures next { IfSome result (λ next. next ≡ next_place at (length parts.now)) }
    ensures right { IfSome result
        (λ _. IsAnswered (M.has map.now) number (slice_index_or (part_calls first parts.now) at.part no_call)) }
    ensures wrong { IfNone result
        (¬ IsAnswered (M.has map.now) number (slice_index_or (part_calls first parts.now) at.part no_call)) }
{
    let part = &parts[at.part];
    if part.number != number as u64 {
        return None;
    }
    let low = begin_of(first, parts, at.part);
    if !map.lists_span(low, part.last, &part.pairs) {
        return None;
    }
    if at.part + 1 < parts.len() {
        return Some(Place {
            line: at.line,
            part: at.part + 1,
        });
    }
    Some(Place {
        line: at.line + 1,
        part: 0,
    })
}

/// Makes the call at a place that is of no scan, if it has the number; and returns the place after it, if its reply is
/// the answer of the map.
#[inline(always)]
fn after_call<M: Store>(
    map: &mut M,
    lines: &Calls,
    said: &Replies,
    at: Place,
    number: usize,
) -> Result<Option<Place>, AllocError>
    requires answered { AllBoth MayAnswer lines.now said.now }
    requires place { IsPlaceIn lines.now said.now at }
    requires call { IsOfCall (said_at said.now at.line) }
    ensures next { IfOk result (λ o. IfSome o (λ next. next ≡ place_after lines.now said.now at)) }
    ensures right { IfOk result
        (λ o. IfSome o (λ _. IsAnswered (M.has map.old) number (call_in lines.now said.now at))) }
    ensures map { IfOk result (λ o. IfSome o (λ _. HasMade (M.has map.old) (call_in lines.now said.now at).call (M.has map.new))) }
    ensures wrong { IfOk result
        (λ o. IfNone o (¬ IsAnswered (M.has map.old) number (call_in lines.now said.now at))) }
{
    let (carried, reply) = said.call_at(at.line);
    if carried != number as u64 {
        return Ok(None);
    }
    let Line::Call(op) = lines.get(at.line) else {
        return Ok(None);
    };
    if !make(map, op, &reply)? {
        return Ok(None);
    }
    Ok(Some(Place {
        line: at.line + 1,
        part: 0,
    }))
}

/// As many lines as a number of 64 bits says, at most. It computes nothing.
fn are_few(said: &Replies)
    ensures { length said.now < 2 ^ 64 }
{
    let _count = said.len();
}

/// Makes the call at a place of a caller's lines, if it has the number; and returns the place after it, if its reply
/// is the answer of the map.
#[inline(always)]
fn after<M: Store>(
    map: &mut M,
    lines: &Calls,
    said: &Replies,
    at: Place,
    number: usize,
) -> Result<Option<Place>, AllocError>
    requires answered { AllBoth MayAnswer lines.now said.now }
    requires place { IsPlaceIn lines.now said.now at }
    requires lists { M.lists ≡ false → IsOfCall (said_at said.now at.line) }
    ensures next { IfOk result (λ o. IfSome o (λ next. next ≡ place_after lines.now said.now at)) }
    ensures right { IfOk result
        (λ o. IfSome o (λ _. IsAnswered (M.has map.old) number (call_in lines.now said.now at))) }
    ensures map { IfOk result (λ o. IfSome o (λ _. HasMade (M.has map.old) (call_in lines.now said.now at).call (M.has map.new))) }
    ensures wrong { IfOk result
        (λ o. IfNone o (¬ IsAnswered (M.has map.old) number (call_in lines.now said.now at))) }
{
    let Some((parts, _)) = said.scan_at(at.line) else {
        return after_call(map, lines, said, at, number);
    };
    let Line::Scan(first, ..) = lines.get(at.line) else {
        return Ok(None);
    };
    are_few(said);
    Ok(after_part(map, first, parts.as_slice(), at, number))
}

/// Makes the calls in the order of their numbers on an empty map, up to the first number that is wrong. As long as all
/// are right, the callers' calls are read in turn: the one that carries a number is the next of its caller, or not in
/// order.
pub fn replay<M: Store>(
    alloc: Global,
    map: M,
    callers: &[Calls],
    said: &[Replies],
    slots: &[PackedSlot],
) -> Result<Replayed<M>, AllocError>
    requires answered { AreAnswered callers.now said.now }
    requires lists { M.lists ≡ false → NoScans said.now }
    requires empty { (p : ℕ) → M.has map p ≡ None }
    requires noted { Notes (replies_in callers.now said.now) slots.now (carriers (replies_in callers.now said.now)) }
    ensures right { IfOk result (λ r. (n : ℕ) → n < r.right →
        IsRight (ops_in callers.now said.now) (replies_in callers.now said.now) n) }
    ensures within { IfOk result (λ r. r.right ≤ length slots.now) }
    ensures stop { IfOk result (λ r. r.right < length slots.now →
        ¬ IsRight (ops_in callers.now said.now) (replies_in callers.now said.now) r.right) }
    ensures map { IfOk result (λ r. r.right ≡ length slots.now → (p : ℕ) → M.has r.map p
        ≡ map_after (calls_below (ops_in callers.now said.now) (replies_in callers.now said.now) r.right) p) }
{
    let mut map = map;
    // For each caller the place of its next call.
    let mut places = vec![in alloc; Place { line: 0, part: 0 }; callers.len()]?;
    for (number, slot) in slots.iter().enumerate() {
        match told_by(*slot) {
            Slot::One { caller } => {
                let caller = caller as usize;
                let at: Place = places[caller];
                match after(&mut map, &callers[caller], &said[caller], at, number)? {
                    Some(next) => places[caller] = next,
                    None => return Ok(Replayed { right: number, map }),
                }
            }
            _ => return Ok(Replayed { right: number, map }),
        }
    }
    Ok(Replayed {
        right: slots.len(),
        map,
    })
}

//! A printed run of a script, read off the front of a text.

ghost use Rattle.std.specs.Prelude.{ℕ, ◌≡◌, ◌≤◌, ◌<◌, ◌+◌, ◌^◌, length, map, IfOk, Err};
ghost use Rattle.ks_script.specs.Words.{flat_map, AllByRecursion, AllBoth, lines_of, said_lines, callers_from, pair_line, AscendFrom, NoneFirst, Reads, RefusedBehind, CanBeSaidOf, IsSaidOf, BeginsSaid, SpellsRun, AreRun, BeginsReplies, IsPairFrom, next_key};

use crate::fault::RunFault;
use crate::lines::{numbered_line, pair, reply, word_line};
use crate::scan_lines::scan_said;
use crate::{Calls, Printed, Replies};
use ks_lines::{Line, Said};
use std::alloc::{AllocError, Global};

// What is said of the line at the front, the bytes after it, and how many lines it takes; or the first line with which
// nothing goes on that may be said of it. `before` lines are before the first.
#[inline(always)]
fn said<'a>(
    alloc: Global,
    line: Line,
    bytes: &'a [u8],
    before: u64,
) -> Result<(Said, &'a [u8], u64), RunFault>
    requires line { CanBeSaidOf line }
    requires few { before + length bytes.now + 1 < 2 ^ 64 }
    ensures said { IfOk result (λ x. IsSaidOf line x.0) }
    ensures reads { IfOk result (λ x. Reads (said_lines x.0) bytes.now x.1.now x.2) }
    ensures shorter { IfOk result (λ x. length x.1.now + x.2 ≤ length bytes.now) }
    ensures refused { (n : ℕ) → result ≡ Err (RunFault.Refused n) →
        RefusedBehind before (BeginsSaid line) (lines_of bytes.now) n }
{
    match line {
        Line::Call(op) => match reply(op, bytes) {
            Some((told, rest)) => Ok((Said::Call(told.0, told.1), rest, 1)),
            None => Err(RunFault::Refused { line: before + 1 }),
        },
        Line::Scan(low, last, most) => scan_said(alloc, low, last, most, bytes, before),
    }
}

// What is said to a caller of its lines at the front, the bytes after it, and how many lines it takes. `before` lines are
// before the first.
fn replies<'a>(
    alloc: Global,
    lines: &Calls,
    bytes: &'a [u8],
    before: u64,
) -> Result<(Replies, &'a [u8], u64), RunFault>
    requires lines { AllByRecursion CanBeSaidOf lines.now }
    requires few { before + length bytes.now + 1 < 2 ^ 64 }
    ensures fit { IfOk result (λ x. AllBoth IsSaidOf lines.now x.0) }
    ensures reads { IfOk result (λ x. Reads (flat_map said_lines x.0) bytes.now x.1.now x.2) }
    ensures shorter { IfOk result (λ x. length x.1.now + x.2 ≤ length bytes.now) }
    ensures refused { (n : ℕ) → result ≡ Err (RunFault.Refused n) →
        RefusedBehind before (BeginsReplies lines.now) (lines_of bytes.now) n }
{
    let mut replies = Replies::with_capacity(alloc, lines.len())?;
    let mut count = 0;
    let mut rest = bytes;
    'replies: for at in 0..lines.len() {
        let (said, more, read) = said(alloc, lines.get(at), rest, before + count)?;
        replies.push(said)?;
        count += read;
        rest = more;
    }
    Ok((replies, rest, count))
}

// What is said to the callers of the script, the bytes after it, and how many lines it takes. `before` lines are before
// the first.
fn answers<'a>(
    alloc: Global,
    script: &[Calls],
    bytes: &'a [u8],
    before: u64,
) -> Result<(Vec<Replies>, &'a [u8], u64), RunFault>
    requires script { AllByRecursion (AllByRecursion CanBeSaidOf) script.now }
    requires few { before + length bytes.now + 1 < 2 ^ 64 }
    ensures fit { IfOk result (λ x. AllBoth (AllBoth IsSaidOf) script.now x.0.items) }
    ensures reads { IfOk result (λ x. Reads (callers_from 0 x.0.items) bytes.now x.1.now x.2) }
    ensures shorter { IfOk result (λ x. length x.1.now + x.2 ≤ length bytes.now) }
    ensures refused { (n : ℕ) → result ≡ Err (RunFault.Refused n) →
        RefusedBehind before (AreRun script.now) (lines_of bytes.now) n }
{
    let mut callers = Vec::new(alloc);
    let mut count = 0;
    let mut rest = bytes;
    'callers: for (number, lines) in script.iter().enumerate() {
        let line = before + (count + 1);
        let Some(more) = numbered_line(rest, b"caller ", number as u64) else {
            return Err(RunFault::Refused { line });
        };
        let (said, left, read) = replies(alloc, lines, more, line)?;
        callers.push(said)?;
        count = count + 1 + read;
        rest = left;
    }
    Ok((callers, rest, count))
}

// The pairs at the front, as long as each key is greater than the one before, and the bytes after them.
fn pairs(alloc: Global, bytes: &[u8]) -> Result<(Vec<(u64, u128)>, &[u8]), AllocError>
    ensures ascend { IfOk result (λ x. AscendFrom 0 x.0.items) }
    ensures reads { IfOk result (λ x. Reads (map pair_line x.0.items) bytes.now x.1.now (length x.0.items)) }
    ensures stops { IfOk result
        (λ x. NoneFirst (IsPairFrom (next_key 0 x.0.items)) pair_line (lines_of x.1.now)) }
    ensures shorter { IfOk result (λ x. length x.1.now + length x.0.items ≤ length bytes.now) }
{
    let mut pairs = Vec::new(alloc);
    let mut least: u128 = 0;
    let mut rest = bytes;
    'pairs: loop {
        let Some(((key, value), more)) = pair(rest) else {
            return Ok((pairs, rest));
        };
        if (key as u128) < least {
            return Ok((pairs, rest));
        }
        pairs.push((key, value))?;
        least = key as u128 + 1;
        rest = more;
    }
}

/// The run of the script that the bytes are the text of, or the first line that does not fit. `before` lines are before
/// the first.
pub fn run(alloc: Global, script: &[Calls], bytes: &[u8], before: u64) -> Result<Printed, RunFault>
    requires script { AllByRecursion (AllByRecursion CanBeSaidOf) script.now }
    requires few { before + length bytes.now + 1 < 2 ^ 64 }
    ensures run { IfOk result (λ run. SpellsRun script.now run (lines_of bytes.now)) }
    ensures refused { (n : ℕ) → result ≡ Err (RunFault.Refused n) →
        RefusedBehind before (AreRun script.now) (lines_of bytes.now) n }
{
    let (callers, rest, count) = answers(alloc, script, bytes, before)?;
    let line = before + (count + 1);
    let Some(text) = word_line(rest, b"map") else {
        return Err(RunFault::Refused { line });
    };
    let (pairs, left) = pairs(alloc, text)?;
    let line = line + pairs.len() as u64 + 1;
    let Some(end) = word_line(left, b"end") else {
        return Err(RunFault::Refused { line });
    };
    if !end.is_empty() {
        return Err(RunFault::Refused { line: line + 1 });
    }
    Ok(Printed { callers, pairs })
}

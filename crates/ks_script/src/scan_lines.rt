//! What is said of a scan, read off the front of a text: its parts, and where it stopped.

ghost use Rattle.std.specs.Prelude.{ℕ, ◌≡◌, ◌≢◌, ◌≤◌, ◌<◌, ◌+◌, ◌^◌, List, ◌∷◌, ◌++◌, length, codes, IfOk, IfSome, IfNone, Err};
ghost use Rattle.ks_script.specs.Words.{AllByRecursion, Pair, Part, Scan, lines_of, NoDigit, Lined, NotLined, pair_line, pair_words, part_line, said_lines, IsPair, IsPart, NoneFirst, Reads, RefusedBehind, CanBeSaidOf, IsSaidOf, IsPartFrom, BeginsSaid};

use crate::fault::RunFault;
use crate::lexer::{line_end, number, spaced, word};
use crate::lines::{numbered_line, word_line};
use ks_keysets::{Few, Pair};
use ks_lines::{Part, Parts, Said, Scanned};
use std::alloc::Global;

// A key and a value, each behind a space.
#[inline(always)]
fn spaced_pair(bytes: &[u8]) -> Option<(Pair, &[u8])>
    ensures some { IfSome result (λ x. bytes.now ≡ codes " " ++ (pair_line (x.0.place, x.0.value) ++ x.1.now)) }
    ensures fits { IfSome result (λ x. IsPair x.0 × NoDigit x.1.now) }
    ensures none { IfNone result ((pair : Pair) (rest : List ℕ) → IsPair pair → NoDigit rest →
        bytes.now ≢ codes " " ++ (pair_line (pair.place, pair.value) ++ rest)) }
{
    let (place, rest) = number(word(bytes, b" ")?)?;
    let (value, rest) = spaced(rest)?;
    Some((Pair { place, value }, rest))
}

// The pairs up to the end of the line, of which there are at most 16.
fn few(bytes: &[u8]) -> Option<(Few, &[u8])>
    requires { NoDigit bytes.now }
    ensures some { IfSome result (λ x. Lined (pair_words x.0) bytes.now x.1.now) }
    ensures fits { IfSome result (λ x. (length x.0 ≤ 16) × AllByRecursion IsPair x.0) }
    ensures none { IfNone result ((pairs : List Pair) → length pairs ≤ 16 → AllByRecursion IsPair pairs →
        NotLined (pair_words pairs) bytes.now) }
{
    let mut pairs = Few::new();
    let mut rest = bytes;
    'pairs: while pairs.len() < 16 {
        let Some((pair, more)) = spaced_pair(rest) else {
            return Some((pairs, line_end(rest)?));
        };
        pairs.push(pair);
        rest = more;
    }
    Some((pairs, line_end(rest)?))
}

// A part.
fn listed(bytes: &[u8]) -> Option<(Part, &[u8])>
    ensures some { IfSome result (λ x. IsPart x.0 × Lined (part_line x.0) bytes.now x.1.now) }
    ensures none { IfNone result ((part : Part) → IsPart part → NotLined (part_line part) bytes.now) }
{
    let (first, rest) = number(bytes)?;
    let (last, rest) = number(word(rest, b" ")?)?;
    let (pairs, rest) = few(rest)?;
    Some((
        Part {
            number: first,
            last,
            pairs,
        },
        rest,
    ))
}

// The part on the first line that ends from one key to the other, and the bytes after the line.
fn part(next: u64, last: u64, bytes: &[u8]) -> Option<(Part, &[u8])>
    ensures some { IfSome result
        (λ x. IsPartFrom next last x.0 × (lines_of bytes.now ≡ part_line x.0 ∷ lines_of x.1.now)) }
    ensures none { IfNone result (NoneFirst (IsPartFrom next last) part_line (lines_of bytes.now)) }
    ensures shorter { IfSome result (λ x. length x.1.now < length bytes.now) }
{
    let (part, rest) = listed(bytes)?;
    if part.last < next || part.last > last {
        return None;
    }
    Some((part, rest))
}

/// What is said of the scan at the front, the bytes after it, and how many lines it takes; or the first line with which
/// nothing goes on that may be said of it. `before` lines are before the first.
pub fn scan_said<'a>(
    alloc: Global,
    low: u64,
    last: u64,
    most: u32,
    bytes: &'a [u8],
    before: u64,
) -> Result<(Said, &'a [u8], u64), RunFault>
    requires scan { CanBeSaidOf (Scan low last most) }
    requires few { before + length bytes.now + 1 < 2 ^ 64 }
    ensures said { IfOk result (λ x. IsSaidOf (Scan low last most) x.0) }
    ensures reads { IfOk result (λ x. Reads (said_lines x.0) bytes.now x.1.now x.2) }
    ensures shorter { IfOk result (λ x. length x.1.now + x.2 ≤ length bytes.now) }
    ensures refused { (n : ℕ) → result ≡ Err (RunFault.Refused n) →
        RefusedBehind before (BeginsSaid (Scan low last most)) (lines_of bytes.now) n }
{
    let mut parts = Vec::new(alloc);
    let mut next = low;
    let mut rest = bytes;
    'parts: while parts.len() < most as usize {
        let Some((part, more)) = part(next, last, rest) else {
            let line = before + parts.len() as u64 + 1;
            return Err(RunFault::Refused { line });
        };
        let end = part.last;
        parts.push(part)?;
        if end == last {
            let count = parts.len() as u64 + 1;
            let Some(left) = word_line(more, b"whole") else {
                return Err(RunFault::Refused {
                    line: before + count,
                });
            };
            return Ok((Said::Scan(Parts::of(parts), Scanned::Whole), left, count));
        }
        rest = more;
        next = end + 1;
    }
    let count = parts.len() as u64 + 1;
    let Some(left) = numbered_line(rest, b"until ", next) else {
        return Err(RunFault::Refused {
            line: before + count,
        });
    };
    let stop = Scanned::Until { next };
    Ok((Said::Scan(Parts::of(parts), stop), left, count))
}

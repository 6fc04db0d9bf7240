//! The lines of a text, each read off its front: what the first one spells, or that it spells no such thing.

ghost use Rattle.std.specs.Prelude.{◌≢◌, ℕ, ◌≡◌, ◌≤◌, ◌<◌, ◌^◌, ◌∷◌, ◌++◌, List, length, codes, IfSome, IfNone, IsTrue, ◌↔◌};
ghost use Rattle.ks_script.specs.Words.{decimal, lines_of, Lacks, Lined, NotLined, NotFirst, NoneFirst, Line, line_text, HasLine, IsLineWithin, Reply, Value, NoDigit, reply_word, reply_line, pair_line, IsReplyTo, IsReply, IsAnswered, IsReplyOf, IsPairFrom};

use crate::ending::Ending;
use crate::lexer::{line_end, number, spaced, value, word};
use crate::version::Version;
use ks_history::{Op, Reply};
use ks_lines::Line;

// A key and a value.
#[inline(always)]
fn entry(bytes: &[u8]) -> Option<((u64, u128), &[u8])>
    ensures some { IfSome result (λ x. (bytes.now ≡ pair_line x.0 ++ x.1.now) × NoDigit x.1.now) }
    ensures fits { IfSome result (λ x. (x.0.0 < 2 ^ 64) × (x.0.1 < 2 ^ 128)) }
    ensures none { IfNone result ((k v : ℕ) (rest : List ℕ) → k < 2 ^ 64 → v < 2 ^ 128 → NoDigit rest →
        bytes.now ≢ pair_line (k, v) ++ rest) }
{
    let (key, rest) = number(bytes)?;
    let (value, rest) = spaced(rest)?;
    Some(((key, value), rest))
}

// A key and two values.
fn exchange(bytes: &[u8]) -> Option<(u64, u128, u128, &[u8])>
    ensures some { IfSome result (λ x. (bytes.now ≡
        (decimal x.0 ++ codes " " ++ decimal x.1 ++ codes " " ++ decimal x.2) ++ x.3.now) × NoDigit x.3.now) }
    ensures fits { IfSome result (λ x. (x.0 < 2 ^ 64) × (x.1 < 2 ^ 128) × (x.2 < 2 ^ 128)) }
    ensures none { IfNone result ((k v w : ℕ) (rest : List ℕ) → k < 2 ^ 64 → v < 2 ^ 128 → w < 2 ^ 128 → NoDigit rest →
        bytes.now ≢ (decimal k ++ codes " " ++ decimal v ++ codes " " ++ decimal w) ++ rest) }
{
    let ((key, old), rest) = entry(bytes)?;
    let (new, rest) = spaced(rest)?;
    Some((key, old, new, rest))
}

/// A line of any version, except its end.
#[inline(always)]
pub fn any_line(bytes: &[u8]) -> Option<(Line, &[u8])>
    ensures some { IfSome result
        (λ x. HasLine x.0 × (bytes.now ≡ line_text x.0 ++ x.1.now) × NoDigit x.1.now) }
    ensures none { IfNone result ((line : Line) (rest : List ℕ) → HasLine line → NoDigit rest →
        bytes.now ≢ line_text line ++ rest) }
{
    if let Some(rest) = word(bytes, b"put ") {
        let ((key, value), rest) = entry(rest)?;
        return Some((Line::Call(Op::Put(key, value)), rest));
    }
    if let Some(rest) = word(bytes, b"get ") {
        let (key, rest) = number(rest)?;
        return Some((Line::Call(Op::Get(key)), rest));
    }
    if let Some(rest) = word(bytes, b"del ") {
        let (key, rest) = number(rest)?;
        return Some((Line::Call(Op::Del(key)), rest));
    }
    if let Some(rest) = word(bytes, b"add ") {
        let ((key, value), rest) = entry(rest)?;
        return Some((Line::Call(Op::Add(key, value)), rest));
    }
    if let Some(rest) = word(bytes, b"swap ") {
        let (key, old, new, rest) = exchange(rest)?;
        return Some((Line::Call(Op::Swap(key, old, new)), rest));
    }
    if let Some(rest) = word(bytes, b"move ") {
        let ((from, to), rest) = entry(rest)?;
        if to > u64::MAX as u128 {
            return None;
        }
        return Some((Line::Call(Op::Move(from, to as u64)), rest));
    }
    let (low, last, most, rest) = exchange(word(bytes, b"scan ")?)?;
    if last > u64::MAX as u128 || most > u32::MAX as u128 {
        return None;
    }
    Some((Line::Scan(low, last as u64, most as u32), rest))
}

// Whether a script of the version may have the line, where this number of parts is left.
#[inline(always)]
fn may_ask(version: Version, parts: u32, line: Line) -> bool
    requires { HasLine line }
    ensures { IsTrue result ↔ IsLineWithin version parts line }
{
    match line {
        Line::Call(Op::Get(_) | Op::Del(_)) => true,
        Line::Call(Op::Put(_, value)) => version != Version::First || value <= u64::MAX as u128,
        Line::Call(Op::Add(..) | Op::Swap(..)) => version != Version::First,
        Line::Call(Op::Part(..)) => false,
        Line::Call(Op::Move(from, to)) => matches!(version, Version::Fourth) && from != to,
        Line::Scan(low, last, most) => {
            let scans = matches!(version, Version::Third | Version::Fourth);
            scans && low <= last && 1 <= most && most <= 64 && most <= parts
        }
    }
}

/// The line of the version, of at most this number of parts, that is the first of the text, and the bytes after it.
#[inline(always)]
pub fn first_line(version: Version, parts: u32, bytes: &[u8]) -> Option<(Line, &[u8])>
    ensures some { IfSome result (λ x. IsLineWithin version parts x.0 ×
        (lines_of bytes.now ≡ line_text x.0 ∷ lines_of x.1.now)) }
    ensures none { IfNone result (NoneFirst (IsLineWithin version parts) line_text (lines_of bytes.now)) }
    ensures shorter { IfSome result (λ x. length x.1.now < length bytes.now) }
{
    let (line, rest) = any_line(bytes)?;
    let rest = line_end(rest)?;
    if !may_ask(version, parts, line) {
        return None;
    }
    Some((line, rest))
}

// The word of a reply.
#[inline(always)]
fn told(bytes: &[u8]) -> Option<(Reply, &[u8])>
    ensures some { IfSome result (λ x. IsReply x.0 × (bytes.now ≡ reply_word x.0 ++ x.1.now)) }
    ensures ends { IfSome result (λ x. (v : ℕ) → x.0 ≡ Value v → NoDigit x.1.now) }
    ensures none { IfNone result ((reply : Reply) (rest : List ℕ) → IsReply reply → NoDigit rest →
        bytes.now ≢ reply_word reply ++ rest) }
{
    if let Some(rest) = word(bytes, b"none") {
        return Some((Reply::Nothing, rest));
    }
    if let Some(rest) = word(bytes, b"full") {
        return Some((Reply::Full, rest));
    }
    if let Some((value, rest)) = value(bytes) {
        return Some((Reply::Value(value), rest));
    }
    Some((Reply::Kept, word(bytes, b"kept")?))
}

// A number and a reply.
#[inline(always)]
fn replied(bytes: &[u8]) -> Option<((u64, Reply), &[u8])>
    ensures some { IfSome result (λ x. IsAnswered x.0 × Lined (reply_line x.0) bytes.now x.1.now) }
    ensures none { IfNone result ((x : ℕ × Reply) → IsAnswered x → NotLined (reply_line x) bytes.now) }
{
    let (number, rest) = number(bytes)?;
    let (reply, rest) = told(word(rest, b" ")?)?;
    Some(((number, reply), line_end(rest)?))
}

// Whether the reply, as it was read, may be that to the operation: only a move has the reply `kept`.
#[inline(always)]
fn is_reply_to(op: Op, reply: &Reply) -> bool
    requires { IsReply reply.now }
    ensures { IsTrue result ↔ IsReplyTo op reply.now }
{
    match reply {
        Reply::Kept => matches!(op, Op::Move(..)),
        Reply::Nothing | Reply::Value(_) | Reply::Full => true,
        Reply::Listed(_) => unreachable!(),
    }
}

/// The number and the reply to the operation on the first line, and the bytes after the line.
#[inline(always)]
pub fn reply(op: Op, bytes: &[u8]) -> Option<((u64, Reply), &[u8])>
    ensures some { IfSome result
        (λ x. IsReplyOf op x.0 × (lines_of bytes.now ≡ reply_line x.0 ∷ lines_of x.1.now)) }
    ensures none { IfNone result (NoneFirst (IsReplyOf op) reply_line (lines_of bytes.now)) }
    ensures shorter { IfSome result (λ x. length x.1.now < length bytes.now) }
{
    let (reply, rest) = replied(bytes)?;
    if !is_reply_to(op, &reply.1) {
        return None;
    }
    Some((reply, rest))
}

/// The key and the value on the first line, and the bytes after the line.
#[inline(always)]
pub fn pair(bytes: &[u8]) -> Option<((u64, u128), &[u8])>
    ensures some { IfSome result (λ x. IsPairFrom 0 x.0 × (lines_of bytes.now ≡ pair_line x.0 ∷ lines_of x.1.now)) }
    ensures none { IfNone result (NoneFirst (IsPairFrom 0) pair_line (lines_of bytes.now)) }
    ensures shorter { IfSome result (λ x. length x.1.now < length bytes.now) }
{
    let (pair, rest) = entry(bytes)?;
    Some((pair, line_end(rest)?))
}

/// What follows the line, if the text begins with it.
pub fn word_line<'a>(bytes: &'a [u8], line: &[u8]) -> Option<&'a [u8]>
    requires plain { Lacks 10 line.now }
    requires some { 0 < length line.now }
    ensures some { IfSome result (λ rest. lines_of bytes.now ≡ line.now ∷ lines_of rest.now) }
    ensures none { IfNone result (NotFirst line.now (lines_of bytes.now)) }
    ensures shorter { IfSome result (λ rest. length rest.now < length bytes.now) }
{
    let tail = word(bytes, line)?;
    let rest = line_end(tail)?;
    Some(rest)
}

/// What follows the line that has this front, of 44 bytes at most, and then the number.
pub fn numbered_line<'a>(bytes: &'a [u8], front: &[u8], of: u64) -> Option<&'a [u8]>
    requires plain { Lacks 10 front.now }
    requires some { 0 < length front.now }
    requires few { length front.now ≤ 44 }
    ensures some { IfSome result
        (λ rest. lines_of bytes.now ≡ (front.now ++ decimal of) ∷ lines_of rest.now) }
    ensures none { IfNone result (NotFirst (front.now ++ decimal of) (lines_of bytes.now)) }
    ensures shorter { IfSome result (λ rest. length rest.now < length bytes.now) }
{
    let mut line = Ending::new();
    line.number(of);
    line.word(front);
    word_line(bytes, line.bytes())
}

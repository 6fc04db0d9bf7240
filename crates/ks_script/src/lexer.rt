//! What bytes begin with, exactly: the number, or that they begin with none.

ghost use Rattle.std.specs.Prelude.{◌≢◌, ℕ, ◌≡◌, ◌≤◌, ◌<◌, ◌^◌, List, ◌++◌, drop, codes, IfSome, IfNone};
ghost use Rattle.ks_script.specs.Words.{decimal, NoDigit, EndsLine};

use crate::numeral::{power, sixteen, spells};

/// The number below 2^128 that the bytes begin with, and the bytes after it.
#[inline(always)]
pub fn value(bytes: &[u8]) -> Option<(u128, &[u8])>
    ensures some { IfSome result (λ x. (bytes.now ≡ decimal x.0 ++ x.1.now) × NoDigit x.1.now) }
    ensures fits { IfSome result (λ x. x.0 < 2 ^ 128) }
    ensures none { IfNone result ((n : ℕ) (rest : List ℕ) → n < 2 ^ 128 → NoDigit rest → bytes.now ≢ decimal n ++ rest) }
{
    let (front, mut count) = sixteen(bytes);
    if !spells(bytes, count) {
        return None;
    }
    let mut number = u128::from(front);
    let mut rest = bytes.split_at(count).1;
    while count == 16 {
        let (back, more) = sixteen(rest);
        number = number
            .checked_mul(u128::from(power(more)))?
            .checked_add(u128::from(back))?;
        rest = rest.split_at(more).1;
        count = more;
    }
    Some((number, rest))
}

/// The number below 2^64 that the bytes begin with, and the bytes after it.
#[inline(always)]
pub fn number(bytes: &[u8]) -> Option<(u64, &[u8])>
    ensures some { IfSome result (λ x. (bytes.now ≡ decimal x.0 ++ x.1.now) × NoDigit x.1.now) }
    ensures fits { IfSome result (λ x. x.0 < 2 ^ 64) }
    ensures none { IfNone result ((n : ℕ) (rest : List ℕ) → n < 2 ^ 64 → NoDigit rest → bytes.now ≢ decimal n ++ rest) }
{
    let (value, rest) = value(bytes)?;
    if value >= 18446744073709551616 {
        return None;
    }
    Some((value as u64, rest))
}

/// What follows the word.
#[inline(always)]
pub fn word<'a>(bytes: &'a [u8], word: &[u8]) -> Option<&'a [u8]>
    ensures some { IfSome result (λ rest. bytes.now ≡ word.now ++ rest.now) }
    ensures none { IfNone result ((rest : List ℕ) → bytes.now ≢ word.now ++ rest) }
{
    bytes.strip_prefix(word)
}

/// What follows the end of a line: a byte 10, or the end of the text.
#[inline(always)]
pub fn line_end(bytes: &[u8]) -> Option<&[u8]>
    ensures some { IfSome result (λ rest. EndsLine bytes.now × (rest.now ≡ drop 1 bytes.now)) }
    ensures none { IfNone result (EndsLine bytes.now → ⊥) }
{
    if bytes.is_empty() {
        return Some(bytes);
    }
    if bytes[0] != b'\n' {
        return None;
    }
    Some(bytes.split_at(1).1)
}

/// The value behind a space, and the bytes after it.
#[inline(always)]
pub fn spaced(bytes: &[u8]) -> Option<(u128, &[u8])>
    ensures some { IfSome result (λ x. (bytes.now ≡ codes " " ++ (decimal x.0 ++ x.1.now)) × NoDigit x.1.now) }
    ensures fits { IfSome result (λ x. x.0 < 2 ^ 128) }
    ensures none { IfNone result ((n : ℕ) (rest : List ℕ) → n < 2 ^ 128 → NoDigit rest →
        bytes.now ≢ codes " " ++ (decimal n ++ rest)) }
{
    let (number, rest) = value(word(bytes, b" ")?)?;
    Some((number, rest))
}

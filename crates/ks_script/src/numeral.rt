//! Numbers that bytes begin with.

ghost use Rattle.std.specs.Prelude.{ℕ, ◌≡◌, ◌≤◌, ◌<◌, ◌^◌, ◌⊎◌, true, false, length, slice_index};
ghost use Rattle.ks_script.specs.Words.{Sixteen};

use crate::eight::{digits_in, eight};

// The powers of ten up to the eighth.
const POWERS: [u64; 9] = [
    1, 10, 100, 1000, 10000, 100000, 1000000, 10000000, 100000000,
];

// The power of ten, as a product of two of them.
#[inline(always)]
pub(crate) fn power(of: usize) -> u64
    requires { of ≤ 16 }
    ensures { result ≡ 10 ^ of }
{
    POWERS[of / 2] * POWERS[of - of / 2]
}

// The number that the digits spell with which fewer than sixteen bytes begin, and how many they are.
#[cold]
#[inline(never)]
fn one_by_one(bytes: &[u8]) -> (u64, usize)
    requires { length bytes.now < 16 }
    ensures { Sixteen bytes.now result.0 result.1 }
{
    let mut number = 0;
    let mut count = 0;
    'digits: while count < bytes.len() {
        let byte = bytes[count];
        if !byte.is_ascii_digit() {
            return (number, count);
        }
        number = number * 10 + u64::from(byte - b'0');
        count += 1;
    }
    (number, count)
}

// The number that the digits spell with which the bytes begin, and how many they are; of more than sixteen the first
// ones.
#[inline(always)]
pub(crate) fn sixteen(bytes: &[u8]) -> (u64, usize)
    ensures { Sixteen bytes.now result.0 result.1 }
{
    if bytes.len() < 16 {
        return one_by_one(bytes);
    }
    let count = digits_in(bytes);
    if count == 0 {
        return (0, 0);
    }
    if count <= 8 {
        return (eight(bytes, count), count);
    }
    let more = count - 8;
    (
        eight(bytes, 8) * power(more) + eight(bytes.split_at(8).1, more),
        count,
    )
}

// Whether the first `count` digits are those of a number: some, and none before them but the one of 0.
#[inline(always)]
pub(crate) fn spells(bytes: &[u8], count: usize) -> bool
    requires { count ≤ length bytes.now }
    ensures some { result ≡ true → 0 < count }
    ensures lone { result ≡ true → slice_index bytes.now 0 ≡ 48 → count ≡ 1 }
    ensures none { result ≡ false → (count ≡ 0) ⊎ ((slice_index bytes.now 0 ≡ 48) × (1 < count)) }
{
    count > 0 && (count == 1 || bytes[0] != b'0')
}

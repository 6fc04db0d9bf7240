//! Up to sixteen digits, found in one vector and read in two words.

ghost use Rattle.std.specs.Prelude.{ℕ, ◌≡◌, ◌≤◌, ◌<◌, ◌+◌, true, false, length, take, slice_index};
ghost use Rattle.ks_script.specs.Words.{is_ascii_digit, all_ascii_digits, digits_value, word_of};

use std::simd::prelude::*;

// The bytes of eight digits 0.
const ZEROS: u64 = 0x3030_3030_3030_3030;

// What brings the first and the third pair of eight digits to their places above bit 32, where the halves of a word are
// these pairs.
const ODD: u64 = (1_000_000 << 32) + 100;

// The same for the second and the fourth pair.
const EVEN: u64 = (10_000 << 32) + 1;

// How many digits the bytes begin with, or sixteen if they are more.
#[inline(always)]
pub fn digits_in(bytes: &[u8]) -> usize
    requires { 16 ≤ length bytes.now }
    ensures most { result ≤ 16 }
    ensures digits { all_ascii_digits (take result bytes.now) ≡ true }
    ensures stops { result < 16 → is_ascii_digit (slice_index bytes.now result) ≡ false }
{
    let worths = u8x16::from_slice(bytes) - u8x16::splat(b'0');
    let others = worths.simd_gt(u8x16::splat(9)).to_bitmask();
    others.trailing_zeros().min(16) as usize
}

// The first eight bytes as a word, the first of them lowest.
#[inline(always)]
fn first_word(bytes: &[u8]) -> u64
    requires { 8 ≤ length bytes.now }
    ensures value { result ≡ word_of (λ (i : ℕ). slice_index bytes.now i) }
    ensures bytes { (i : ℕ) → slice_index bytes.now i < 256 }
{
    u64::from_le_bytes([
        bytes[0], bytes[1], bytes[2], bytes[3], bytes[4], bytes[5], bytes[6], bytes[7],
    ])
}

// The number that the first `count` bytes are the digits of. The others are shifted out, so that zeros are before the
// digits.
#[inline(always)]
pub fn eight(bytes: &[u8], count: usize) -> u64
    requires room { 8 ≤ length bytes.now }
    requires some { 0 < count }
    requires most { count ≤ 8 }
    requires digits { all_ascii_digits (take count bytes.now) ≡ true }
    ensures value { digits_value 10 (take count bytes.now) ≡ result }
    ensures small { result < 100000000 }
{
    let digits = first_word(bytes).wrapping_sub(ZEROS) << (64 - 8 * count);
    let pairs = digits.wrapping_mul(10).wrapping_add(digits >> 8);
    let odd = pairs % 256 + ((pairs >> 32) % 256 << 32);
    let even = (pairs >> 16) % 256 + ((pairs >> 48) % 256 << 32);
    odd.wrapping_mul(ODD).wrapping_add(even.wrapping_mul(EVEN)) >> 32
}

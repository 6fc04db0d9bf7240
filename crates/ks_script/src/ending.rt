//! A line spelled from its last byte to its first, so that its digits are written where they stay.

ghost use Rattle.std.specs.Prelude.{ℕ, ◌≡◌, ◌+◌, ◌^◌, ◌<◌, ◌≤◌, [], ◌++◌, length};
ghost use Rattle.std.specs.Fmt.{decimal};
ghost use Rattle.ks_script.specs.Digits.{padded};

use itoa::write_digits;
use std::marker::Model;

/// How many bytes a line may have. The longest is that of a pair, of 20 and 39 digits: 61.
const ROOM: usize = 64;

/// How many numbers 19 digits spell: each of them has 64 bits at most.
const NINETEEN_DIGITS: u128 = 10_000_000_000_000_000_000;

/// The last bytes of a line: what comes before them is added.
#[derive(Drop)]
pub struct Ending {
    bytes: [u8; ROOM],
    start: usize,
}

impl Model for Ending {
    ghost use Rattle.std.specs.Prelude.{ℕ, ◌≡◌, ◌≤◌, List, length, drop};

    ghost Value = { List ℕ };

    ghost view = { λ e. drop e.start e.bytes };

    ghost invariant = { λ e. e.start ≤ length e.bytes };
}

impl Ending {
    /// No bytes.
    #[inline(always)]
    pub fn new() -> Ending
        ensures { result ≡ [] }
    {
        Ending {
            bytes: [0; ROOM],
            start: ROOM,
        }
    }

    /// The bytes.
    #[inline(always)]
    pub fn bytes(&self) -> &[u8]
        ensures { result.now ≡ self.now }
    {
        &self.bytes[self.start..]
    }

    /// A word before them.
    #[inline(always)]
    pub fn word(&mut self, word: &[u8])
        requires { length word.now + length self.old ≤ 64 }
        ensures { self.new ≡ word.now ++ self.old }
    {
        let end = self.start;
        let start = end - word.len();
        self.bytes[start..end].copy_from_slice(word);
        self.start = start;
    }

    /// The digits of a number before them.
    #[inline(always)]
    pub fn number(&mut self, number: u64)
        requires { 20 + length self.old ≤ 64 }
        ensures digits { self.new ≡ decimal number ++ self.old }
        ensures long { length self.new ≤ 20 + length self.old }
    {
        self.digits(number);
    }

    /// The digits of a value before them: 19 at a time, as long as it has more than 64 bits.
    #[inline(always)]
    pub fn value(&mut self, value: u128)
        requires { 39 + length self.old ≤ 64 }
        ensures digits { self.new ≡ decimal value ++ self.old }
        ensures long { length self.new ≤ 39 + length self.old }
    {
        let mut left = value;
        while left > u64::MAX as u128 {
            self.nineteen((left % NINETEEN_DIGITS) as u64);
            left /= NINETEEN_DIGITS;
        }
        self.digits(left as u64);
    }

    // The digits of a number before them, for which there is room.
    #[inline(always)]
    fn digits(&mut self, number: u64)
        requires { length (decimal number) + length self.old ≤ 64 }
        ensures { self.new ≡ decimal number ++ self.old }
    {
        self.start = write_digits(number, &mut self.bytes, self.start);
    }

    // The digits of a number before them, and digits 0 before these, so that they are 19.
    fn nineteen(&mut self, number: u64)
        requires small { number < 10 ^ 19 }
        requires room { 19 + length self.old ≤ 64 }
        ensures { self.new ≡ padded 19 number ++ self.old }
    {
        let long = 19 + self.bytes().len();
        self.digits(number);
        self.word(&b"0000000000000000000"[..long - self.bytes().len()]);
    }
}

//! The rank of a number among ascending ones, searched from a guess.
//!
//! A search is right for every guess, and the closer the guess the fewer numbers it compares. If the numbers are spread
//! evenly, a product with a scale guesses the rank to within a few; if they are not, halving does.

ghost use Rattle.std.specs.Prelude.{◌≡◌, ℕ, ◌<◌, ◌≤◌, length, get_or};
ghost use Rattle.ks_node.specs.Keyed.{Ascends, IsRank};

/// What a scale is a fraction of: 2^64.
const WHOLE: u128 = 0x1_0000_0000_0000_0000;

/// How far the guess by a scale may be off at the numbers that are tried, for the scale to be taken.
const NEAR: usize = 4;

/// How many of the numbers lie below this one, searched from a guess: down while the number before is not below it, then
/// up while the next one is.
pub(crate) fn rank_from(numbers: &[u64], limit: u64, from: usize) -> usize
    requires { Ascends (λ n. n) numbers.now }
    ensures { IsRank (λ n. n) limit numbers.now result }
{
    let start = search_down(numbers, limit, from.min(numbers.len()));
    search_up(numbers, limit, start)
}

/// A position, at most that of the guess, before which all numbers lie below this one.
fn search_down(numbers: &[u64], limit: u64, from: usize) -> usize
    requires ascend { Ascends (λ n. n) numbers.now }
    requires inside { from ≤ length numbers.now }
    ensures within { result ≤ from }
    ensures before { (k : ℕ) (d : ℕ) → k < result → get_or numbers.now k d < limit }
{
    for at in (0..from).rev() {
        if numbers[at] < limit {
            return at + 1;
        }
    }
    0
}

/// How many of the numbers lie below this one, if all before a position do.
fn search_up(numbers: &[u64], limit: u64, from: usize) -> usize
    requires ascend { Ascends (λ n. n) numbers.now }
    requires inside { from ≤ length numbers.now }
    requires before { (k : ℕ) (d : ℕ) → k < from → get_or numbers.now k d < limit }
    ensures { IsRank (λ n. n) limit numbers.now result }
{
    for at in from..numbers.len() {
        let number = numbers[at];
        if limit <= number {
            return at;
        }
    }
    numbers.len()
}

/// A guess of the rank of a place: by the scale, or by halving if the scale is 0.
pub(crate) fn guess(lows: &[u64], scale: u64, place: u64) -> usize {
    if scale == 0 {
        halved(lows, place)
    } else {
        scaled(lows, scale, place)
    }
}

/// The guess by a scale: two, and as many more as the distance from the second low says.
fn scaled(lows: &[u64], scale: u64, place: u64) -> usize {
    if lows.len() < 3 || place <= lows[1] {
        return 1;
    }
    let steps = (place - lows[1]) as u128 * scale as u128 / WHOLE;
    (steps as usize).saturating_add(2)
}

/// The guess by halving, which is exact for up to 127 numbers.
fn halved(numbers: &[u64], limit: u64) -> usize {
    let mut at = 0;
    for step in [64, 32, 16, 8, 4, 2, 1] {
        at = past(numbers, limit, at, step);
    }
    at
}

/// The position that is `step` numbers on, if there are as many and they lie below the limit.
fn past(numbers: &[u64], limit: u64, at: usize, step: usize) -> usize
    requires { at ≤ length numbers.now }
    ensures { result ≤ length numbers.now }
{
    if 0 < step && step <= numbers.len() - at && numbers[at + (step - 1)] < limit {
        at + step
    } else {
        at
    }
}

/// The scale by which to guess ranks among these lows; 0 if halving is better.
pub(crate) fn scale_of(lows: &[u64]) -> u64 {
    if lows.len() < 3 {
        return 0;
    }
    let steps = lows.len() as u128 - 2;
    let span = lows[lows.len() - 1].saturating_sub(lows[1]).max(1);
    let scale = (steps * WHOLE / span as u128).min(u64::MAX as u128) as u64;
    let quarter = lows.len() / 4;
    if is_near(lows, scale, quarter)
        && is_near(lows, scale, 2 * quarter)
        && is_near(lows, scale, 3 * quarter)
    {
        scale
    } else {
        0
    }
}

/// Whether the guess for a place just above a low is close.
fn is_near(lows: &[u64], scale: u64, at: usize) -> bool
    requires { at < length lows.now }
{
    scaled(lows, scale, lows[at]).abs_diff(at + 1) <= NEAR
}

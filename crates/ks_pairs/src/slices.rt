//! Slices and arrays of numbers: the place of a number among ascending ones; one element read, written, put between
//! others or removed.

ghost use Rattle.std.specs.Prelude.{◌≡◌, ◌<◌, ◌≤◌, length, slice_index_or, slice_set};
ghost use Rattle.std.specs.List.{insert, remove};
ghost use Rattle.ks_node.specs.Keyed.{Ascends, IsRank};

use arrayvec::ArrayVec;
use std::default::MadeWith;

/// How many of the numbers lie below this one.
pub(crate) fn count_below(numbers: &[u64], limit: u64) -> usize
    requires { Ascends (λ n. n) numbers.now }
    ensures { IsRank (λ n. n) limit numbers.now result }
{
    for (i, number) in numbers.iter().enumerate() {
        if limit <= *number {
            return i;
        }
    }
    numbers.len()
}

/// The element at an index.
pub(crate) fn item<T: Copy>(items: &[T], at: usize) -> T
    requires { at < length items.now }
    ensures { result ≡ slice_index_or items.now at result }
{
    items[at]
}

/// Writes the element at an index.
pub(crate) fn set_item(items: &mut [u128], at: usize, new: u128)
    requires { at < length items.old }
    ensures { items.new ≡ slice_set items.old at new }
{
    items[at] = new;
}

/// Puts an element where another is, or behind the last, and moves those from there on up by one.
pub(crate) fn insert_at<T: Copy + Drop, const N: usize>(
    items: &mut ArrayVec<T, N>,
    at: usize,
    new: T,
)
    requires inside { at ≤ length items.old.items }
    requires room { length items.old.items < N }
    ensures { items.new.items ≡ insert items.old.items at new }
{
    let count = items.len();
    items.push(new);
    let all = items.as_mut_slice();
    all.copy_within(at..count, at + 1);
    all[at] = new;
}

/// Removes an element, and moves those behind it down by one.
pub(crate) fn remove_at<T: Copy + MadeWith<()> + Drop, const N: usize>(
    items: &mut ArrayVec<T, N>,
    at: usize,
)
    requires { at < length items.old.items }
    ensures { items.new.items ≡ remove items.old.items at }
{
    let count = items.len();
    items.as_mut_slice().copy_within(at + 1..count, at);
    let _ = items.pop();
}

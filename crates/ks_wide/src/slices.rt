//! One element of a slice, read or written; arrays that are split and joined; what a search asks of node numbers.

ghost use Rattle.std.specs.Prelude.{◌≡◌, ◌+◌, ◌<◌, ◌≤◌, ◌++◌, length, take, drop, nat_eq, position, slice_index_or, slice_set, IfSome};
ghost use Rattle.std.specs.List.{list_all};
ghost use Rattle.ks_wide.specs.Started.{sole_of};

use arrayvec::ArrayVec;
use std::default::MadeWith;

/// The element at an index.
pub(crate) fn item<T: Copy>(items: &[T], at: usize) -> T
    requires { at < length items.now }
    ensures { result ≡ slice_index_or items.now at result }
{
    items[at]
}

/// Writes the element at an index.
pub(crate) fn set_item(items: &mut [u64], at: usize, new: u64)
    requires { at < length items.old }
    ensures { items.new ≡ slice_set items.old at new }
{
    items[at] = new;
}

/// Takes away the elements from an index on, and returns them.
pub(crate) fn split_off<T: Copy + Default + MadeWith<()> + Drop, const N: usize>(
    items: &mut ArrayVec<T, N>,
    at: usize,
) -> ArrayVec<T, N>
    requires { at ≤ length items.old.items }
    ensures left { items.new.items ≡ take at items.old.items }
    ensures right { result.items ≡ drop at items.old.items }
{
    let mut upper = ArrayVec::new();
    let _ = upper.try_extend_from_slice(&items.as_slice()[at..]);
    items.truncate(at);
    upper
}

/// Puts the elements of another array behind these.
pub(crate) fn append<T: Copy + Drop, const N: usize>(
    items: &mut ArrayVec<T, N>,
    more: &ArrayVec<T, N>,
)
    requires { length items.old.items + length more.now.items ≤ N }
    ensures { items.new.items ≡ items.old.items ++ more.now.items }
{
    let _ = items.try_extend_from_slice(more.as_slice());
}

/// The position of the first number that is `node`.
pub(crate) fn position_of(nodes: &[u32], node: u32) -> Option<usize>
    ensures at { result ≡ position (λ n. nat_eq n node) nodes.now }
    ensures within { IfSome result (λ i. i < length nodes.now) }
{
    nodes.iter().position(|n| *n == node)
}

/// Whether all numbers are `node`.
fn are_all(nodes: &[u32], node: u32) -> bool
    ensures { result ≡ list_all (λ n. nat_eq n node) nodes.now }
{
    for other in nodes {
        if *other != node {
            return false;
        }
    }
    true
}

/// The number that all numbers are.
pub(crate) fn only_of(nodes: &[u32]) -> Option<u32>
    ensures { result ≡ sole_of nodes.now }
{
    match nodes {
        [first, rest @ ..] => {
            let node = *first;
            if are_all(rest, node) {
                Some(node)
            } else {
                None
            }
        }
        [] => None,
    }
}

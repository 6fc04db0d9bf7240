//! Worked steps of node types without a range.

ghost use Rattle.std.specs.Prelude.{◌≡◌, false};

use crate::bare::{absorb, adopt, collapse, filled, forget, grow, split};
use ks_keysets::{Few, Pair};
use ks_node::{Next, Node, Ordered, Unlinked};
use ks_places::Placing;
use std::alloc::Global;
use std::process::Abort;

/// Spans of places, and for each the first place and the end of those of a leaf with the places below 16 that are in it.
const SPANS: [(u64, u64, u64, u64); 8] = [
    (0, u64::MAX, 0, 16),
    (0, 15, 0, 16),
    (1, 14, 1, 15),
    (5, 5, 5, 6),
    (15, 40, 15, 16),
    (16, u64::MAX, 0, 0),
    (7, 6, 0, 0),
    (u64::MAX, u64::MAX, 0, 0),
];

/// A search for the place goes on there.
fn leads<N: Node>(rt: &impl Abort, node: &N, place: u64, next: Next) {
    assert!(rt; node.next(place) == next, "place {place}");
}

/// The node is full, and is cut here.
fn is_cut_at<N: Node>(rt: &impl Abort, node: &N, cut: u64) {
    assert!(rt; node.is_full());
    assert!(rt; node.cut(None) == cut);
}

/// The node has just the places from the first one to below the end, each with its own value.
fn has<N: Node>(rt: &impl Abort, node: &N, first: u64, end: u64) {
    assert!(rt; node.pairs_held() as u64 == end.saturating_sub(first));
    for place in 0..20u64 {
        let held = first <= place && place < end;
        let wanted = if held { Some(place as u128) } else { None };
        assert!(rt; node.get(place) == wanted, "place {place}");
    }
}

/// The node lists the pairs from one place to another: those of the places from the first one to below the end.
fn lists<N: Ordered>(rt: &impl Abort, node: &N, low: u64, last: u64, first: u64, end: u64) {
    let mut few = Few::new();
    node.pairs_in(low, last, &mut few);
    assert!(rt;
        few.len() as u64 == end.saturating_sub(first),
        "from {low} to {last}"
    );
    for at in 0..few.len() {
        let place = first.saturating_add(at as u64);
        let wanted = Pair {
            place,
            value: place as u128,
        };
        assert!(rt; few.pair(at) == wanted, "from {low} to {last}");
    }
}

/// The node lists the pairs of each of the spans.
fn lists_each<N: Ordered>(rt: &impl Abort, node: &N, spans: &[(u64, u64, u64, u64)]) {
    for (low, last, first, end) in spans {
        lists(rt, node, *low, *last, *first, *end);
    }
}

/// A leaf of eight pairs splits, and keeps an edge of its own to the right one.
pub fn splits_and_adopts<N: Unlinked>(rt: &impl Abort, alloc: Global)
    requires { N.ranged ≡ false }
{
    let mut node = filled::<N>(rt, alloc, 0, 8);
    is_cut_at(rt, &node, 4);
    let right = split(rt, alloc, &mut node, 4);
    has(rt, &node, 0, 4);
    has(rt, &right, 4, 8);
    assert!(rt; 3 < node.pairs_held() && 0 < right.pairs_held());
    assert!(rt; node.pair_at(3).place == 3 && right.pair_at(0).place == 4);
    assert!(rt; node.can_adopt(4));
    adopt(rt, &mut node, 4, 9);
    leads(rt, &node, 3, Next::Here);
    leads(rt, &node, 4, Next::Go(9));
}

/// A leaf of 16 pairs splits, and takes in the right one.
pub fn splits_and_absorbs<N: Unlinked>(rt: &impl Abort, alloc: Global)
    requires { N.ranged ≡ false }
{
    let mut node = filled::<N>(rt, alloc, 0, 16);
    is_cut_at(rt, &node, 8);
    let mut right = split(rt, alloc, &mut node, 8);
    has(rt, &node, 0, 8);
    has(rt, &right, 8, 16);
    absorb(rt, &mut node, &mut right, 8);
    has(rt, &node, 0, 16);
    has(rt, &right, 0, 0);
}

/// A leaf lists the pairs of spans, before and after it is filled.
pub fn lists_spans<N: Ordered>(rt: &impl Abort, alloc: Global)
    requires { N.ranged ≡ false }
{
    let node = filled::<N>(rt, alloc, 0, 0);
    lists(rt, &node, 0, u64::MAX, 0, 0);
    let node = filled::<N>(rt, alloc, 0, 16);
    lists_each(rt, &node, &SPANS);
}

/// A leaf of 16 pairs grows, forgets its right child, and becomes what the left one is.
pub fn grows_forgets_and_collapses<N: Ordered>(rt: &impl Abort, alloc: Global)
    requires { N.ranged ≡ false }
{
    let mut node = filled::<N>(rt, alloc, 0, 16);
    let (mut left, right) = grow(rt, alloc, &mut node, 1, 2);
    has(rt, &node, 0, 0);
    has(rt, &left, 0, 8);
    has(rt, &right, 8, 16);
    lists(rt, &node, 0, u64::MAX, 0, 0);
    lists(rt, &right, 0, u64::MAX, 8, 16);
    leads(rt, &node, 7, Next::Go(1));
    leads(rt, &node, 8, Next::Go(2));
    assert!(rt; node.right_of(7) == Some(2));
    forget(rt, &mut node, 1, 2);
    leads(rt, &node, 8, Next::Go(1));
    assert!(rt; node.only_child() == Some(1));
    collapse(rt, &mut node, &mut left);
    has(rt, &node, 0, 8);
    has(rt, &left, 0, 0);
    leads(rt, &node, 8, Next::Here);
}

/// A leaf with the places 3 and 4 is full, and is cut at 4.
pub fn is_full_with_two<N: Node>(rt: &impl Abort, alloc: Global)
    requires { N.ranged ≡ false }
{
    let node = filled::<N>(rt, alloc, 3, 3);
    assert!(rt; node.is_low() && !node.is_full());
    let mut node = filled::<N>(rt, alloc, 3, 5);
    assert!(rt; !node.is_low() && !node.is_branch());
    is_cut_at(rt, &node, 4);
    assert!(rt; node.del(3) == Some(3));
    has(rt, &node, 4, 5);
}

/// Such a leaf splits, and the two halves fit together.
pub fn splits_two<N: Unlinked>(rt: &impl Abort, alloc: Global)
    requires { N.ranged ≡ false }
{
    let mut node = filled::<N>(rt, alloc, 3, 5);
    let right = split(rt, alloc, &mut node, 4);
    has(rt, &node, 3, 4);
    has(rt, &right, 4, 5);
    assert!(rt; node.fits(&right));
}

/// Such a leaf becomes a fork over its halves.
pub fn grows_to_a_fork<N: Unlinked>(rt: &impl Abort, alloc: Global)
    requires { N.ranged ≡ false }
{
    let mut node = filled::<N>(rt, alloc, 3, 5);
    let (left, right) = grow(rt, alloc, &mut node, 1, 2);
    has(rt, &node, 0, 0);
    has(rt, &left, 3, 4);
    has(rt, &right, 4, 5);
    assert!(rt; node.is_branch() && !node.is_full() && !node.is_low() && !node.fits(&left));
    leads(rt, &node, 3, Next::Go(1));
    leads(rt, &node, 4, Next::Go(2));
    assert!(rt; node.right_of(3) == Some(2) && node.right_of(4) == None);
    assert!(rt; node.only_child() == None && node.edges_held() == 2);
}

/// A fork over the nodes 1 and 2 that forgets a node has as many edges, and this only child.
fn forgets<N: Unlinked>(rt: &impl Abort, alloc: Global, id: u32, edges: u32, only: Option<u32>)
    requires { N.ranged ≡ false }
{
    let mut node = filled::<N>(rt, alloc, 3, 5);
    let (_left, _right) = grow(rt, alloc, &mut node, 1, 2);
    forget(rt, &mut node, 1, id);
    assert!(rt;
        node.edges_held() == edges && node.only_child() == only,
        "node {id}"
    );
}

/// If it forgets node 3 it keeps both; if it forgets node 2 it is a stem over node 1.
pub fn forgets_its_right_child<N: Unlinked>(rt: &impl Abort, alloc: Global)
    requires { N.ranged ≡ false }
{
    forgets::<N>(rt, alloc, 3, 2, None);
    forgets::<N>(rt, alloc, 2, 1, Some(1));
}

/// A bucket with the keys 0 to 31 is full, and is cut at the place of key 17: 16 of them lie below it. Key 32 lies above it.
pub fn is_cut_at_key_17<N: Unlinked>(rt: &impl Abort, alloc: Global)
    requires { N.ranged ≡ false }
{
    const CUT: u64 = 9344711191398858085;
    let mut node = filled::<N>(rt, alloc, 0, 32);
    is_cut_at(rt, &node, CUT);
    let mut right = split(rt, alloc, &mut node, CUT);
    assert!(rt; node.pairs_held() == 16 && right.pairs_held() == 16);
    let first = Pair {
        place: CUT,
        value: 17,
    };
    assert!(rt; right.pair_at(0) == first);
    assert!(rt; !right.is_full() && node.fits(&right));
    assert!(rt; right.put(N::Places::place(32), 32) == None);
    assert!(rt; right.pairs_held() == 17 && right.pair_at(0) == first);
    assert!(rt; !node.fits(&right));
}

/// A bucket with nine neighbouring places has them all.
pub fn keeps_nine_neighbours<N: Node>(rt: &impl Abort, alloc: Global)
    requires { N.ranged ≡ false }
{
    let mut node = filled::<N>(rt, alloc, 0, 0);
    for place in 1..10u64 {
        assert!(rt; !node.is_full());
        assert!(rt; node.put(place, place as u128) == None);
    }
    has(rt, &node, 1, 10);
    assert!(rt; !node.is_full() && node.is_low());
}

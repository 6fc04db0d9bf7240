ghost use Rattle.std.specs.Prelude.{◌≡◌, ◌<◌, All, IsTrue, false};
ghost use Rattle.ks_node.specs.Body.{blank_body};
ghost use Rattle.ks_hash.specs.Parts.{body_of, pairs_of};

use super::HNode;
use ks_keysets::Span;
use ks_node::{Growing, Next, Node, Unlinked, WithRange};
use ks_places::{Golden, Placing};
use std::alloc::Global;
use std::process::Abort;

const ALL: Span = Span {
    low: 0,
    last: u64::MAX,
};

fn blank(rt: &impl Abort, alloc: Global) -> HNode {
    HNode::blank(alloc).expect(rt, "memory")
}

fn is_blank(node: &HNode) -> bool
    ensures { IsTrue result → body_of node.now.low node.now.parts ≡ blank_body false }
{
    node.low == 0 && !node.is_branch() && node.parts.pairs_held() == 0 && node.parts.own().is_none()
}

/// Whether all pairs lie below a cut.
fn all_below(node: &HNode, cut: u64) -> bool
    ensures { IsTrue result → All (λ x. x.place < cut) (pairs_of node.now.parts) }
{
    for n in 0..node.parts.pairs_held() {
        if node.parts.pair(n).place >= cut {
            return false;
        }
    }
    true
}

/// Puts a value at a place of a bucket with no own edge.
fn put(rt: &impl Abort, node: &mut HNode, place: u64, value: u128) {
    assert!(rt; !node.is_branch() && node.parts.own().is_none() && node.parts.pairs_held() < 8);
    assert_eq!(rt; node.put(place, value), None);
}

/// Puts the keys whose places are 1 to 8.
fn fill(rt: &impl Abort, node: &mut HNode) {
    put_key(rt, node, 17428512612931826493, 1);
    put_key(rt, node, 16410281152154101370, 2);
    put_key(rt, node, 15392049691376376247, 3);
    put_key(rt, node, 14373818230598651124, 4);
    put_key(rt, node, 13355586769820926001, 5);
    put_key(rt, node, 12337355309043200878, 6);
    put_key(rt, node, 11319123848265475755, 7);
    put_key(rt, node, 10300892387487750632, 8);
}

/// Puts the key of a place.
fn put_key(rt: &impl Abort, node: &mut HNode, key: u64, place: u64) {
    assert_eq!(rt; Golden::place(key), place);
    put(rt, node, place, 0);
}

fn target(node: &HNode, place: u64) -> u32 {
    match node.next(place) {
        Next::Go(child) => child,
        Next::Here => 99,
    }
}

/// A directory with two slices over blank buckets.
fn halves(rt: &impl Abort, alloc: Global, root: &mut HNode) -> (HNode, HNode) {
    let mut left = blank(rt, alloc);
    let mut right = blank(rt, alloc);
    assert!(rt; root.is_full());
    let cut = root.cut(Some(ALL));
    assert_eq!(rt; cut, 0x8000_0000_0000_0000);
    assert!(rt;
        root.is_full()
            && root.grows()
            && !root.is_branch()
            && root.parts.own().is_none()
            && root.low == 0
    );
    assert!(rt; is_blank(&left) && is_blank(&right));
    root.grow(&mut left, &mut right, 1, 2, cut);
    (left, right)
}

/// Splits the full bucket 1 of the places from 0 on at the cut that follows from the root's slices, and lets the root
/// adopt the new bucket.
fn split(
    rt: &impl Abort,
    alloc: Global,
    root: &mut HNode,
    bucket: &mut HNode,
    cut: u64,
    id: u32,
    slices: usize,
) {
    let mut right = blank(rt, alloc);
    assert!(rt; bucket.is_full());
    assert_eq!(rt; bucket.cut(root.span_for(9)), cut);
    assert!(rt;
        !bucket.is_branch() && bucket.parts.own().is_none() && bucket.low < cut && is_blank(&right)
    );
    bucket.split_to(&mut right, cut);
    assert_eq!(rt; bucket.pairs_held(), 8);
    assert_eq!(rt; right.pairs_held(), 0);
    assert!(rt; root.can_adopt(cut) && all_below(root, cut) && root.low < cut);
    root.adopt(cut, id);
    assert_eq!(rt; root.parts.slices().len(), slices);
    assert_eq!(rt; target(root, cut - 1), 1);
    assert_eq!(rt; target(root, cut), id);
}

/// Splits the bucket at place 5 into one that it leads to itself, which takes the ninth key.
fn chain(rt: &impl Abort, alloc: Global, bucket: &mut HNode) {
    let mut right = blank(rt, alloc);
    assert!(rt;
        bucket.is_full()
            && !bucket.is_branch()
            && bucket.parts.own().is_none()
            && bucket.low < 5
            && is_blank(&right)
    );
    bucket.split_to(&mut right, 5);
    assert_eq!(rt; bucket.pairs_held(), 4);
    assert!(rt; bucket.can_adopt(5) && all_below(bucket, 5));
    bucket.adopt(5, 8);
    assert_eq!(rt; target(bucket, 4), 99);
    assert_eq!(rt; target(bucket, 5), 8);
    assert_eq!(rt; bucket.chained(), Some(8));
    put_key(rt, &mut right, 9282660926710025509, 9);
    assert_eq!(rt; right.pairs_held(), 5);
}

/// What a blank node of any type holds once a value is put.
fn holds_what_is_put<N: Growing>(rt: &impl Abort, alloc: Global) {
    let mut node = N::blank(alloc).expect(rt, "memory");
    assert!(rt; node.grows() && !node.is_full());
    assert_eq!(rt; node.put(3, 30), None);
    assert_eq!(rt; node.get(3), Some(30));
    assert_eq!(rt; node.get(4), None);
}

#[test]
fn a_blank_node_holds_what_is_put(rt: HostRuntime) {
    holds_what_is_put::<HNode>(&rt, rt.alloc());
    holds_what_is_put::<WithRange<HNode>>(&rt, rt.alloc());
}

#[test]
fn a_slice_is_halved_where_a_child_begins_in_it(rt: HostRuntime) {
    let mut root = blank(&rt, rt.alloc());
    fill(&rt, &mut root);
    let _ = halves(&rt, rt.alloc(), &mut root);
    let cut = 4611686018427387904;
    assert!(rt; root.can_adopt(cut) && all_below(&root, cut) && root.low < cut);
    root.adopt(cut, 5);
    assert_eq!(rt; target(&root, 4611686018427387903), 1);
    assert_eq!(rt; target(&root, 4611686018427387904), 5);
    assert_eq!(rt; target(&root, 9223372036854775807), 5);
    assert_eq!(rt; target(&root, 9223372036854775808), 2);
}

#[test]
fn nine_keys_of_one_smallest_slice_split_down_to_it(rt: HostRuntime) {
    let mut root = blank(&rt, rt.alloc());
    fill(&rt, &mut root);
    let (mut bucket, right) = halves(&rt, rt.alloc(), &mut root);
    assert_eq!(rt; right.pairs_held(), 0);
    assert_eq!(rt; root.parts.slices(), [1, 2].as_slice());
    split(&rt, rt.alloc(), &mut root, &mut bucket, 1 << 62, 3, 4);
    split(&rt, rt.alloc(), &mut root, &mut bucket, 1 << 61, 4, 8);
    split(&rt, rt.alloc(), &mut root, &mut bucket, 1 << 60, 5, 16);
    split(&rt, rt.alloc(), &mut root, &mut bucket, 1 << 59, 6, 32);
    split(&rt, rt.alloc(), &mut root, &mut bucket, 1 << 58, 7, 64);
    assert_eq!(rt; root.edges_held(), 7);
    assert!(rt; bucket.is_full());
    assert_eq!(rt; bucket.cut(root.span_for(9)), 5);
    assert!(rt; !root.can_adopt(5));
    chain(&rt, rt.alloc(), &mut bucket);
}

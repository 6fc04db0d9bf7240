//! What the nodes of each type do: one test for each type, of a function that is generic in it.

ghost use Rattle.std.specs.Prelude.{◌<◌, ◌≡◌, false};

use crate::asked;
use crate::listing::lists;
use crate::trial::Trial;
use crate::worked::{
    forgets_its_right_child, grows_forgets_and_collapses, grows_to_a_fork, is_cut_at_key_17,
    is_full_with_two, keeps_nine_neighbours, lists_spans, splits_and_absorbs, splits_and_adopts,
    splits_two,
};
use ks_boxed::Boxed;
use ks_bplus::BNode;
use ks_bst::TNode;
use ks_hash::HNode;
use ks_linked::WithLink;
use ks_list::ListNode;
use ks_node::{Growing, Linked, Listed, Node, Ordered, Ranged, Unlinked, WithRange};
use ks_places::{Golden, Plain};
use ks_wide::WNode;
use std::alloc::Global;
use std::process::Abort;

/// The places of a smallest slice of a directory.
const SLICE: u64 = 0x0400_0000_0000_0000;

/// A leaf of 16 pairs, or a branch of 64 children.
type WideTree = WNode<Plain, 16, 64>;

/// A bucket of 32 pairs, or a branch of 64 children.
type WideTable = WNode<Golden, 32, 64>;

/// A blank node keeps a pair.
fn keeps_a_pair<N: Node>(rt: &impl Abort, alloc: Global) {
    let mut node = asked::blank::<N>(rt, alloc);
    assert!(rt; asked::put_first(rt, &mut node, 3, 30) == None);
    assert!(rt; node.get(3) == Some(30) && node.get(4) == None);
}

/// A blank node grows, before it has a pair.
fn grows_when_blank<N: Growing>(rt: &impl Abort, alloc: Global) {
    let node = asked::blank_that_grows::<N>(rt, alloc);
    assert!(rt; node.grows() && !node.is_full());
}

/// A leaf grows, its halves split to the right, and the branch over them takes in the new nodes.
fn goes_right<N: Linked>(rt: &impl Abort, alloc: Global, length: u64, step: usize) -> Trial<N>
    requires { 0 < step }
{
    let mut root = Trial::<N>::blank(rt, alloc, length);
    root.fill(rt, 0, 64, step);
    let (mut left, mut right) = root.grow_link(rt, alloc, 32, [1, 2]);
    left.fill(rt, step / 2, 32, step);
    let third = left.split_link(rt, alloc, 16, 3);
    right.fill(rt, 32 + step / 2, 64, step);
    let fourth = right.split_link(rt, alloc, 48, 4);
    left.links_to(rt, &third, 3);
    third.links_to(rt, &right, 2);
    right.links_to(rt, &fourth, 4);
    assert!(rt; fourth.node.link() == None);
    root.adopt(rt, 48, 4);
    root.adopt(rt, 16, 3);
    root.adopt_dozen(rt);
    root
}

/// A leaf grows, a half splits and takes its right part in again, and all becomes one leaf.
fn merges<N: Unlinked + Ranged>(rt: &impl Abort, alloc: Global, length: u64, step: usize)
    requires { 0 < step }
{
    let mut root = Trial::<N>::blank(rt, alloc, length);
    root.fill(rt, 0, 64, step);
    let (mut left, mut right) = root.grow(rt, alloc, 32, [1, 2]);
    left.fill(rt, step / 2, 32, step);
    let mut third = left.split(rt, alloc, 16);
    root.adopt(rt, 16, 3);
    left.reach(rt, &third);
    left.absorb(rt, &mut third);
    root.forget(rt, 3);
    left.thin(rt, step / 2, 32, step);
    left.absorb(rt, &mut right);
    root.forget(rt, 2);
    root.collapse(rt, &mut left);
}

/// A branch adopts each cut in its range at which no edge starts, until it is full. Then it grows, and its halves join again.
fn branches_merge<N: Unlinked + Listed>(rt: &impl Abort, alloc: Global) {
    let mut root = Trial::<N>::blank(rt, alloc, 1);
    root.fill(rt, 0, 64, 4);
    let _ = root.grow(rt, alloc, 32, [1, 2]);
    assert!(rt; asked::refuses(rt, &root.node, 32) && !asked::refuses(rt, &root.node, 33));
    root.adopt(rt, 48, 4);
    root.adopt(rt, 16, 3);
    root.adopt_dozen(rt);
    root.adopt_rest(rt);
    assert!(rt; root.node.is_full() && asked::refuses(rt, &root.node, 33));
    let (mut left, mut right) = root.grow(rt, alloc, 32, [5, 6]);
    left.absorb(rt, &mut right);
    root.forget(rt, 6);
    root.collapse(rt, &mut left);
}

/// A leaf grows, then its right half does below it, and all of it merges again from below.
fn grows_below<N: Unlinked + Ranged>(rt: &impl Abort, alloc: Global, length: u64) {
    let mut root = Trial::<N>::blank(rt, alloc, length);
    root.fill(rt, 16, 48, 16);
    let (mut left, mut right) = root.grow(rt, alloc, 32, [1, 2]);
    right.fill(rt, 48, 64, 16);
    let (mut third, mut fourth) = right.grow(rt, alloc, 48, [3, 4]);
    third.thin(rt, 32, 48, 16);
    third.absorb(rt, &mut fourth);
    right.forget(rt, 4);
    right.collapse(rt, &mut third);
    left.absorb(rt, &mut right);
    root.forget(rt, 2);
    root.collapse(rt, &mut left);
}

/// A node splits twice, keeps an edge of its own to each right part, and takes them in again.
fn chains<N: Unlinked + Ranged>(rt: &impl Abort, alloc: Global, length: u64) {
    let mut first = Trial::<N>::blank(rt, alloc, length);
    first.fill(rt, 0, 64, 8);
    let mut last = first.split(rt, alloc, 32);
    first.reach(rt, &last);
    first.adopt(rt, 32, 1);
    first.fill(rt, 4, 32, 8);
    let mut middle = first.split(rt, alloc, 16);
    first.reach(rt, &middle);
    first.adopt(rt, 16, 2);
    first.absorb(rt, &mut middle);
    first.thin(rt, 4, 32, 8);
    first.absorb(rt, &mut last);
}

/// A node with no pair, and one with a pair at the last place, list the pairs of spans.
fn lists_few<N: Listed>(rt: &impl Abort, alloc: Global) {
    let mut node = asked::blank::<N>(rt, alloc);
    lists(rt, &node);
    assert!(rt; asked::put(rt, &mut node, 4, 40) == None);
    assert!(rt; asked::put(rt, &mut node, u64::MAX, 7) == None);
    lists(rt, &node);
}

/// A full leaf, the branch that it becomes, and its halves list the pairs of spans.
fn lists_when_grown<N: Unlinked + Listed>(rt: &impl Abort, alloc: Global) {
    let mut root = Trial::<N>::blank(rt, alloc, 1);
    root.fill(rt, 0, 64, 4);
    lists(rt, &root.node);
    let (left, right) = root.grow(rt, alloc, 32, [1, 2]);
    lists(rt, &root.node);
    lists(rt, &left.node);
    lists(rt, &right.node);
}

/// The same of nodes with links.
fn lists_when_grown_linked<N: Linked + Listed>(rt: &impl Abort, alloc: Global) {
    let mut root = Trial::<N>::blank(rt, alloc, 1);
    root.fill(rt, 0, 64, 4);
    lists(rt, &root.node);
    let (left, right) = root.grow_link(rt, alloc, 32, [1, 2]);
    lists(rt, &root.node);
    lists(rt, &left.node);
    lists(rt, &right.node);
}

/// What list nodes without a range do.
fn does_as_a_list<N: Unlinked>(rt: &impl Abort, alloc: Global)
    requires { N.ranged ≡ false }
{
    keeps_a_pair::<N>(rt, alloc);
    splits_and_adopts::<N>(rt, alloc);
}

/// What list nodes with a range do.
fn does_as_a_list_with_a_range<N: Unlinked + Ranged>(rt: &impl Abort, alloc: Global) {
    keeps_a_pair::<N>(rt, alloc);
    chains::<N>(rt, alloc, 1);
}

/// What B+ nodes without a range do.
fn does_as_a_b_plus_node<N: Growing + Ordered>(rt: &impl Abort, alloc: Global)
    requires { N.ranged ≡ false }
{
    keeps_a_pair::<N>(rt, alloc);
    grows_when_blank::<N>(rt, alloc);
    splits_and_absorbs::<N>(rt, alloc);
    lists_spans::<N>(rt, alloc);
    grows_forgets_and_collapses::<N>(rt, alloc);
}

/// What B+ nodes with a range do.
fn does_as_a_b_plus_node_with_a_range<N: Unlinked + Listed>(rt: &impl Abort, alloc: Global) {
    merges::<N>(rt, alloc, 1, 4);
    branches_merge::<N>(rt, alloc);
    lists_when_grown::<N>(rt, alloc);
}

/// What B+ nodes with a link do.
fn does_as_a_b_plus_node_with_a_link<N: Linked + Listed>(rt: &impl Abort, alloc: Global) {
    let mut root = goes_right::<N>(rt, alloc, 1, 4);
    root.adopt_rest(rt);
    let _ = root.grow_link(rt, alloc, 32, [5, 6]);
    assert!(rt; root.node.level() == 2);
    lists_few::<N>(rt, alloc);
    lists_when_grown_linked::<N>(rt, alloc);
}

/// What hash nodes without a range do.
fn does_as_a_hash_node<N: Growing>(rt: &impl Abort, alloc: Global) {
    keeps_a_pair::<N>(rt, alloc);
    grows_when_blank::<N>(rt, alloc);
}

/// What hash nodes with a range do.
fn does_as_a_hash_node_with_a_range<N: Unlinked + Ranged>(rt: &impl Abort, alloc: Global) {
    merges::<N>(rt, alloc, SLICE, 8);
    chains::<N>(rt, alloc, SLICE);
}

/// What hash nodes with a link do.
fn does_as_a_hash_node_with_a_link<N: Linked>(rt: &impl Abort, alloc: Global) {
    let root = goes_right::<N>(rt, alloc, SLICE, 8);
    assert!(rt; !root.node.is_full());
}

/// What nodes of binary trees without a range do.
fn does_as_a_binary_tree<N: Unlinked>(rt: &impl Abort, alloc: Global)
    requires { N.ranged ≡ false }
{
    keeps_a_pair::<N>(rt, alloc);
    is_full_with_two::<N>(rt, alloc);
    splits_two::<N>(rt, alloc);
    grows_to_a_fork::<N>(rt, alloc);
    forgets_its_right_child::<N>(rt, alloc);
}

/// What nodes of binary trees with a range do.
fn does_as_a_binary_tree_with_a_range<N: Unlinked + Ranged>(rt: &impl Abort, alloc: Global) {
    grows_below::<N>(rt, alloc, 1);
    grows_below::<N>(rt, alloc, SLICE);
}

#[test]
fn a_list_keeps_a_pair_splits_and_adopts(rt: HostRuntime) {
    does_as_a_list::<ListNode>(&rt, rt.alloc());
}

#[test]
fn a_list_with_a_range_keeps_a_pair_and_chains(rt: HostRuntime) {
    does_as_a_list_with_a_range::<WithRange<ListNode>>(&rt, rt.alloc());
}

#[test]
fn a_b_plus_node_keeps_a_pair_splits_absorbs_lists_and_collapses(rt: HostRuntime) {
    does_as_a_b_plus_node::<BNode>(&rt, rt.alloc());
}

#[test]
fn a_b_plus_node_with_a_range_splits_merges_and_lists(rt: HostRuntime) {
    does_as_a_b_plus_node_with_a_range::<WithRange<BNode>>(&rt, rt.alloc());
}

#[test]
fn a_b_plus_node_with_a_link_splits_to_the_right_grows_and_lists(rt: HostRuntime) {
    does_as_a_b_plus_node_with_a_link::<WithLink<BNode>>(&rt, rt.alloc());
}

#[test]
fn a_hash_node_keeps_a_pair_and_grows(rt: HostRuntime) {
    does_as_a_hash_node::<HNode>(&rt, rt.alloc());
}

#[test]
fn a_hash_node_with_a_range_splits_merges_and_chains(rt: HostRuntime) {
    does_as_a_hash_node_with_a_range::<WithRange<HNode>>(&rt, rt.alloc());
}

#[test]
fn a_hash_node_with_a_link_splits_to_the_right(rt: HostRuntime) {
    does_as_a_hash_node_with_a_link::<WithLink<HNode>>(&rt, rt.alloc());
}

#[test]
fn a_leaf_of_a_binary_tree_is_full_with_two_pairs_splits_and_grows(rt: HostRuntime) {
    does_as_a_binary_tree::<TNode>(&rt, rt.alloc());
}

#[test]
fn a_binary_tree_with_a_range_grows_below_the_root(rt: HostRuntime) {
    does_as_a_binary_tree_with_a_range::<WithRange<TNode>>(&rt, rt.alloc());
}

#[test]
fn a_wide_tree_node_keeps_a_pair_splits_absorbs_lists_and_collapses(rt: HostRuntime) {
    does_as_a_b_plus_node::<WideTree>(&rt, rt.alloc());
}

#[test]
fn a_wide_tree_node_with_a_range_splits_merges_and_lists(rt: HostRuntime) {
    does_as_a_b_plus_node_with_a_range::<WithRange<WideTree>>(&rt, rt.alloc());
}

#[test]
fn a_wide_tree_node_with_a_link_splits_to_the_right_grows_and_lists(rt: HostRuntime) {
    does_as_a_b_plus_node_with_a_link::<WithLink<WideTree>>(&rt, rt.alloc());
}

#[test]
fn a_wide_hash_node_keeps_a_pair_splits_merges_and_goes_right(rt: HostRuntime) {
    does_as_a_hash_node::<WideTable>(&rt, rt.alloc());
    merges::<WithRange<WideTable>>(&rt, rt.alloc(), 1, 2);
    let root = goes_right::<WithLink<WideTable>>(&rt, rt.alloc(), 1, 2);
    assert!(rt; !root.node.is_full());
}

#[test]
fn a_wide_bucket_has_32_pairs_and_is_cut_at_the_middle_one(rt: HostRuntime) {
    keeps_nine_neighbours::<WideTable>(&rt, rt.alloc());
    is_cut_at_key_17::<WideTable>(&rt, rt.alloc());
}

// (those with only a range or only a link begin blank, and are filled, in the tests above)
#[test]
fn blank_nodes_in_other_wrappers_keep_a_pair(rt: HostRuntime) {
    keeps_a_pair::<WithRange<WithRange<ListNode>>>(&rt, rt.alloc());
    keeps_a_pair::<Boxed<BNode>>(&rt, rt.alloc());
    keeps_a_pair::<Boxed<WideTree>>(&rt, rt.alloc());
    keeps_a_pair::<WithLink<WithRange<BNode>>>(&rt, rt.alloc());
}

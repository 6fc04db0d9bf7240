//! Calls on nodes, each after a test at run time of what it requires.

ghost use Rattle.std.specs.Prelude.{◌≢◌, ◌≡◌, IsTrue, Some, false};
ghost use Rattle.ks_node.specs.Body.{begins, is_branch, first_node, IsBlank, all_places};
ghost use Rattle.ks_node.specs.Room.{in_place, is_full};

use ks_asked::{cut_of, is_here, lie_in};
use ks_keysets::Span;
use ks_node::{
    Growing, Linked, Listed, Next, Node, Ranged, Unlinked, adopt_law, growing_law, listed_law,
    node_law,
};
use std::alloc::Global;
use std::process::Abort;

/// A blank node.
pub fn blank<N: Node>(rt: &impl Abort, alloc: Global) -> N
    ensures { IsBlank (N.body result) }
{
    let node = N::blank(alloc).expect(rt, "memory");
    node_law(&node);
    node
}

/// Puts a value at a place of the node's own, if there is room.
pub fn put<N: Ranged>(rt: &impl Abort, node: &mut N, place: u64, value: u128) -> Option<u128> {
    let range = node.range();
    assert!(rt; range.low <= place && place <= range.last);
    assert!(rt; is_here(node, place));
    assert!(rt; !node.is_branch());
    assert!(rt; !node.is_full());
    node_law(node);
    node.put(place, value)
}

/// Puts a value into a node with no edge, if there is room.
pub fn put_first<N: Node>(rt: &impl Abort, node: &mut N, place: u64, value: u128) -> Option<u128> {
    assert!(rt; !node.is_branch());
    assert!(rt; node.chained().is_none());
    assert!(rt; !node.is_full());
    node.put(place, value)
}

/// Deletes what is at a place.
pub fn del<N: Node>(rt: &impl Abort, node: &mut N, place: u64) -> Option<u128> {
    assert!(rt; !node.is_branch());
    node.del(place)
}

/// Splits a full node; the right one is new.
pub fn split_to<N: Unlinked + Ranged>(rt: &impl Abort, alloc: Global, node: &mut N) -> N {
    let mut right = blank(rt, alloc);
    let cut = cut_of(node).expect(rt, "a full node");
    node.split_to(&mut right, cut);
    right
}

/// Splits a full node and links it to the right one, which is new.
pub fn split_link<N: Linked>(rt: &impl Abort, alloc: Global, node: &mut N, right_id: u32) -> N {
    let mut right = blank(rt, alloc);
    let cut = cut_of(node).expect(rt, "a full node");
    node.split_link(&mut right, right_id, cut);
    right
}

/// Becomes a branch over a left and a right node, which are new.
pub fn grow<N: Unlinked + Ranged>(
    rt: &impl Abort,
    alloc: Global,
    node: &mut N,
    ids: [u32; 2],
) -> (N, N) {
    let mut left = blank(rt, alloc);
    let mut right = blank(rt, alloc);
    assert!(rt; is_where_it_grows(node));
    assert!(rt; node.grows());
    let cut = cut_of(node).expect(rt, "a full node");
    node.grow(&mut left, &mut right, ids[0], ids[1], cut);
    (left, right)
}

/// Whether the node has the range of a root, or is of a type that grows wherever it is.
fn is_where_it_grows<N: Ranged>(node: &N) -> bool
    ensures { IsTrue result → in_place N.layout ≡ false → (N.body node.now).range ≡ Some all_places }
{
    let range = node.range();
    N::grows_in_place() || range.low == 0 && range.last == u64::MAX
}

/// Becomes a branch over a left and a right node, which are new and linked, one level higher.
pub fn grow_link<N: Linked>(rt: &impl Abort, alloc: Global, node: &mut N, ids: [u32; 2]) -> (N, N) {
    let mut left = blank(rt, alloc);
    let mut right = blank(rt, alloc);
    let range = node.range();
    assert!(rt; range.low == 0 && range.last == u64::MAX);
    assert!(rt; node.grows());
    assert!(rt; node.level() < u32::MAX);
    let cut = cut_of(node).expect(rt, "a full node");
    node.grow_link(&mut left, &mut right, ids[0], ids[1], cut);
    (left, right)
}

/// Lets the range reach to the end of that of the next node.
pub fn reach<N: Unlinked + Ranged>(rt: &impl Abort, node: &mut N, right: &N) {
    let range = node.range();
    let next = right.range();
    assert!(rt; range.last < u64::MAX && range.last + 1 == next.low);
    node.reach(right);
}

/// Adds an edge from the cut on.
pub fn adopt<N: Ranged>(rt: &impl Abort, node: &mut N, cut: u64, id: u32) {
    let range = node.range();
    assert!(rt; range.low < cut && cut <= range.last);
    assert!(rt; node.can_adopt(cut));
    let below = Span {
        low: 0,
        last: cut - 1,
    };
    assert!(rt; lie_in(node, &below));
    node_law(node);
    node.adopt(cut, id);
}

/// Whether a branch does not adopt a cut in its range, where the branches of the type adopt: then it is full, or an edge starts
/// at the cut.
pub fn refuses<N: Listed>(rt: &impl Abort, node: &N, cut: u64) -> bool
    ensures { IsTrue result → is_full N.layout (N.body node.now) ≡ false →
        IsTrue (begins cut (N.body node.now).starts) }
{
    let range = node.range();
    assert!(rt; range.low < cut && cut <= range.last);
    assert!(rt; node.is_branch());
    listed_law::<N>();
    node_law(node);
    adopt_law(node, cut);
    !node.can_adopt(cut)
}

/// A node with no edge, of a type whose nodes then grow.
pub fn blank_that_grows<N: Growing>(rt: &impl Abort, alloc: Global) -> N {
    let node = blank::<N>(rt, alloc);
    growing_law::<N>();
    let grows = node.grows();
    prove!(grows);
    node
}

/// Takes in what the node to the right has.
pub fn absorb<N: Unlinked + Ranged>(rt: &impl Abort, node: &mut N, right: &mut N) {
    let range = node.range();
    let next = right.range();
    assert!(rt; 0 < next.low && range.low <= next.low && range.last <= next.last);
    assert!(rt; !node.is_branch() || range.last < next.low);
    let below = Span {
        low: 0,
        last: next.low - 1,
    };
    assert!(rt; lie_in(node, &below));
    assert!(rt; lie_in(right, &next));
    assert!(rt; node.fits(right));
    node_law(node);
    node_law(right);
    node.absorb(right);
}

/// Drops an edge of a branch that is not its first.
pub fn forget<N: Unlinked + Ranged>(rt: &impl Abort, node: &mut N, id: u32) {
    assert!(rt; node.is_branch());
    assert!(rt; !leads_first(node, id));
    node.forget(id);
}

/// Whether the first edge of a branch leads to a node.
fn leads_first<N: Ranged>(node: &N, id: u32) -> bool
    requires { IsTrue (is_branch (N.body node.now)) }
    ensures { result ≡ false → first_node (N.body node.now).starts ≢ Some id }
{
    node_law(node);
    match node.next(node.range().low) {
        Next::Here => false,
        Next::Go(first) => first == id,
    }
}

/// Becomes what its only child is.
pub fn collapse<N: Unlinked + Ranged>(rt: &impl Abort, node: &mut N, child: &mut N) {
    let range = node.range();
    let same = child.range();
    assert!(rt; range.low == same.low && range.last == same.last);
    assert!(rt; node.only_child().is_some());
    node.collapse(child);
}

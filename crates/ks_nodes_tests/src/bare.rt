//! Calls on nodes without a range, each after a test at run time of what it requires.

ghost use Rattle.std.specs.Prelude.{◌≡◌, false, None, Some};
ghost use Rattle.ks_node.specs.Body.{blank_body, first_node};
ghost use Rattle.ks_nodes_tests.specs.Bare.{IsBare};

use ks_asked::lie_in;
use ks_keysets::Span;
use ks_node::{Node, Unlinked};
use ks_places::Placing;
use std::alloc::Global;
use std::process::Abort;

/// All places.
pub const ALL: Span = Span {
    low: 0,
    last: u64::MAX,
};

/// A blank node.
fn blank<N: Node>(rt: &impl Abort, alloc: Global) -> N
    requires { N.ranged ≡ false }
    ensures { N.body result ≡ blank_body false }
{
    N::blank(alloc).expect(rt, "memory")
}

/// A leaf with each key from the first one to below the end, as its own value.
pub fn filled<N: Node>(rt: &impl Abort, alloc: Global, first: u64, end: u64) -> N
    requires { N.ranged ≡ false }
    ensures { IsBare 0 (N.body result) }
{
    let mut node = blank::<N>(rt, alloc);
    for key in first..end {
        assert!(rt; !node.is_full());
        assert!(rt; node.put(N::Places::place(key), key as u128) == None);
    }
    node
}

/// Splits a full leaf; the right one is new.
pub fn split<N: Unlinked>(rt: &impl Abort, alloc: Global, node: &mut N, cut: u64) -> N
    requires ranged { N.ranged ≡ false }
    requires leaf { IsBare 0 (N.body node.old) }
    ensures left { IsBare 0 (N.body node.new) }
    ensures right { IsBare cut (N.body result) }
{
    let mut right = blank::<N>(rt, alloc);
    assert!(rt; node.is_full());
    assert!(rt; 0 < cut);
    node.split_to(&mut right, cut);
    right
}

/// Adds an edge from the cut on to a leaf.
pub fn adopt<N: Node>(rt: &impl Abort, node: &mut N, cut: u64, id: u32)
    requires { IsBare 0 (N.body node.old) }
{
    assert!(rt; 0 < cut);
    assert!(rt; node.can_adopt(cut));
    let below = Span {
        low: 0,
        last: cut - 1,
    };
    assert!(rt; lie_in(node, &below));
    node.adopt(cut, id);
}

/// Takes in what the leaf right of the cut has.
pub fn absorb<N: Unlinked>(rt: &impl Abort, node: &mut N, right: &mut N, cut: u64)
    requires left { IsBare 0 (N.body node.old) }
    requires right { IsBare cut (N.body right.old) }
{
    assert!(rt; 0 < cut);
    let below = Span {
        low: 0,
        last: cut - 1,
    };
    let above = Span {
        low: cut,
        last: u64::MAX,
    };
    assert!(rt; lie_in(node, &below));
    assert!(rt; lie_in(right, &above));
    assert!(rt; node.fits(right));
    node.absorb(right);
}

/// Becomes a branch over a left and a right leaf, which are new, at the cut that it has as a root.
pub fn grow<N: Unlinked>(
    rt: &impl Abort,
    alloc: Global,
    node: &mut N,
    left_id: u32,
    right_id: u32,
) -> (N, N)
    requires ranged { N.ranged ≡ false }
    requires leaf { IsBare 0 (N.body node.old) }
    ensures first { first_node (N.body node.new).starts ≡ Some left_id }
    ensures range { (N.body node.new).range ≡ None }
    ensures left { IsBare 0 (N.body result.0) }
{
    let mut left = blank::<N>(rt, alloc);
    let mut right = blank::<N>(rt, alloc);
    assert!(rt; node.is_full());
    assert!(rt; node.grows());
    assert!(rt; lie_in(node, &ALL));
    let cut = node.cut(Some(ALL));
    node.grow(&mut left, &mut right, left_id, right_id, cut);
    (left, right)
}

/// Drops an edge of a branch that is not its first.
pub fn forget<N: Unlinked>(rt: &impl Abort, node: &mut N, first: u32, id: u32)
    requires first { first_node (N.body node.old).starts ≡ Some first }
    requires range { (N.body node.old).range ≡ None }
    ensures { (N.body node.new).range ≡ None }
{
    assert!(rt; node.is_branch());
    assert!(rt; first != id);
    node.forget(id);
}

/// Becomes what its only child is.
pub fn collapse<N: Unlinked>(rt: &impl Abort, node: &mut N, child: &mut N)
    requires parent { (N.body node.old).range ≡ None }
    requires child { IsBare 0 (N.body child.old) }
{
    assert!(rt; node.only_child().is_some());
    node.collapse(child);
}

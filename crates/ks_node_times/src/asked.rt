//! Calls on nodes, each after a test at run time of what it requires.

use ks_asked::{cut_of, is_here, lie_in};
use ks_keysets::Span;
use ks_node::{Node, Ranged, Unlinked, node_law};
use std::alloc::{AllocError, Global};

/// Puts a value at a place of the node's own, if there is room; returns whether it did.
pub fn put<N: Ranged>(node: &mut N, place: u64, value: u128) -> bool {
    let range = node.range();
    if place < range.low || range.last < place || !is_here(node, place) {
        return false;
    }
    if node.is_branch() || node.is_full() {
        return false;
    }
    node_law(node);
    node.put(place, value);
    true
}

/// What `put` tests.
pub fn can_put<N: Ranged>(node: &N, place: u64) -> bool {
    let range = node.range();
    if place < range.low || range.last < place || !is_here(node, place) {
        return false;
    }
    !node.is_branch() && !node.is_full()
}

/// Deletes what is at a place.
pub fn del<N: Node>(node: &mut N, place: u64) -> Option<u128> {
    if node.is_branch() {
        return None;
    }
    node.del(place)
}

/// Where the node is cut, if it is full.
pub fn cut<N: Node>(node: &N, span: Option<Span>) -> Option<u64> {
    if node.is_full() {
        Some(node.cut(span))
    } else {
        None
    }
}

/// Becomes a branch over two new nodes, if it is full and can.
pub fn grow<N: Unlinked + Ranged>(alloc: Global, node: &mut N) -> Result<(), AllocError> {
    let mut left = N::blank(alloc)?;
    let mut right = N::blank(alloc)?;
    node_law(&left);
    node_law(&right);
    let range = node.range();
    if range.low > 0 || range.last < u64::MAX || !node.grows() {
        return Ok(());
    }
    if let Some(cut) = cut_of(node) {
        node.grow(&mut left, &mut right, 1, 2, cut);
    }
    Ok(())
}

/// Adds an edge from the cut on, if it can be added.
pub fn adopt<N: Ranged>(node: &mut N, cut: u64, id: u32) {
    let range = node.range();
    if cut <= range.low || range.last < cut || !node.can_adopt(cut) {
        return;
    }
    let below = Span {
        low: 0,
        last: cut - 1,
    };
    if !lie_in(node, &below) {
        return;
    }
    node_law(node);
    node.adopt(cut, id);
}

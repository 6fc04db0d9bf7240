//! The nodes on which calls are made, and the calls, each in a loop of its own.

ghost use Rattle.std.specs.Prelude.{◌<◌, ◌-◌, ◌^◌};

use crate::asked;
use ks_node::{Next, Node, Ranged, Unlinked};
use std::alloc::{AllocError, Global};

/// An eighth of all places.
const EIGHTH: u64 = 0x2000_0000_0000_0000;

/// Where one of eight pairs is, or an edge starts: each in turn.
fn place_of(number: u64) -> u64
    ensures { result < 2 ^ 64 - 1 }
{
    number % 8 * EIGHTH
}

/// How many pairs a node has that is not full: seven, or one less than its room.
fn pairs<N: Node>() -> u64
    ensures { 0 < result }
{
    (N::ROOM as u64).saturating_sub(1).min(7).max(1)
}

/// A node with some pairs, and room for one more.
fn some<N: Ranged>(alloc: Global) -> Result<N, AllocError> {
    let mut node = N::blank(alloc)?;
    for number in 0..pairs::<N>() {
        asked::put(&mut node, place_of(number), 1);
    }
    Ok(node)
}

/// Eight nodes with some pairs.
fn somes<N: Ranged>(alloc: Global) -> Result<Vec<N>, AllocError> {
    let mut nodes = Vec::new(alloc);
    for _ in 0..8u32 {
        nodes.push(some(alloc)?)?;
    }
    Ok(nodes)
}

/// A full node: its places are the first.
fn full<N: Ranged>(alloc: Global) -> Result<N, AllocError> {
    let mut node = N::blank(alloc)?;
    for place in 0..N::ROOM {
        asked::put(&mut node, place as u64, 1);
    }
    Ok(node)
}

/// A branch with eight edges, or with two if it adopts none; a full node if there is none.
fn branch<N: Unlinked + Ranged>(alloc: Global) -> Result<N, AllocError> {
    let mut node: N = full(alloc)?;
    asked::grow(alloc, &mut node)?;
    for number in 1..8u64 {
        asked::adopt(&mut node, place_of(number), number as u32 + 2);
    }
    Ok(node)
}

/// Eight full nodes.
fn fulls<N: Ranged>(alloc: Global) -> Result<Vec<N>, AllocError> {
    let mut nodes = Vec::new(alloc);
    for _ in 0..8u32 {
        nodes.push(full(alloc)?)?;
    }
    Ok(nodes)
}

/// Eight branches, or full nodes.
fn branches<N: Unlinked + Ranged>(alloc: Global) -> Result<Vec<N>, AllocError> {
    let mut nodes = Vec::new(alloc);
    for _ in 0..8u32 {
        nodes.push(branch(alloc)?)?;
    }
    Ok(nodes)
}

/// The number of the node to which a search goes on, or 0.
fn told(next: Next) -> u64 {
    match next {
        Next::Here => 0,
        Next::Go(node) => node as u64,
    }
}

/// Looks where a search goes on, `times` times.
fn next<N: Node>(nodes: &[N], times: u64) -> u64 {
    let mut sum = 0u64;
    for i in 0..times {
        if let Some(node) = nodes.get((i % 8) as usize) {
            sum = sum.wrapping_add(told(node.next(place_of(i))));
        }
    }
    sum
}

/// Gets a value, `times` times.
fn get<N: Node>(nodes: &[N], times: u64) -> u64 {
    let mut sum = 0u64;
    for i in 0..times {
        if let Some(node) = nodes.get((i % 8) as usize) {
            sum = sum.wrapping_add(node.get(place_of(i)).is_some() as u64);
        }
    }
    sum
}

/// Asks whether it is full, `times` times.
fn is_full<N: Node>(nodes: &[N], times: u64) -> u64 {
    let mut sum = 0u64;
    for i in 0..times {
        if let Some(node) = nodes.get((i % 8) as usize) {
            sum = sum.wrapping_add((node.is_full() as u64 ^ i));
        }
    }
    sum
}

/// Asks whether it is low, `times` times.
fn is_low<N: Node>(nodes: &[N], times: u64) -> u64 {
    let mut sum = 0u64;
    for i in 0..times {
        if let Some(node) = nodes.get((i % 8) as usize) {
            sum = sum.wrapping_add((node.is_low() as u64 ^ i));
        }
    }
    sum
}

/// Asks whether it is a branch, `times` times.
fn is_branch<N: Node>(nodes: &[N], times: u64) -> u64 {
    let mut sum = 0u64;
    for i in 0..times {
        if let Some(node) = nodes.get((i % 8) as usize) {
            sum = sum.wrapping_add((node.is_branch() as u64 ^ i));
        }
    }
    sum
}

/// Asks whether an edge can be added, `times` times.
fn can_adopt<N: Node>(nodes: &[N], times: u64) -> u64 {
    let mut sum = 0u64;
    for i in 0..times {
        if let Some(node) = nodes.get((i % 8) as usize) {
            sum = sum.wrapping_add(node.can_adopt(place_of(i) + 1) as u64);
        }
    }
    sum
}

/// Asks for the next child, `times` times.
fn right_of<N: Node>(nodes: &[N], times: u64) -> u64 {
    let mut sum = 0u64;
    for i in 0..times {
        if let Some(node) = nodes.get((i % 8) as usize) {
            sum = sum.wrapping_add(node.right_of(place_of(i)).unwrap_or(0) as u64);
        }
    }
    sum
}

/// Asks for the span of a child, `times` times.
fn span_for<N: Node>(nodes: &[N], times: u64) -> u64 {
    let mut sum = 0u64;
    for i in 0..times {
        if let Some(node) = nodes.get((i % 8) as usize) {
            if let Some(span) = node.span_for(place_of(i)) {
                sum = sum.wrapping_add(span.low ^ span.last);
            }
        }
    }
    sum
}

/// Reads where the range begins, `times` times.
fn nothing<N: Ranged>(nodes: &[N], times: u64) -> u64 {
    let mut sum = 0u64;
    for i in 0..times {
        if let Some(node) = nodes.get((i % 8) as usize) {
            sum = sum.wrapping_add(node.range().low ^ place_of(i));
        }
    }
    sum
}

/// Asks for the cut of a full node, `times` times.
fn cut<N: Ranged>(nodes: &[N], times: u64) -> u64 {
    let mut sum = 0u64;
    for i in 0..times {
        if let Some(node) = nodes.get((i % 8) as usize) {
            sum = sum.wrapping_add(asked::cut(node, Some(node.range())).unwrap_or(0) ^ i);
        }
    }
    sum
}

/// Sets the value at a place that is there, `times` times.
fn put<N: Ranged>(node: &mut N, times: u64) -> u64 {
    let mut sum = 0u64;
    for i in 0..times {
        sum = sum.wrapping_add(asked::put(node, place_of(i % pairs::<N>()), i as u128) as u64);
    }
    sum
}

/// Puts a pair and deletes it, `times` times.
fn put_del<N: Ranged>(node: &mut N, times: u64) -> u64 {
    let mut sum = 0u64;
    for i in 0..times {
        let place = place_of(i) + 1;
        asked::put(node, place, i as u128);
        sum = sum.wrapping_add(asked::del(node, place).is_some() as u64);
    }
    sum
}

/// Tests what a put requires, `times` times.
fn tests<N: Ranged>(node: &N, times: u64) -> u64 {
    let mut sum = 0u64;
    for i in 0..times {
        sum = sum.wrapping_add(asked::can_put(node, place_of(i) + 1) as u64);
    }
    sum
}

/// Makes a call `times` times, and returns a sum of the results; `None` if there is no such call.
pub fn repeat<N: Unlinked + Ranged>(
    alloc: Global,
    call: &str,
    times: u64,
) -> Result<Option<u64>, AllocError> {
    let mut node: N = some(alloc)?;
    let some: Vec<N> = somes(alloc)?;
    let full: Vec<N> = fulls(alloc)?;
    let branch: Vec<N> = branches(alloc)?;
    let sum = match call {
        "nothing" => Some(nothing(&some, times)),
        "next" => Some(next(&branch, times)),
        "get" => Some(get(&some, times)),
        "put" => Some(put(&mut node, times)),
        "put_del" => Some(put_del(&mut node, times)),
        "tests" => Some(tests(&node, times)),
        "is_full" => Some(is_full(&some, times)),
        "is_low" => Some(is_low(&some, times)),
        "is_branch" => Some(is_branch(&some, times)),
        "cut" => Some(cut(&full, times)),
        "can_adopt" => Some(can_adopt(&branch, times)),
        "right_of" => Some(right_of(&branch, times)),
        "span_for" => Some(span_for(&branch, times)),
        _ => None,
    };
    Ok(sum)
}

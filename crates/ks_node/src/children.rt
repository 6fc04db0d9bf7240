//! What a search reads from a list of edges by where they start: for types that keep their edges so.
//!
//! The starts ascend, and an edge runs to the next start, the last one to the last place.

ghost use Rattle.std.specs.Prelude.{◌≡◌, suc, ◌<◌, ◌≤◌, length, slice_index_or, nat_eq};
ghost use Rattle.std.specs.List.{list_all};
ghost use Rattle.ks_keysets.specs.Record.{top};
ghost use Rattle.ks_node.specs.Keyed.{Ascends};
ghost use Rattle.ks_node.specs.Body.{starts_from, led_to, go_to, begins, first_node, sole, value_at};
ghost use Rattle.ks_node.specs.Spans.{plain_edges};

use crate::keyed::seek;
use crate::start::{Next, Start};
use ks_keysets::{Edge, Pair, Span};

/// The value at a place among pairs.
pub fn value_in(pairs: &[Pair], place: u64) -> Option<u128>
    requires { Ascends (λ x. x.place) pairs.now }
    ensures { result ≡ value_at pairs.now place }
{
    match seek(pairs, place) {
        Ok(i) => Some(pairs[i].value),
        Err(_) => None,
    }
}

/// Where the search for a place continues.
pub fn next_in(starts: &[Start], place: u64) -> Next
    requires { Ascends (λ s. s.low) starts.now }
    ensures { result ≡ go_to (led_to starts.now place) }
{
    match seek(starts, place) {
        Ok(i) => Next::Go(starts[i].node),
        Err(i) => {
            if i == 0 {
                Next::Here
            } else {
                Next::Go(starts[i - 1].node)
            }
        }
    }
}

/// Whether an edge starts at the place.
pub fn begins_at(starts: &[Start], place: u64) -> bool
    requires { Ascends (λ s. s.low) starts.now }
    ensures { result ≡ begins place starts.now }
{
    match seek(starts, place) {
        Ok(_) => true,
        Err(_) => false,
    }
}

/// The target of the edge after the one that carries the place.
pub fn child_after(starts: &[Start], place: u64) -> Option<u32>
    requires { Ascends (λ s. s.low) starts.now }
    ensures { result ≡ first_node (starts_from (suc place) starts.now) }
{
    let i = match seek(starts, place) {
        Ok(i) => i + 1,
        Err(i) => i,
    };
    first_in(&starts[i..])
}

/// The target of the first edge.
pub fn first_in(starts: &[Start]) -> Option<u32>
    ensures { result ≡ first_node starts.now }
{
    match starts {
        [first, ..] => Some(first.node),
        [] => None,
    }
}

/// Whether all edges lead to the node.
fn all_lead_to(starts: &[Start], node: u32) -> bool
    ensures { result ≡ list_all (λ s. nat_eq s.node node) starts.now }
{
    for start in starts {
        if start.node != node {
            return false;
        }
    }
    true
}

/// The node to which all edges lead.
pub fn only_in(starts: &[Start]) -> Option<u32>
    ensures { result ≡ sole starts.now }
{
    match starts {
        [first, rest @ ..] => {
            let node = first.node;
            if all_lead_to(rest, node) {
                Some(node)
            } else {
                None
            }
        }
        [] => None,
    }
}

/// The edge that the start at `n` begins.
pub fn edge_in(starts: &[Start], n: usize) -> Edge
    requires within { n < length starts.now }
    requires ascend { Ascends (λ s. s.low) starts.now }
    ensures { result ≡ slice_index_or (plain_edges 0 top starts.now) n result }
{
    let start = starts[n];
    let last = if n + 1 == starts.len() {
        u64::MAX
    } else {
        starts[n + 1].low - 1
    };
    Edge {
        span: Span {
            low: start.low,
            last,
        },
        node: start.node,
    }
}

//! Tests at run time of what the calls of nodes require: for trials of node types, and for measuring calls.
#![tactic(auto)]

ghost use Rattle.std.specs.Prelude.{◌≡◌, ◌≤◌, IsTrue, IfSome, All};
ghost use Rattle.ks_node.specs.declared.start.Next.TheVariants.{Here};
ghost use Rattle.ks_node.specs.Body.{next_at};
ghost use Rattle.ks_node.specs.Room.{is_full};
ghost use Rattle.ks_node.specs.Asks.{CanSplitAt};
ghost use Rattle.ks_asked.specs.Asked.{GrowsAt};

use ks_keysets::Span;
use ks_node::{Next, Node, Ranged, node_law};

/// Whether a search for the place ends at the node.
pub fn is_here<N: Node>(node: &N, place: u64) -> bool
    ensures { IsTrue result → next_at (N.body node.now) place ≡ Here }
{
    match node.next(place) {
        Next::Here => true,
        Next::Go(_) => false,
    }
}

/// Whether all pairs lie in a span.
pub fn lie_in<N: Node>(node: &N, span: &Span) -> bool
    ensures { IsTrue result → All (λ x. (span.now.low ≤ x.place) × (x.place ≤ span.now.last)) (N.body node.now).pairs }
{
    for n in 0..node.pairs_held() {
        let place = node.pair_at(n).place;
        if place < span.low || span.last < place {
            return false;
        }
    }
    true
}

/// Where the node is cut, given its range; `None` if it is not full, or a pair lies outside of its range.
pub fn cut_of<N: Ranged>(node: &N) -> Option<u64>
    ensures full { IfSome result (λ _. IsTrue (is_full N.layout (N.body node.now))) }
    ensures splits { IfSome result (λ cut. CanSplitAt (N.body node.now) cut) }
    ensures grows { IfSome result (λ cut. GrowsAt N.layout N.grows_at N.can_grow_at (N.body node.now) cut) }
{
    let range = node.range();
    if !lie_in(node, &range) {
        return None;
    }
    if !node.is_full() {
        return None;
    }
    node_law(node);
    Some(node.cut(Some(range)))
}

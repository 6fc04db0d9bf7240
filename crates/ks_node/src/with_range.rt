//! A node with a range: its edges are those of the node inside, cut to the range.
//!
//! The range is kept beside the node and in step with its low and its edges, so that the cut leaves no edge empty. All
//! calls are the inner node's, and the calls that move places from one node to another move the ends of ranges along.

use crate::edge::cut_edge;
use crate::node::Node;
use crate::ordered::{Listed, Ordered};
use crate::ranged::Ranged;
use crate::start::Next;
use crate::unlinked::{Growing, Unlinked};
use ks_keysets::{Edge, Few, Pair, Span};
use std::alloc::{AllocError, Global};

/// A node and the places that may be searched for in it, behind one allocation: so it moves by one word.
#[derive(Drop)]
pub struct WithRange<N: Unlinked> {
    inner: Box<Inside<N>>,
    ghost framed: { Framed inner.value.range (N.body inner.value.node) } by { Prim.hlevel props },
    ghost same_range: { ForSome (N.body inner.value.node).range (λ r. r ≡ inner.value.range) },
}

/// The node and its range.
#[derive(Drop)]
struct Inside<N: Unlinked> {
    node: N,
    range: Span,
}

ghost use Rattle.std.specs.Prelude.{◌≡◌};
ghost use Rattle.std.specs.Option.{ForSome};
ghost use Rattle.std.proofs.Props.{props};
ghost use Rattle.ks_node.specs.Sound.{Framed};

/// All places.
const ALL: Span = Span {
    low: 0,
    last: u64::MAX,
};

impl<N: Unlinked> Node for WithRange<N> {
    ghost use Rattle.std.specs.Prelude.{Some, true, false, refl};
    ghost use Rattle.ks_node.specs.Body.{Body, content_of};
    ghost use Rattle.ks_node.specs.Effect.{with_range};
    ghost use Rattle.ks_node.specs.Laws.Within.{framed_with};
    ghost use Rattle.ks_node.specs.Wrapped.{adopts_ranged};
    ghost use Rattle.ks_node.specs.Laws.Wrapped.{adopts_inner, branches_inside};

    type Places = N::Places;

    const ROOM: u32 = N::ROOM;

    ghost ROOM = { N.ROOM };

    ghost body = { λ w. with_range w.inner.value.range (N.body w.inner.value.node) };

    ghost ranged = { true };

    ghost cuts_by_range = { false };

    ghost layout = { N.layout };

    ghost branch_kind = { N.branch_kind };

    ghost can_adopt_at = { adopts_ranged N.can_adopt_at };

    ghost branches_adopt = { N.branches_adopt };

    ghost halves_have_room = { N.halves_have_room };

    ghost grows_at = { N.grows_at };

    ghost can_grow_at = { N.can_grow_at };

    ghost cut_at = { N.cut_at };

    ghost span_at = { N.span_at };

    ghost sound = { λ s. N.sound s.inner.value.node };

    ghost framed = { λ s r is. framed_with s.framed is };

    ghost held = { λ s. N.held s.inner.value.node };

    ghost has_range = { λ s. refl };

    ghost adopting = { λ promised s. branches_inside (N.body s.inner.value.node) s.inner.value.range s.same_range N.can_adopt_at N.layout
        (N.adopting promised s.inner.value.node) };

    ghost room_is = { N.room_is };

    ghost grows_as = { N.grows_as };

    ghost becomes_branch = { N.becomes_branch };

    fn blank(alloc: Global) -> Result<Self, AllocError> {
        let node = N::blank(alloc)?;
        let inside = Inside { node, range: ALL };
        Ok(WithRange {
            inner: Box::new(alloc, inside)?,
        })
    }

    fn next(&self, place: u64) -> Next {
        if self.inner.range.low <= place && place <= self.inner.range.last {
            self.inner.node.next(place)
        } else {
            Next::Here
        }
    }

    fn get(&self, place: u64) -> Option<u128> {
        self.inner.node.get(place)
    }

    fn put(&mut self, place: u64, value: u128) -> Option<u128> {
        self.inner.node.put(place, value)
    }

    fn del(&mut self, place: u64) -> Option<u128> {
        self.inner.node.del(place)
    }

    fn is_full(&self) -> bool {
        self.inner.node.is_full()
    }

    fn is_low(&self) -> bool {
        self.inner.node.is_low()
    }

    fn is_branch(&self) -> bool {
        self.inner.node.is_branch()
    }

    fn pairs_held(&self) -> u32 {
        self.inner.node.pairs_held()
    }

    fn pair_at(&self, n: u32) -> Pair {
        self.inner.node.pair_at(n)
    }

    fn edges_held(&self) -> u32 {
        self.inner.node.edges_held()
    }

    fn edge_at(&self, n: u32) -> Edge {
        let inside = &*self.inner;
        let held = inside.node.edges_held();
        cut_edge(inside.node.edge_at(n), &inside.range, n + 1 == held)
    }

    fn grows(&self) -> bool {
        self.inner.node.grows()
    }

    fn grows_in_place() -> bool {
        N::grows_in_place()
    }

    fn only_child(&self) -> Option<u32> {
        self.inner.node.only_child()
    }

    fn chained(&self) -> Option<u32> {
        self.inner.node.chained()
    }

    fn span_for(&self, place: u64) -> Option<Span> {
        self.inner.node.span_for(place)
    }

    fn cut(&self, span: Option<Span>) -> u64 {
        self.inner.node.cut(span)
    }

    fn can_adopt(&self, cut: u64) -> bool {
        !(self.inner.node.is_branch() && cut == self.inner.range.low)
            && self.inner.node.can_adopt(cut)
    }

    fn adopt(&mut self, cut: u64, id: u32) {
        self.inner.node.adopt(cut, id);
    }

    fn right_of(&self, place: u64) -> Option<u32> {
        self.inner.node.right_of(place)
    }

    fn fits(&self, right: &Self) -> bool {
        self.inner.node.fits(&right.inner.node)
    }
}

impl<N: Unlinked> Unlinked for WithRange<N> {
    ghost use Rattle.std.specs.Prelude.{refl};
    ghost use Rattle.std.proofs.Common.{inl, inr};
    ghost use Rattle.ks_node.specs.Laws.Wrapped.{adopts_inner, adopts_its_cut};

    ghost no_link = { λ s. N.no_link s.inner.value.node };

    ghost no_level = { λ s. N.no_level s.inner.value.node };

    ghost by_span = { refl };

    ghost none_starts = { λ c cut can. N.none_starts c cut (adopts_inner N.can_adopt_at c cut can) };

    ghost sort = { λ e. elim (N.sort e) [
      | inl adopts ↦ inl (λ s. adopts_its_cut (N.body s.inner.value.node) s.inner.value.range s.same_range N.can_adopt_at N.cut_at N.layout (adopts s.inner.value.node))
      | inr grows ↦ inr (λ s. grows.0 s.inner.value.node, grows.1, grows.2)
    ] };

    ghost stands = { λ t. (λ s. record { can = ((N.stands t).0 s.inner.value.node).can; bare = ((N.stands t).0 s.inner.value.node).bare }, (N.stands t).1) };

    fn split_to(&mut self, right: &mut Self, cut: u64) {
        let left = &mut *self.inner;
        let right = &mut *right.inner;
        left.node.split_to(&mut right.node, cut);
        right.range = Span {
            low: cut,
            last: left.range.last,
        };
        left.range.last = cut - 1;
    }

    fn reach(&mut self, right: &Self) {
        let left = &mut *self.inner;
        let right = &*right.inner;
        left.node.reach(&right.node);
        left.range.last = right.range.last;
    }

    fn grow(&mut self, left: &mut Self, right: &mut Self, left_id: u32, right_id: u32, cut: u64) {
        let parent = &mut *self.inner;
        let left = &mut *left.inner;
        let right = &mut *right.inner;
        parent
            .node
            .grow(&mut left.node, &mut right.node, left_id, right_id, cut);
        left.range = Span {
            low: parent.range.low,
            last: cut - 1,
        };
        right.range = Span {
            low: cut,
            last: parent.range.last,
        };
    }

    fn absorb(&mut self, right: &mut Self) {
        let left = &mut *self.inner;
        let right = &mut *right.inner;
        left.node.absorb(&mut right.node);
        left.range.last = right.range.last;
        right.range = ALL;
    }

    fn forget(&mut self, id: u32) {
        self.inner.node.forget(id);
    }

    fn collapse(&mut self, child: &mut Self) {
        self.inner.node.collapse(&mut child.inner.node);
        child.inner.range = ALL;
    }
}

impl<N: Growing> Growing for WithRange<N> {
    ghost grows_where = { λ s. N.grows_where s.inner.value.node };

    ghost at_root = { N.at_root };

    ghost few_edges = { λ s. N.few_edges s.inner.value.node };
}

impl<N: Unlinked> Ranged for WithRange<N> {
    ghost use Rattle.std.specs.Prelude.{refl};

    ghost is_ranged = { refl };

    fn range(&self) -> Span {
        self.inner.range
    }
}

impl<N: Ordered> Listed for WithRange<N> {
    ghost plain = { N.plain };

    ghost adopts = { N.adopts };

    fn list(&self, low: u64, last: u64, into: &mut Few) {
        self.inner.node.pairs_in(low, last, into);
    }
}

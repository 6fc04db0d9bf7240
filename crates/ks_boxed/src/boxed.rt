//! `Boxed`, all of whose calls are those of the node inside.

use ks_keysets::{Edge, Pair, Span};
use ks_node::{Next, Node, Unlinked};
use std::alloc::{AllocError, Global};

/// A node behind a box of its own, so that a body moves by one word. All calls are the inner node's.
#[derive(Drop)]
pub struct Boxed<N: Node> {
    node: Box<N>,
}

impl<N: Node> Node for Boxed<N> {
    type Places = N::Places;

    const ROOM: u32 = N::ROOM;

    ghost ROOM = { N.ROOM };

    ghost body = { λ b. N.body b.node.value };

    ghost ranged = { N.ranged };

    ghost cuts_by_range = { N.cuts_by_range };

    ghost layout = { N.layout };

    ghost branch_kind = { N.branch_kind };

    ghost can_adopt_at = { N.can_adopt_at };

    ghost branches_adopt = { N.branches_adopt };

    ghost halves_have_room = { N.halves_have_room };

    ghost grows_at = { N.grows_at };

    ghost can_grow_at = { N.can_grow_at };

    ghost cut_at = { N.cut_at };

    ghost span_at = { N.span_at };

    ghost sound = { λ s. N.sound s.node.value };

    ghost framed = { λ s. N.framed s.node.value };

    ghost held = { λ s. N.held s.node.value };

    ghost has_range = { λ s. N.has_range s.node.value };

    ghost adopting = { λ promised s. N.adopting promised s.node.value };

    ghost room_is = { N.room_is };

    ghost grows_as = { N.grows_as };

    ghost becomes_branch = { N.becomes_branch };

    fn blank(alloc: Global) -> Result<Self, AllocError> {
        let node = N::blank(alloc)?;
        Ok(Boxed {
            node: Box::new(alloc, node)?,
        })
    }

    fn next(&self, place: u64) -> Next {
        self.node.next(place)
    }

    fn get(&self, place: u64) -> Option<u128> {
        self.node.get(place)
    }

    fn put(&mut self, place: u64, value: u128) -> Option<u128> {
        self.node.put(place, value)
    }

    fn del(&mut self, place: u64) -> Option<u128> {
        self.node.del(place)
    }

    fn is_full(&self) -> bool {
        self.node.is_full()
    }

    fn is_low(&self) -> bool {
        self.node.is_low()
    }

    fn is_branch(&self) -> bool {
        self.node.is_branch()
    }

    fn pairs_held(&self) -> u32 {
        self.node.pairs_held()
    }

    fn pair_at(&self, n: u32) -> Pair {
        self.node.pair_at(n)
    }

    fn edges_held(&self) -> u32 {
        self.node.edges_held()
    }

    fn edge_at(&self, n: u32) -> Edge {
        self.node.edge_at(n)
    }

    fn grows(&self) -> bool {
        self.node.grows()
    }

    fn grows_in_place() -> bool {
        N::grows_in_place()
    }

    fn only_child(&self) -> Option<u32> {
        self.node.only_child()
    }

    fn chained(&self) -> Option<u32> {
        self.node.chained()
    }

    fn span_for(&self, place: u64) -> Option<Span> {
        self.node.span_for(place)
    }

    fn cut(&self, span: Option<Span>) -> u64 {
        self.node.cut(span)
    }

    fn can_adopt(&self, cut: u64) -> bool {
        self.node.can_adopt(cut)
    }

    fn adopt(&mut self, cut: u64, id: u32) {
        self.node.adopt(cut, id);
    }

    fn right_of(&self, place: u64) -> Option<u32> {
        self.node.right_of(place)
    }

    fn fits(&self, right: &Self) -> bool {
        self.node.fits(&right.node)
    }
}

impl<N: Unlinked> Unlinked for Boxed<N> {
    ghost use Rattle.std.proofs.Common.{inl, inr};

    ghost no_link = { λ s. N.no_link s.node.value };

    ghost no_level = { λ s. N.no_level s.node.value };

    ghost by_span = { N.by_span };

    ghost none_starts = { N.none_starts };

    ghost sort = { λ e. elim (N.sort e) [
      | inl adopts ↦ inl (λ s. adopts s.node.value)
      | inr grows ↦ inr (λ s. grows.0 s.node.value, grows.1, grows.2)
    ] };

    ghost stands = { λ t. (λ s. (N.stands t).0 s.node.value, (N.stands t).1) };

    fn split_to(&mut self, right: &mut Self, cut: u64) {
        self.node.split_to(&mut right.node, cut);
    }

    fn reach(&mut self, right: &Self) {
        self.node.reach(&right.node);
    }

    fn grow(&mut self, left: &mut Self, right: &mut Self, left_id: u32, right_id: u32, cut: u64) {
        self.node
            .grow(&mut left.node, &mut right.node, left_id, right_id, cut);
    }

    fn absorb(&mut self, right: &mut Self) {
        self.node.absorb(&mut right.node);
    }

    fn forget(&mut self, id: u32) {
        self.node.forget(id);
    }

    fn collapse(&mut self, child: &mut Self) {
        self.node.collapse(&mut child.node);
    }
}

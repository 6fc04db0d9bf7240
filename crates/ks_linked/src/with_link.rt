//! A node with a range, a level and a link.
//!
//! Its edges are those of the node inside, cut to the range, and, if the range ends below the last place, one edge
//! more, the link, which carries all places above the range to the node right of it on its level. So a search that
//! comes after a split moves right and need not restart.

ghost use Rattle.std.specs.Prelude.{◌≡◌, is_some, nat_lt};
ghost use Rattle.std.specs.Option.{ForSome};
ghost use Rattle.std.proofs.Props.{props};
ghost use Rattle.ks_keysets.specs.Record.{top};
ghost use Rattle.ks_node.specs.Sound.{Framed};

use ks_keysets::{Edge, Few, Pair, Span};
use ks_node::{Growing, Linked, Listed, Next, Node, Ordered, Ranged, cut_edge};
use std::alloc::{AllocError, Global};

/// A node, the places that may be looked for in it, its level, and the node right of it on that level, behind one
/// allocation: so it moves by one word.
#[derive(Drop)]
pub struct WithLink<N: Growing> {
    inner: Box<Inside<N>>,
    ghost framed: { Framed inner.value.range (N.body inner.value.node) } by { Prim.hlevel props },
    ghost same_range: { ForSome (N.body inner.value.node).range (λ r. r ≡ inner.value.range) },
    ghost link_where: { is_some inner.value.link ≡ nat_lt inner.value.range.last top },
}

/// The node, its range, its level and its link.
#[derive(Drop)]
struct Inside<N: Growing> {
    node: N,
    range: Span,
    level: u32,
    link: Option<u32>,
}

impl<N: Growing> Node for WithLink<N> {
    ghost use Rattle.std.specs.Prelude.{Some, true, false, refl};
    ghost use Rattle.ks_node.specs.Body.{Body, content_of};
    ghost use Rattle.ks_linked.specs.Link.{linked, adopts_linked};
    ghost use Rattle.ks_linked.specs.Laws.Link.{branches_linked, framed_linked};

    type Places = N::Places;

    const ROOM: u32 = N::ROOM;

    ghost ROOM = { N.ROOM };

    ghost body = { λ w. linked w.inner.value.range w.inner.value.level w.inner.value.link (N.body w.inner.value.node) };

    ghost ranged = { true };

    ghost cuts_by_range = { true };

    ghost layout = { N.layout };

    ghost branch_kind = { N.branch_kind };

    ghost can_adopt_at = { adopts_linked N.can_adopt_at };

    ghost branches_adopt = { N.branches_adopt };

    ghost halves_have_room = { N.halves_have_room };

    ghost grows_at = { N.grows_at };

    ghost can_grow_at = { N.can_grow_at };

    ghost cut_at = { N.cut_at };

    ghost span_at = { N.span_at };

    ghost sound = { λ s. N.sound s.inner.value.node };

    ghost framed = { λ s r is. framed_linked (N.body s.inner.value.node) s.inner.value.range s.inner.value.level s.inner.value.link s.framed is };

    ghost held = { λ s. N.held s.inner.value.node };

    ghost has_range = { λ s. refl };

    ghost adopting = { λ promised s. branches_linked (N.body s.inner.value.node) s.inner.value.range s.inner.value.level s.inner.value.link s.same_range N.can_adopt_at
        N.layout (N.adopting promised s.inner.value.node) };

    ghost room_is = { N.room_is };

    ghost grows_as = { N.grows_as };

    ghost becomes_branch = { N.becomes_branch };

    // What the range and the link change.
    fn blank(alloc: Global) -> Result<Self, AllocError> {
        let node = N::blank(alloc)?;
        let inside = Inside {
            node,
            range: Span {
                low: 0,
                last: u64::MAX,
            },
            level: 0,
            link: None,
        };
        Ok(WithLink {
            inner: Box::new(alloc, inside)?,
        })
    }

    fn next(&self, place: u64) -> Next {
        if place > self.inner.range.last {
            match self.inner.link {
                Some(right) => Next::Go(right),
                None => Next::Here,
            }
        } else if self.inner.range.low <= place {
            self.inner.node.next(place)
        } else {
            Next::Here
        }
    }

    fn edges_held(&self) -> u32 {
        let inside = &*self.inner;
        let own = inside.node.edges_held();
        match inside.link {
            Some(_) => own + 1,
            None => own,
        }
    }

    fn edge_at(&self, n: u32) -> Edge {
        let inside = &*self.inner;
        let own = inside.node.edges_held();
        if n < own {
            return cut_edge(inside.node.edge_at(n), &inside.range, n + 1 == own);
        }
        match inside.link {
            Some(right) => Edge {
                span: Span {
                    low: inside.range.last + 1,
                    last: u64::MAX,
                },
                node: right,
            },
            None => unreachable!(),
        }
    }

    fn cut(&self, span: Option<Span>) -> u64 {
        let inside = &*self.inner;
        inside.node.cut(Some(inside.range))
    }

    fn can_adopt(&self, cut: u64) -> bool {
        self.inner.node.is_branch() && cut != self.inner.range.low && self.inner.node.can_adopt(cut)
    }

    // The pairs are those of the node inside.
    fn get(&self, place: u64) -> Option<u128> {
        self.inner.node.get(place)
    }

    fn put(&mut self, place: u64, value: u128) -> Option<u128> {
        self.inner.node.put(place, value)
    }

    fn del(&mut self, place: u64) -> Option<u128> {
        self.inner.node.del(place)
    }

    fn pairs_held(&self) -> u32 {
        self.inner.node.pairs_held()
    }

    fn pair_at(&self, n: u32) -> Pair {
        self.inner.node.pair_at(n)
    }

    // All else is as the node inside says.
    fn is_full(&self) -> bool {
        self.inner.node.is_full()
    }

    fn is_low(&self) -> bool {
        self.inner.node.is_low()
    }

    fn is_branch(&self) -> bool {
        self.inner.node.is_branch()
    }

    fn grows(&self) -> bool {
        self.inner.node.grows()
    }

    fn grows_in_place() -> bool {
        N::grows_in_place()
    }

    fn only_child(&self) -> Option<u32> {
        self.inner.node.only_child()
    }

    fn chained(&self) -> Option<u32> {
        self.inner.node.chained()
    }

    fn span_for(&self, place: u64) -> Option<Span> {
        self.inner.node.span_for(place)
    }

    fn adopt(&mut self, cut: u64, id: u32) {
        self.inner.node.adopt(cut, id);
    }

    fn right_of(&self, place: u64) -> Option<u32> {
        self.inner.node.right_of(place)
    }

    fn fits(&self, right: &Self) -> bool {
        self.inner.node.fits(&right.inner.node)
    }
}

impl<N: Growing> Ranged for WithLink<N> {
    ghost use Rattle.std.specs.Prelude.{refl};

    ghost is_ranged = { refl };

    fn range(&self) -> Span {
        self.inner.range
    }
}

impl<N: Growing> Linked for WithLink<N> {
    ghost use Rattle.std.specs.Prelude.{refl};

    fn level(&self) -> u32 {
        self.inner.level
    }

    fn link(&self) -> Option<u32> {
        self.inner.link
    }

    fn split_link(&mut self, right: &mut Self, right_id: u32, cut: u64) {
        let left = &mut *self.inner;
        let right = &mut *right.inner;
        left.node.split_to(&mut right.node, cut);
        right.range = Span {
            low: cut,
            last: left.range.last,
        };
        right.level = left.level;
        right.link = left.link;
        left.range.last = cut - 1;
        left.link = Some(right_id);
    }

    fn grow_link(
        &mut self,
        left: &mut Self,
        right: &mut Self,
        left_id: u32,
        right_id: u32,
        cut: u64,
    ) {
        let parent = &mut *self.inner;
        let left = &mut *left.inner;
        let right = &mut *right.inner;
        parent
            .node
            .grow(&mut left.node, &mut right.node, left_id, right_id, cut);
        left.range = Span {
            low: parent.range.low,
            last: cut - 1,
        };
        left.level = parent.level;
        left.link = Some(right_id);
        right.range = Span {
            low: cut,
            last: parent.range.last,
        };
        right.level = parent.level;
        right.link = None;
        parent.level += 1;
    }

    ghost link_where = { λ s. s.link_where };

    ghost by_range = { refl };

    ghost grows_where = { λ s. N.grows_where s.inner.value.node };

    ghost at_root = { N.at_root };
}

impl<N: Growing + Ordered> Listed for WithLink<N> {
    ghost plain = { N.plain };

    ghost adopts = { N.adopts };

    fn list(&self, low: u64, last: u64, into: &mut Few) {
        self.inner.node.pairs_in(low, last, into);
    }
}

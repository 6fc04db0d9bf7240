//! The wide node: a leaf or a branch, of given widths.
//!
//! A leaf has pairs and no child, a branch has children and no pair. Either lies in the node itself, which has room for the
//! greater of the two, so turning a leaf into a branch or back needs no allocator. A node of 32 pairs and 64 children is
//! some 830 bytes: if callers move it, it should be behind a box (`ks_boxed`).

ghost use Rattle.std.proofs.Props.{props};
ghost use Rattle.ks_wide.specs.Wide.{Fit};
ghost use Rattle.ks_wide.specs.Parts.{is_inner, pairs_of, starts_of};

use crate::parts::Parts;
use crate::widths::Widths;
use ks_keysets::{Edge, Few, Pair, Span};
use ks_node::{Growing, Next, Node, Ordered, Unlinked};
use ks_places::Plain;
use std::alloc::{AllocError, Global};
use std::marker::PhantomData;
use std::mem;

/// A leaf of at most `L` pairs, or a branch of at most `F` children, in the order of the places of `P`.
#[derive(Drop)]
pub struct WNode<P, const L: usize, const F: usize> {
    low: u64,
    parts: Parts<L, F>,
    places: PhantomData<P>,
    ghost fit: { Fit L F low (is_inner parts) (pairs_of parts) (starts_of parts) } by { Prim.hlevel props },
}

impl<P: Widths<L, F>, const L: usize, const F: usize> Node for WNode<P, L, F> {
    ghost use Rattle.std.specs.Prelude.{ℕ, false, true, refl, None};
    ghost use Rattle.ks_keysets.specs.Layout.{wide_layout};
    ghost use Rattle.ks_keysets.specs.declared.Kind.TheVariants.{Inner};
    ghost use Rattle.ks_node.specs.Body.{Body};
    ghost use Rattle.ks_wide.specs.Wide.{wide_can_adopt, wide_cut};
    ghost use Rattle.ks_wide.specs.Parts.{body_of};
    ghost use Rattle.ks_wide.specs.Laws.Fits.{fit_held, fit_adopting, no_range};

    type Places = P;

    const ROOM: u32 = P::ROOM;

    ghost ROOM = { P.ROOM };

    ghost body = { λ n. body_of n.low n.parts };

    ghost ranged = { false };

    ghost cuts_by_range = { false };

    ghost layout = { wide_layout L F };

    ghost branch_kind = { Inner };

    ghost can_adopt_at = { wide_can_adopt F };

    ghost branches_adopt = { true };

    ghost halves_have_room = { true };

    ghost grows_at = { λ _. true };

    ghost can_grow_at = { λ _ _. true };

    ghost cut_at = { wide_cut L F };

    ghost span_at = { λ _ _. None };

    ghost sound = { λ n. n.fit.sound };

    ghost framed = { λ n r e. absurd (no_range r e) };

    ghost held = { λ n. fit_held n.fit };

    ghost has_range = { λ n. refl };

    ghost adopting = { λ _ n. fit_adopting n.fit };

    ghost room_is = { P.suit.room_is };

    ghost grows_as = { λ c h. refl };

    ghost becomes_branch = { refl };

    fn blank(_alloc: Global) -> Result<Self, AllocError> {
        Ok(WNode {
            low: 0,
            parts: Parts::blank(),
            places: PhantomData,
        })
    }

    fn next(&self, place: u64) -> Next {
        self.parts.next(place)
    }

    fn get(&self, place: u64) -> Option<u128> {
        self.parts.get(place)
    }

    fn put(&mut self, place: u64, value: u128) -> Option<u128> {
        self.parts.put(place, value)
    }

    fn del(&mut self, place: u64) -> Option<u128> {
        self.parts.del(place)
    }

    fn is_full(&self) -> bool {
        self.parts.is_full()
    }

    fn is_low(&self) -> bool {
        self.parts.is_low()
    }

    fn is_branch(&self) -> bool {
        self.parts.is_inner()
    }

    fn pairs_held(&self) -> u32 {
        self.parts.pairs_held() as u32
    }

    fn pair_at(&self, n: u32) -> Pair {
        self.parts.pair(n as usize)
    }

    fn grows(&self) -> bool {
        true
    }

    fn only_child(&self) -> Option<u32> {
        self.parts.only_child()
    }

    fn grows_in_place() -> bool {
        false
    }

    fn chained(&self) -> Option<u32> {
        None
    }

    fn span_for(&self, place: u64) -> Option<Span> {
        None
    }

    fn can_adopt(&self, cut: u64) -> bool {
        self.parts.can_add(cut)
    }

    fn adopt(&mut self, cut: u64, id: u32) {
        self.parts.add(cut, id);
    }

    fn edges_held(&self) -> u32 {
        self.parts.children_held() as u32
    }

    fn edge_at(&self, n: u32) -> Edge {
        self.parts.edge(n as usize)
    }

    fn cut(&self, span: Option<Span>) -> u64 {
        self.parts.cut()
    }

    fn fits(&self, right: &Self) -> bool {
        self.parts.fits(&right.parts)
    }

    fn right_of(&self, place: u64) -> Option<u32> {
        self.parts.child_after(place)
    }
}

impl<P: Widths<L, F>, const L: usize, const F: usize> Unlinked for WNode<P, L, F> {
    ghost use Rattle.std.specs.Prelude.{refl, length, nat_lt};
    ghost use Rattle.std.proofs.Common.{inr};
    ghost use Rattle.ks_node.specs.Body.{begins, is_branch_kind};
    ghost use Rattle.ks_node.specs.Laws.Adopts.{not_that};
    ghost use Rattle.ks_node.specs.Laws.Starts.{differ};

    ghost no_link = { λ n. refl };

    ghost no_level = { λ n. refl };

    ghost by_span = { refl };

    ghost none_starts = { λ c cut can. not_that (is_branch_kind c.kind) (begins cut c.starts) (nat_lt (length c.starts) F) can };

    ghost sort = { λ _. inr (λ n. refl, refl, refl) };

    ghost stands = { λ t. absurd (differ refl t) };

    fn split_to(&mut self, right: &mut Self, cut: u64) {
        right.low = cut;
        self.parts.split_to(&mut right.parts, cut);
    }

    fn reach(&mut self, right: &Self) {}

    fn grow(&mut self, left: &mut Self, right: &mut Self, left_id: u32, right_id: u32, cut: u64) {
        mem::swap(&mut self.parts, &mut left.parts);
        left.low = self.low;
        right.low = cut;
        left.parts.split_to(&mut right.parts, cut);
        self.parts = Parts::over(left_id, cut, right_id);
    }

    fn absorb(&mut self, right: &mut Self) {
        self.parts.append(&mut right.parts, right.low);
        right.low = 0;
    }

    fn forget(&mut self, id: u32) {
        self.parts.remove(id);
    }

    fn collapse(&mut self, child: &mut Self) {
        mem::swap(&mut self.parts, &mut child.parts);
        self.low = child.low;
        child.parts = Parts::blank();
        child.low = 0;
    }
}

impl<P: Widths<L, F>, const L: usize, const F: usize> Growing for WNode<P, L, F> {
    ghost use Rattle.std.specs.Prelude.{refl};
    ghost use Rattle.ks_wide.specs.Laws.Fits.{fit_few};

    ghost grows_where = { λ n h. refl };

    ghost at_root = { refl };

    ghost few_edges = { λ n. fit_few n.fit };
}

impl Ordered for WNode<Plain, 16, 64> {
    ghost use Rattle.std.specs.Prelude.{refl};

    ghost plain = { λ k h. refl };

    ghost adopts = { refl };

    fn pairs_in(&self, low: u64, last: u64, into: &mut Few) {
        self.parts.list(low, last, into);
    }
}

//! The node of a leaf-oriented binary search tree: a leaf, a fork or a stem.
//!
//! A leaf has at most two pairs and no child. A full leaf grows wherever it is: it becomes a fork over two leaves. A fork
//! whose right child was merged into the left one is a stem, until it takes that child over. What is stored lies in the
//! node itself, so turning a leaf into a fork or back needs no allocator. A node is 112 bytes: if callers move it, it should
//! be behind a box (`ks_boxed`).

ghost use Rattle.std.proofs.Props.{props};
ghost use Rattle.ks_bst.specs.Bst.{Fit};
ghost use Rattle.ks_bst.specs.Parts.{is_inner, pairs_of, starts_of};

use crate::parts::Parts;
use ks_keysets::{Edge, Pair, Span};
use ks_node::{Next, Node, Unlinked};
use ks_places::Plain;
use std::alloc::{AllocError, Global};
use std::mem;

/// A leaf of at most two pairs, or an inner node with one child or two.
#[derive(Drop)]
pub struct TNode {
    low: u64,
    parts: Parts,
    ghost fit: { Fit low (is_inner parts) (pairs_of parts) (starts_of parts) } by { Prim.hlevel props },
}

impl Node for TNode {
    ghost use Rattle.std.specs.Prelude.{◌≡◌, ℕ, false, true, refl, None};
    ghost use Rattle.ks_keysets.specs.Layout.{bst_layout};
    ghost use Rattle.ks_keysets.specs.declared.Kind.TheVariants.{Inner};
    ghost use Rattle.ks_node.specs.Body.{Body};
    ghost use Rattle.ks_node.specs.Laws.Starts.{differ};
    ghost use Rattle.ks_bst.specs.Bst.{bst_can_adopt, bst_cut};
    ghost use Rattle.ks_bst.specs.Parts.{body_of};
    ghost use Rattle.ks_bst.specs.Laws.Fits.{fit_held, no_range};

    type Places = Plain;

    const ROOM: u32 = 2;

    ghost ROOM = { 2 };

    ghost body = { λ n. body_of n.low n.parts };

    ghost ranged = { false };

    ghost cuts_by_range = { false };

    ghost layout = { bst_layout };

    ghost branch_kind = { Inner };

    ghost can_adopt_at = { bst_can_adopt };

    ghost branches_adopt = { false };

    ghost halves_have_room = { true };

    ghost grows_at = { λ _. true };

    ghost can_grow_at = { λ _ _. true };

    ghost cut_at = { bst_cut };

    ghost span_at = { λ _ _. None };

    ghost sound = { λ n. n.fit.sound };

    ghost framed = { λ n r e. absurd (no_range r e) };

    ghost held = { λ n. fit_held n.fit };

    ghost has_range = { λ n. refl };

    ghost adopting = { λ t. absurd (differ refl t) };

    ghost room_is = { refl };

    ghost grows_as = { λ c h. refl };

    ghost becomes_branch = { refl };

    fn blank(_alloc: Global) -> Result<Self, AllocError> {
        Ok(TNode {
            low: 0,
            parts: Parts::blank(),
        })
    }

    fn next(&self, place: u64) -> Next {
        self.parts.next(place)
    }

    fn get(&self, place: u64) -> Option<u128> {
        self.parts.get(place)
    }

    fn put(&mut self, place: u64, value: u128) -> Option<u128> {
        self.parts.put(place, value)
    }

    fn del(&mut self, place: u64) -> Option<u128> {
        self.parts.del(place)
    }

    fn is_full(&self) -> bool {
        !self.parts.is_inner() && self.parts.pairs_held() == 2
    }

    fn is_low(&self) -> bool {
        !self.parts.is_inner() && self.parts.pairs_held() <= 1
    }

    fn is_branch(&self) -> bool {
        self.parts.is_inner()
    }

    fn pairs_held(&self) -> u32 {
        self.parts.pairs_held() as u32
    }

    fn pair_at(&self, n: u32) -> Pair {
        self.parts.pair(n as usize)
    }

    fn grows(&self) -> bool {
        true
    }

    fn only_child(&self) -> Option<u32> {
        self.parts.only_child()
    }

    fn grows_in_place() -> bool {
        true
    }

    fn chained(&self) -> Option<u32> {
        None
    }

    fn span_for(&self, _place: u64) -> Option<Span> {
        None
    }

    fn can_adopt(&self, _cut: u64) -> bool {
        false
    }

    // No node adopts: no caller may call this.
    fn adopt(&mut self, _cut: u64, _id: u32)
        ensures { self.new ≡ self.old }
    {}

    fn edges_held(&self) -> u32 {
        self.parts.children()
    }

    fn edge_at(&self, n: u32) -> Edge {
        self.parts.edge(n)
    }

    fn cut(&self, _span: Option<Span>) -> u64 {
        self.parts.cut()
    }

    fn fits(&self, right: &Self) -> bool {
        !self.parts.is_inner()
            && !right.parts.is_inner()
            && self.parts.pairs_held() + right.parts.pairs_held() <= 2
    }

    fn right_of(&self, place: u64) -> Option<u32> {
        self.parts.right_of(place)
    }
}

impl Unlinked for TNode {
    ghost use Rattle.std.specs.Prelude.{refl};
    ghost use Rattle.ks_node.specs.Laws.Starts.{differ};
    ghost use Rattle.ks_bst.specs.Laws.Fits.{fit_leaf};

    ghost no_link = { λ n. refl };

    ghost no_level = { λ n. refl };

    ghost by_span = { refl };

    ghost none_starts = { λ c cut can. absurd (differ refl can) };

    ghost sort = { λ e. absurd (differ e refl) };

    ghost stands = { λ _. (λ n. record { can = refl; bare = fit_leaf n.fit }, refl) };

    fn split_to(&mut self, right: &mut Self, cut: u64) {
        right.low = cut;
        self.parts.split_to(&mut right.parts, cut);
    }

    fn reach(&mut self, _right: &Self) {}

    fn grow(&mut self, left: &mut Self, right: &mut Self, left_id: u32, right_id: u32, cut: u64) {
        mem::swap(&mut self.parts, &mut left.parts);
        left.low = self.low;
        right.low = cut;
        left.parts.split_to(&mut right.parts, cut);
        self.parts = Parts::Fork {
            left: left_id,
            cut,
            right: right_id,
        };
    }

    fn absorb(&mut self, right: &mut Self) {
        self.parts.append(&mut right.parts);
        right.low = 0;
    }

    fn forget(&mut self, id: u32) {
        self.parts.forget(id);
    }

    fn collapse(&mut self, child: &mut Self) {
        mem::swap(&mut self.parts, &mut child.parts);
        self.low = child.low;
        child.parts = Parts::blank();
        child.low = 0;
    }
}

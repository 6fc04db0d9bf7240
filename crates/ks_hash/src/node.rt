//! The hash node: a bucket of pairs, or a directory of equal slices.
//!
//! A bucket may have an edge of its own, to the node that took over its upper places. A directory has no pair: its
//! slices cover all places. Either lies in the node itself, which has room for the greater of the two, so turning a
//! bucket into a directory or back needs no allocator. A node is 304 bytes: if callers move it, it should be behind a
//! box (`ks_boxed`).

ghost use Rattle.std.proofs.Props.{props};
ghost use Rattle.ks_hash.specs.Hash.{Fit};
ghost use Rattle.ks_hash.specs.Parts.{is_directory, pairs_of, own_of, slices_of};

use crate::parts::Parts;
use crate::slices::{
    SMALLEST, Starts, begins_run, child_at, child_past, run_around, runs_of, sole_child,
};
use crate::spans::{begins_own, cut_by, next_by, own_above};
use ks_keysets::{Edge, Pair, Span};
use ks_node::{Growing, Next, Node, Unlinked, edge_in};
use ks_places::Golden;
use std::alloc::{AllocError, Global};
use std::mem;

/// A bucket or a directory.
#[derive(Drop)]
pub struct HNode {
    low: u64,
    parts: Parts,
    ghost fit: { Fit low (is_directory parts) (pairs_of parts) (own_of parts)
        (slices_of parts) } by { Prim.hlevel props },
}

/// The middle of all places.
const MIDDLE: u64 = 0x8000_0000_0000_0000;

impl HNode {
    ghost use Rattle.std.specs.Prelude.{◌≡◌};
    ghost use Rattle.ks_hash.specs.Parts.{parts_starts};

    /// The edges by where they start.
    fn starts(&self) -> Starts
        ensures { result.items ≡ parts_starts self.now.parts }
    {
        if self.parts.is_directory() {
            runs_of(self.parts.slices())
        } else {
            let mut starts = Starts::new();
            if let Some(own) = self.parts.own() {
                starts.push(own);
            }
            starts
        }
    }
}

impl Node for HNode {
    ghost use Rattle.std.specs.Prelude.{ℕ, false, true, refl};
    ghost use Rattle.ks_keysets.specs.Layout.{hash_layout};
    ghost use Rattle.ks_keysets.specs.declared.Kind.TheVariants.{Directory};
    ghost use Rattle.ks_node.specs.Body.{Body};
    ghost use Rattle.ks_hash.specs.Hash.{hash_can_adopt, hash_grows, hash_can_grow, hash_cut, hash_span};
    ghost use Rattle.ks_hash.specs.Parts.{body_of};
    ghost use Rattle.ks_hash.specs.Laws.Fits.{fit_held, no_range};
    ghost use Rattle.ks_node.specs.Laws.Starts.{differ};

    type Places = Golden;

    const ROOM: u32 = 8;

    ghost ROOM = { 8 };

    ghost body = { λ n. body_of n.low n.parts };

    ghost ranged = { false };

    ghost cuts_by_range = { false };

    ghost layout = { hash_layout };

    ghost branch_kind = { Directory };

    ghost can_adopt_at = { hash_can_adopt };

    ghost branches_adopt = { false };

    ghost halves_have_room = { false };

    ghost grows_at = { hash_grows };

    ghost can_grow_at = { hash_can_grow };

    ghost cut_at = { hash_cut };

    ghost span_at = { hash_span };

    ghost sound = { λ n. n.fit.sound };

    ghost framed = { λ n r e. absurd (no_range r e) };

    ghost held = { λ n. fit_held n.fit };

    ghost has_range = { λ n. refl };

    ghost adopting = { λ promised. absurd (differ refl promised) };

    ghost room_is = { refl };

    ghost grows_as = { λ c h. refl };

    ghost becomes_branch = { refl };

    fn blank(_alloc: Global) -> Result<Self, AllocError> {
        Ok(HNode {
            low: 0,
            parts: Parts::blank(),
        })
    }

    fn next(&self, place: u64) -> Next {
        if self.parts.is_directory() {
            Next::Go(child_at(self.parts.slices(), place))
        } else {
            next_by(self.parts.own(), place)
        }
    }

    fn get(&self, place: u64) -> Option<u128> {
        self.parts.get(place)
    }

    fn put(&mut self, place: u64, value: u128) -> Option<u128> {
        self.parts.put(place, value)
    }

    fn del(&mut self, place: u64) -> Option<u128> {
        self.parts.del(place)
    }

    fn is_full(&self) -> bool {
        !self.parts.is_directory() && self.parts.pairs_held() == 8
    }

    fn is_low(&self) -> bool {
        !self.parts.is_directory() && self.parts.pairs_held() <= 4
    }

    fn is_branch(&self) -> bool {
        self.parts.is_directory()
    }

    fn pairs_held(&self) -> u32 {
        self.parts.pairs_held() as u32
    }

    fn pair_at(&self, n: u32) -> Pair {
        self.parts.pair(n as usize)
    }

    fn edges_held(&self) -> u32 {
        self.starts().len() as u32
    }

    fn edge_at(&self, n: u32) -> Edge {
        edge_in(self.starts().as_slice(), n as usize)
    }

    fn grows(&self) -> bool {
        self.parts.is_directory() || own_above(self.parts.own(), MIDDLE)
    }

    fn grows_in_place() -> bool {
        false
    }

    fn only_child(&self) -> Option<u32> {
        if self.parts.is_directory() {
            sole_child(self.parts.slices())
        } else {
            None
        }
    }

    fn chained(&self) -> Option<u32> {
        if self.parts.is_directory() {
            return None;
        }
        match self.parts.own() {
            Some(own) => Some(own.node),
            None => None,
        }
    }

    fn span_for(&self, place: u64) -> Option<Span> {
        if self.parts.is_directory() {
            Some(run_around(self.parts.slices(), place))
        } else {
            None
        }
    }

    fn cut(&self, span: Option<Span>) -> u64 {
        let fifth = self.parts.pair(4).place;
        match span {
            Some(span) => cut_by(&span, self.parts.own(), fifth),
            None => fifth,
        }
    }

    fn can_adopt(&self, cut: u64) -> bool {
        if self.parts.is_directory() {
            !begins_run(self.parts.slices(), cut) && cut % SMALLEST == 0
        } else {
            !begins_own(self.parts.own(), cut)
        }
    }

    fn adopt(&mut self, cut: u64, id: u32) {
        if self.parts.is_directory() {
            self.parts.adopt(cut, id);
        } else {
            self.parts.lead(cut, id);
        }
    }

    fn right_of(&self, place: u64) -> Option<u32> {
        if self.parts.is_directory() {
            child_past(self.parts.slices(), place)
        } else {
            None
        }
    }

    fn fits(&self, right: &Self) -> bool {
        !self.parts.is_directory()
            && !right.parts.is_directory()
            && self.parts.pairs_held() + right.parts.pairs_held() <= 8
    }
}

impl Unlinked for HNode {
    ghost use Rattle.std.specs.Prelude.{refl, not, nat_eq, ◌%◌, ◌||◌};
    ghost use Rattle.std.proofs.Common.{inl};
    ghost use Rattle.ks_node.specs.Body.{begins, is_branch_kind};
    ghost use Rattle.ks_node.specs.Laws.Adopts.{not_this};
    ghost use Rattle.ks_node.specs.Laws.Starts.{differ};
    ghost use Rattle.ks_hash.specs.Slices.{smallest};
    ghost use Rattle.ks_hash.specs.Laws.Fits.{fit_adopts};

    ghost no_link = { λ n. refl };

    ghost no_level = { λ n. refl };

    ghost by_span = { refl };

    ghost none_starts = { λ c cut can. not_this (begins cut c.starts) (not (is_branch_kind c.kind) || nat_eq (cut % smallest) 0) can };

    ghost sort = { λ _. inl (λ n span o full suits is good. fit_adopts n.fit span o full suits) };

    ghost stands = { λ t. absurd (differ refl t) };

    fn split_to(&mut self, right: &mut Self, cut: u64) {
        right.low = cut;
        self.parts.split_to(&mut right.parts, cut);
    }

    fn reach(&mut self, right: &Self) {}

    fn grow(&mut self, left: &mut Self, right: &mut Self, left_id: u32, right_id: u32, cut: u64) {
        mem::swap(&mut self.parts, &mut left.parts);
        left.low = self.low;
        right.low = cut;
        left.parts.split_to(&mut right.parts, cut);
        self.parts = Parts::over(left_id, right_id);
    }

    fn absorb(&mut self, right: &mut Self) {
        self.parts.append(&mut right.parts);
        right.low = 0;
    }

    fn forget(&mut self, id: u32) {
        self.parts.forget(id);
    }

    fn collapse(&mut self, child: &mut Self) {
        mem::swap(&mut self.parts, &mut child.parts);
        self.low = child.low;
        child.parts = Parts::blank();
        child.low = 0;
    }
}

impl Growing for HNode {
    ghost use Rattle.std.specs.Prelude.{refl};
    ghost use Rattle.ks_hash.specs.Laws.Fits.{fit_grows, fit_few};

    ghost grows_where = { λ n h. fit_grows n.fit h };

    ghost at_root = { refl };

    ghost few_edges = { λ n. fit_few n.fit };
}

#[cfg(test)]
mod tests;

//! `ListNode`: eight pairs, and an edge of its own from a cut to the last place.

ghost use Rattle.std.proofs.Props.{props};
ghost use Rattle.ks_list.specs.Listed.{Fit};

use crate::pairs::{append_pairs, delete_pair, move_pairs, put_pair, value_of};
use ks_block::Block;
use ks_keysets::{Edge, Pair, Span};
use ks_node::{Next, Node, Start, Unlinked};
use ks_places::Plain;
use std::alloc::{AllocError, Global};

/// The most pairs of a list node.
const ROOM: usize = 8;

/// A sorted list of pairs, and the node that has the places above, if there is one.
#[derive(Drop)]
pub struct ListNode {
    low: u64,
    own: Option<Start>,
    pairs: Block,
    ghost fit: { Fit low own pairs.pairs pairs.room } by { Prim.hlevel props },
}

impl Node for ListNode {
    ghost use Rattle.std.specs.Prelude.{true, false, refl, None};
    ghost use Rattle.ks_keysets.specs.declared.Kind.TheVariants.{Inner};
    ghost use Rattle.ks_keysets.specs.Layout.{list_layout};
    ghost use Rattle.ks_list.specs.Listed.{list_body, list_can_adopt, list_cut};
    ghost use Rattle.ks_list.specs.Laws.Fits.{fit_held, no_range, differ};

    type Places = Plain;

    const ROOM: u32 = 8;

    ghost ROOM = { 8 };

    ghost body = { λ n. list_body n.low n.own n.pairs.pairs };

    ghost ranged = { false };

    ghost cuts_by_range = { false };

    ghost layout = { list_layout };

    ghost branch_kind = { Inner };

    ghost can_adopt_at = { list_can_adopt };

    ghost branches_adopt = { false };

    ghost halves_have_room = { true };

    ghost grows_at = { λ _. false };

    ghost can_grow_at = { λ _ _. false };

    ghost cut_at = { list_cut };

    ghost span_at = { λ _ _. None };

    ghost sound = { λ n. n.fit.sound };

    ghost framed = { λ n r is. absurd (no_range is) };

    ghost held = { λ n. fit_held n.fit };

    ghost has_range = { λ n. refl };

    ghost adopting = { λ promised. absurd (differ promised) };

    ghost room_is = { refl };

    ghost grows_as = { λ c grows. absurd (differ grows) };

    ghost becomes_branch = { refl };

    fn blank(alloc: Global) -> Result<Self, AllocError> {
        Ok(ListNode {
            low: 0,
            own: None,
            pairs: Block::make(alloc, ROOM)?,
        })
    }

    fn next(&self, place: u64) -> Next {
        match self.own {
            Some(edge) if edge.low <= place => Next::Go(edge.node),
            _ => Next::Here,
        }
    }

    fn get(&self, place: u64) -> Option<u128> {
        value_of(&self.pairs, place)
    }

    fn put(&mut self, place: u64, value: u128) -> Option<u128> {
        put_pair(&mut self.pairs, place, value)
    }

    fn del(&mut self, place: u64) -> Option<u128> {
        delete_pair(&mut self.pairs, place)
    }

    fn is_full(&self) -> bool {
        self.pairs.len() == ROOM
    }

    fn is_low(&self) -> bool {
        2 * self.pairs.len() <= ROOM
    }

    fn is_branch(&self) -> bool {
        false
    }

    fn pairs_held(&self) -> u32 {
        self.pairs.len() as u32
    }

    fn pair_at(&self, n: u32) -> Pair {
        let (place, value) = self.pairs.get(n as usize);
        Pair { place, value }
    }

    fn edges_held(&self) -> u32 {
        match self.own {
            Some(_) => 1,
            None => 0,
        }
    }

    fn edge_at(&self, _n: u32) -> Edge {
        let Start { low, node } = self.own.unwrap_or_default();
        Edge {
            span: Span {
                low,
                last: u64::MAX,
            },
            node,
        }
    }

    fn grows(&self) -> bool {
        false
    }

    fn grows_in_place() -> bool {
        false
    }

    fn only_child(&self) -> Option<u32> {
        None
    }

    fn chained(&self) -> Option<u32> {
        match self.own {
            Some(edge) => Some(edge.node),
            None => None,
        }
    }

    fn span_for(&self, _place: u64) -> Option<Span> {
        None
    }

    fn cut(&self, _span: Option<Span>) -> u64 {
        let (place, _) = self.pairs.get(ROOM / 2);
        place
    }

    fn can_adopt(&self, cut: u64) -> bool {
        match self.own {
            Some(edge) => edge.low != cut,
            None => true,
        }
    }

    fn adopt(&mut self, cut: u64, id: u32) {
        self.own = Some(Start { low: cut, node: id });
    }

    fn right_of(&self, _place: u64) -> Option<u32> {
        None
    }

    fn fits(&self, right: &Self) -> bool {
        self.pairs.len() + right.pairs.len() <= ROOM
    }
}

impl Unlinked for ListNode {
    ghost use Rattle.std.specs.Prelude.{◌≡◌, refl};
    ghost use Rattle.std.proofs.Common.{inl};
    ghost use Rattle.std.proofs.lemmas.Bool.{not-true};
    ghost use Rattle.ks_node.specs.Body.{begins};
    ghost use Rattle.ks_list.specs.Laws.Fits.{fit_adopts, differ};

    ghost no_link = { λ n. refl };

    ghost no_level = { λ n. refl };

    ghost by_span = { refl };

    ghost none_starts = { λ c cut can. not-true (begins cut c.starts) can };

    ghost sort = { λ e. inl (λ n span o full suits is good. fit_adopts n.fit o full) };

    ghost stands = { λ t. absurd (differ t) };

    fn split_to(&mut self, right: &mut Self, cut: u64) {
        move_pairs(&mut self.pairs, &mut right.pairs, cut);
        right.low = cut;
        right.own = self.own;
        self.own = None;
    }

    fn reach(&mut self, _right: &Self) {}

    // A list node never becomes a branch: no caller may call this.
    fn grow(
        &mut self,
        _left: &mut Self,
        _right: &mut Self,
        _left_id: u32,
        _right_id: u32,
        _cut: u64,
    )
        ensures branch { self.new ≡ self.old }
        ensures left { _left.new ≡ _left.old }
        ensures right { _right.new ≡ _right.old }
    {}

    fn absorb(&mut self, right: &mut Self) {
        append_pairs(&mut self.pairs, &mut right.pairs);
        self.own = right.own;
        right.own = None;
        right.low = 0;
    }

    // It is no branch: it leads to no child that it could forget, or become.
    fn forget(&mut self, _id: u32)
        ensures { self.new ≡ self.old }
    {}

    fn collapse(&mut self, _child: &mut Self)
        ensures parent { self.new ≡ self.old }
        ensures child { _child.new ≡ _child.old }
    {}
}

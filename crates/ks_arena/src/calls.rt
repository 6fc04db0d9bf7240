//! What makes a call ready to be decided. The functions compute nothing: their contracts are laws.
ghost use Rattle.std.specs.Prelude.{ℕ, ◌≡◌, ◌≢◌, ◌≤◌, List, IsTrue, Some, None, true, false};
ghost use Rattle.ks_keysets.specs.Keyset.{InInset};
ghost use Rattle.ks_history.specs.declared.Event.{Event as Happening};
ghost use Rattle.ks_history.specs.declared.Op.TheVariants.{Add, Del, Get, Part, Put, Swap};
ghost use Rattle.ks_history.specs.declared.Reply.TheVariants.{Full, Listed, Nothing, Value};
ghost use Rattle.ks_history.specs.Map.{told};
ghost use Rattle.ks_history.specs.Trace.{graph_after};
ghost use Rattle.ks_node.specs.declared.start.Next.TheVariants.{Here};
ghost use Rattle.ks_node.specs.Body.{is_branch, next_at, value_at};
ghost use Rattle.ks_node.specs.Effect.{pairs_del, pairs_put, pairs_within};
ghost use Rattle.ks_node.specs.Room.{is_full};
ghost use Rattle.ks_arena.specs.declared.held.Held.{Held as Hand};
ghost use Rattle.ks_arena.specs.Sound.{sort_of};
ghost use Rattle.ks_arena.specs.Clauses.{Matches};
ghost use Rattle.ks_arena.specs.Of.{Holds, IsInside, IsPassOf, IsLiveAndCurrent, IsReadyAt, IsReadyOnce, StaysFullFor, WasRefusedAt};

use crate::arena::Arena;
use crate::held::{Held, Pass};
use crate::laws::sound_law;
use ks_flow::Discipline;
use ks_keysets::Few;
use ks_node::{Node, node_law};

/// The inset of the root has every place.
pub fn root_law<N: Node>(place: u64)
    ensures { (root : Hand N) (h : List Happening) → root.node ≡ 0 → root.live ≡ true →
        Matches (sort_of N.layout N.ranged) N.body h root → InInset (graph_after h) root.node place }
{}

impl<N: Node, D: Discipline> Arena<N, D> {
    /// A Get may be decided at a live node that the caller holds, whose inset has the place, and where the search for it
    /// ends. Its reply is what the body has there.
    pub fn get_law(&self, pass: &Pass<N, D>, held: &Held<N>, place: u64, found: Option<u128>)
        requires pass { IsPassOf self.now pass.now }
        requires holds { Holds pass.now held.now.node }
        requires body { IsLiveAndCurrent self.now pass.now held.now }
        requires inside { IsInside pass.now held.now.node place }
        requires here { next_at (N.body held.now.body) place ≡ Here }
        requires found { found ≡ value_at (N.body held.now.body).pairs place }
        ensures { IsReadyAt self.now pass.now held.now (Get place) (told found) }
    {
        sound_law::<D>();
        node_law(&held.body);
    }

    /// A Part may be decided at a live node that the caller holds, whose inset has all its places, and where the search for
    /// each of them ends. Its reply is the pairs that the body has there.
    pub fn part_law(&self, pass: &Pass<N, D>, held: &Held<N>, low: u64, last: u64, pairs: &Few)
        requires pass { IsPassOf self.now pass.now }
        requires holds { Holds pass.now held.now.node }
        requires body { IsLiveAndCurrent self.now pass.now held.now }
        requires inside { (p : ℕ) → low ≤ p → p ≤ last → IsInside pass.now held.now.node p }
        requires here { (p : ℕ) → low ≤ p → p ≤ last → next_at (N.body held.now.body) p ≡ Here }
        requires pairs { pairs.now ≡ pairs_within low last (N.body held.now.body).pairs }
        ensures { IsReadyAt self.now pass.now held.now (Part low last) (Listed pairs.now) }
    {
        sound_law::<D>();
        node_law(&held.body);
    }

    /// If a Get may be decided, a Put may be once the value is put at the place in the body. Its reply is what was there
    /// before.
    pub fn put_law(&self, pass: &Pass<N, D>, held: &Held<N>, place: u64, value: u128)
        requires pass { IsPassOf self.now pass.now }
        requires holds { Holds pass.now held.now.node }
        requires body { IsLiveAndCurrent self.now pass.now held.now }
        requires inside { IsInside pass.now held.now.node place }
        requires here { next_at (N.body held.now.body) place ≡ Here }
        ensures { let pairs = (N.body held.now.body).pairs in
            IsReadyOnce self.now pass.now held.now (pairs_put place value pairs) (Put place value)
            (told (value_at pairs place)) }
    {
        sound_law::<D>();
        node_law(&held.body);
    }

    /// If a Get may be decided, a Del may be once the pair of the place is deleted from the body. Its reply is what was
    /// there before.
    pub fn del_law(&self, pass: &Pass<N, D>, held: &Held<N>, place: u64)
        requires pass { IsPassOf self.now pass.now }
        requires holds { Holds pass.now held.now.node }
        requires body { IsLiveAndCurrent self.now pass.now held.now }
        requires inside { IsInside pass.now held.now.node place }
        requires here { next_at (N.body held.now.body) place ≡ Here }
        ensures { let pairs = (N.body held.now.body).pairs in
            IsReadyOnce self.now pass.now held.now (pairs_del place pairs) (Del place) (told (value_at pairs place)) }
    {
        sound_law::<D>();
        node_law(&held.body);
    }

    /// If a Get may be decided, an Add may be. If the body has a value at the place, that is the reply and the body stays;
    /// else the value is put there.
    pub fn add_law(&self, pass: &Pass<N, D>, held: &Held<N>, place: u64, value: u128)
        requires pass { IsPassOf self.now pass.now }
        requires holds { Holds pass.now held.now.node }
        requires body { IsLiveAndCurrent self.now pass.now held.now }
        requires inside { IsInside pass.now held.now.node place }
        requires here { next_at (N.body held.now.body) place ≡ Here }
        ensures stays { (found : ℕ) → value_at (N.body held.now.body).pairs place ≡ Some found →
            IsReadyAt self.now pass.now held.now (Add place value) (Value found) }
        ensures adds { let pairs = (N.body held.now.body).pairs in value_at pairs place ≡ None →
            IsReadyOnce self.now pass.now held.now (pairs_put place value pairs) (Add place value) Nothing }
    {
        sound_law::<D>();
        node_law(&held.body);
    }

    /// If a Get may be decided, a Swap may be. Its reply is what was at the place before. If that is the old value, the new
    /// one is put there; else the body stays.
    pub fn swap_law(&self, pass: &Pass<N, D>, held: &Held<N>, place: u64, old: u128, new: u128)
        requires pass { IsPassOf self.now pass.now }
        requires holds { Holds pass.now held.now.node }
        requires body { IsLiveAndCurrent self.now pass.now held.now }
        requires inside { IsInside pass.now held.now.node place }
        requires here { next_at (N.body held.now.body) place ≡ Here }
        ensures swaps { let pairs = (N.body held.now.body).pairs in value_at pairs place ≡ Some old →
            IsReadyOnce self.now pass.now held.now (pairs_put place new pairs) (Swap place old new) (Value old) }
        ensures stays { let pairs = (N.body held.now.body).pairs in value_at pairs place ≢ Some old →
            IsReadyAt self.now pass.now held.now (Swap place old new) (told (value_at pairs place)) }
    {
        sound_law::<D>();
        node_law(&held.body);
    }

    /// If a Get may be decided, a Put or an Add may be refused if the body is that of no branch, is full and has no
    /// pair at the place, and each node was at some moment not free since a moment after which the caller has made no
    /// call. The node stays full for the place while others act.
    pub fn full_law(&self, pass: &Pass<N, D>, held: &Held<N>, place: u64, value: u128)
        requires pass { IsPassOf self.now pass.now }
        requires holds { Holds pass.now held.now.node }
        requires body { IsLiveAndCurrent self.now pass.now held.now }
        requires inside { IsInside pass.now held.now.node place }
        requires here { next_at (N.body held.now.body) place ≡ Here }
        requires no_branch { is_branch (N.body held.now.body) ≡ false }
        requires full { IsTrue (is_full N.layout (N.body held.now.body)) }
        requires absent { value_at (N.body held.now.body).pairs place ≡ None }
        requires none_free { WasRefusedAt self.now pass.now place }
        ensures put { IsReadyAt self.now pass.now held.now (Put place value) Full }
        ensures add { IsReadyAt self.now pass.now held.now (Add place value) Full }
        ensures still { StaysFullFor self.now pass.now held.now.node place }
    {
        sound_law::<D>();
        node_law(&held.body);
    }
}

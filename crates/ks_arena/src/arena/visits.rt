//! What a search reads of a node whose body it leaves in its slot, and how it goes on: it releases the node, or takes the body
//! out.
ghost use Rattle.std.specs.Prelude.{ℕ, ◌≡◌, ◌+◌, ◌∷◌, [], Some};
ghost use Rattle.atomic_table.specs.Table.{rest};
ghost use Rattle.ks_history.specs.Own.{drop_one};
ghost use Rattle.ks_history.specs.declared.Event.TheVariants.{Give};
ghost use Rattle.ks_node.specs.Body.{is_branch, next_at, only_child_of};
ghost use Rattle.ks_node.specs.Room.{is_full, is_low};
ghost use Rattle.ks_arena.specs.Clauses.{hand_of, mine_of, seen_of};
ghost use Rattle.ks_arena.specs.Of.{Adds, IsPassOf, IsCurrent, RestStays, RestStaysBut, SameCaller, caller_of, steps_of};
ghost use Rattle.ks_arena.specs.Visits.{held_at, IsLast, IsUnderLast, LiesInSlot, SlotsStayBut};

use crate::arena::Arena;
use crate::held::{Held, Pass, Visited};
use crate::plays::{Brings, Gives};
use crate::spots::turn_at;
use crate::view::View;
use atomic_table::Seat;
use ks_flow::Discipline;
use ks_keysets::Span;
use ks_node::{Next, Node, Ranged};
use std::snapshot::Snapshot;

impl<N: Node, D: Discipline> Arena<N, D> {
    /// The body in the slot that the seat took last, for the proofs.
    #[inline(always)]
    pub(crate) fn body_in_slot(&self, seat: &mut Seat<Option<N>, View>, slot: usize) -> Snapshot<N>
        requires may { (seat.old.table_id ≡ self.now.table.shared.table_id)
            × ((body : N) × (seat.old.me.1 ≡ (slot, Some body) ∷ rest seat.old.me.1)) }
        ensures seat { (seat.new.table_id ≡ seat.old.table_id) × (seat.new.id ≡ seat.old.id) }
        ensures same { seat.new.me ≡ seat.old.me }
        ensures body { seat.old.me.1 ≡ (slot, Some result.value) ∷ rest seat.old.me.1 }
    {
        match seat.slot_mut(&self.table.shared, slot) {
            Some(body) => Snapshot::of(body),
            None => unreachable!(),
        }
    }

    /// Where the search for a place goes on from the node that was taken last.
    #[inline(always)]
    pub fn next(&self, pass: &mut Pass<N, D>, visited: &Visited<N>, place: u64) -> Next
        requires pass { IsPassOf self.now pass.old }
        requires last { IsLast pass.old visited.now.node }
        requires lies { LiesInSlot pass.old visited.now }
        ensures same { pass.new ≡ pass.old }
        ensures next { result ≡ next_at (N.body visited.now.body.value) place }
    {
        match pass
            .seat
            .slot_mut(&self.table.shared, visited.node as usize)
        {
            Some(body) => body.next(place),
            None => unreachable!(),
        }
    }

    /// Whether the node that was taken last is full.
    #[inline(always)]
    pub fn is_full(&self, pass: &mut Pass<N, D>, visited: &Visited<N>) -> bool
        requires pass { IsPassOf self.now pass.old }
        requires last { IsLast pass.old visited.now.node }
        requires lies { LiesInSlot pass.old visited.now }
        ensures same { pass.new ≡ pass.old }
        ensures full { result ≡ is_full N.layout (N.body visited.now.body.value) }
    {
        match pass
            .seat
            .slot_mut(&self.table.shared, visited.node as usize)
        {
            Some(body) => body.is_full(),
            None => unreachable!(),
        }
    }

    /// Whether the node that was taken last is low.
    #[inline(always)]
    pub fn is_low(&self, pass: &mut Pass<N, D>, visited: &Visited<N>) -> bool
        requires pass { IsPassOf self.now pass.old }
        requires last { IsLast pass.old visited.now.node }
        requires lies { LiesInSlot pass.old visited.now }
        ensures same { pass.new ≡ pass.old }
        ensures low { result ≡ is_low N.layout (N.body visited.now.body.value) }
    {
        match pass
            .seat
            .slot_mut(&self.table.shared, visited.node as usize)
        {
            Some(body) => body.is_low(),
            None => unreachable!(),
        }
    }

    /// Whether the node that was taken last is a branch.
    #[inline(always)]
    pub fn is_branch(&self, pass: &mut Pass<N, D>, visited: &Visited<N>) -> bool
        requires pass { IsPassOf self.now pass.old }
        requires last { IsLast pass.old visited.now.node }
        requires lies { LiesInSlot pass.old visited.now }
        ensures same { pass.new ≡ pass.old }
        ensures branch { result ≡ is_branch (N.body visited.now.body.value) }
    {
        match pass
            .seat
            .slot_mut(&self.table.shared, visited.node as usize)
        {
            Some(body) => body.is_branch(),
            None => unreachable!(),
        }
    }

    /// The child of the node that was taken last, if all its edges lead to it.
    #[inline(always)]
    pub fn only_child(&self, pass: &mut Pass<N, D>, visited: &Visited<N>) -> Option<u32>
        requires pass { IsPassOf self.now pass.old }
        requires last { IsLast pass.old visited.now.node }
        requires lies { LiesInSlot pass.old visited.now }
        ensures same { pass.new ≡ pass.old }
        ensures child { result ≡ only_child_of (N.body visited.now.body.value) }
    {
        match pass
            .seat
            .slot_mut(&self.table.shared, visited.node as usize)
        {
            Some(body) => body.only_child(),
            None => unreachable!(),
        }
    }

    /// Takes the body of the node that was taken last out of its slot.
    #[inline(always)]
    pub fn lift(&self, pass: &mut Pass<N, D>, visited: Visited<N>) -> Held<N>
        requires pass { IsPassOf self.now pass.old }
        requires last { IsLast pass.old visited.node }
        requires lies { LiesInSlot pass.old visited }
        ensures pass { IsPassOf self.now pass.new }
        ensures caller { SameCaller pass.old pass.new }
        ensures seen { seen_of pass.new ≡ seen_of pass.old }
        ensures held { result ≡ held_at visited }
        ensures rest { RestStays self.now pass.old pass.new }
        ensures slots { SlotsStayBut visited.node pass.old pass.new }
        ensures cost { steps_of pass.new ≡ steps_of pass.old }
    {
        let Visited { node, body: _ } = visited;
        let body = self.exchange(&mut pass.seat, node as usize, None).unwrap();
        Held {
            node,
            body,
            live: true,
        }
    }

    /// Takes the body of the node that was taken before the last, of two, out of its slot.
    #[inline(always)]
    pub fn lift_under(&self, pass: &mut Pass<N, D>, visited: Visited<N>) -> Held<N>
        requires pass { IsPassOf self.now pass.old }
        requires under { IsUnderLast pass.old visited.node }
        requires lies { LiesInSlot pass.old visited }
        ensures pass { IsPassOf self.now pass.new }
        ensures caller { SameCaller pass.old pass.new }
        ensures seen { seen_of pass.new ≡ seen_of pass.old }
        ensures held { result ≡ held_at visited }
        ensures rest { RestStays self.now pass.old pass.new }
        ensures slots { SlotsStayBut visited.node pass.old pass.new }
        ensures cost { steps_of pass.new ≡ steps_of pass.old }
    {
        let Visited { node, body: _ } = visited;
        pass.seat.turn();
        let body = self.exchange(&mut pass.seat, node as usize, None).unwrap();
        pass.seat.turn();
        Held {
            node,
            body,
            live: true,
        }
    }

    /// Releases the node, whose body has stayed in its slot.
    #[inline(always)]
    pub fn leave(&self, pass: &mut Pass<N, D>, visited: Visited<N>)
        requires pass { IsPassOf self.now pass.old }
        requires lies { LiesInSlot pass.old visited }
        requires body { IsCurrent self.now pass.old (held_at visited) }
        ensures pass { IsPassOf self.now pass.new }
        ensures caller { SameCaller pass.old pass.new }
        ensures gave { Adds (Give (caller_of pass.old) visited.node) pass.old pass.new }
        ensures hand { hand_of pass.new ≡ drop_one visited.node (hand_of pass.old) }
        ensures mine { mine_of pass.new ≡ Give (caller_of pass.old) visited.node ∷ mine_of pass.old }
        ensures rest { RestStaysBut self.now visited.node pass.old pass.new }
        ensures slots { SlotsStayBut visited.node pass.old pass.new }
        ensures cost { steps_of pass.new ≡ steps_of pass.old + 2 }
    {
        let Visited { node, body: _ } = visited;
        let turn = turn_at(node as usize);
        self.load::<Brings<D>>(&mut pass.seat, &mut pass.steps, turn);
        self.store::<Gives<D>>(&mut pass.seat, &mut pass.steps, turn, 1);
    }
}

impl<N: Ranged, D: Discipline> Arena<N, D> {
    /// The range of the node that was taken last.
    #[inline(always)]
    pub fn range(&self, pass: &mut Pass<N, D>, visited: &Visited<N>) -> Span
        requires pass { IsPassOf self.now pass.old }
        requires last { IsLast pass.old visited.now.node }
        requires lies { LiesInSlot pass.old visited.now }
        ensures same { pass.new ≡ pass.old }
        ensures range { (N.body visited.now.body.value).range ≡ Some result }
    {
        match pass
            .seat
            .slot_mut(&self.table.shared, visited.node as usize)
        {
            Some(body) => body.range(),
            None => unreachable!(),
        }
    }
}

//! Taking nodes and releasing them, and what is decided and shaped meanwhile.
ghost use Rattle.std.specs.Prelude.{◌≡◌, ◌+◌, ◌%◌, ◌∷◌};
ghost use Rattle.ks_arena.specs.declared.view.Mark.TheVariants.{Freeing};
ghost use Rattle.ks_history.specs.Own.{drop_one};
ghost use Rattle.ks_history.specs.declared.Event.TheVariants.{Call, Give, Shape};
ghost use Rattle.ks_arena.specs.Clauses.{give_mark, give_steps, hand_of, mine_of, AllAmong, EachOnce, changes_of};
ghost use Rattle.ks_arena.specs.Of.{Holds, Adds, HasDecided, HasShaped, Looks, KeepsBut, IsPassOf, IsMarkedPassOf, IsCurrent, TriedToTake, IsReadyAt, AreCurrent, MayBecome, nodes_of, IsNodeOf, RestStays, RestStaysBut, SameCaller, caller_of, steps_of};

use crate::arena::Arena;
use crate::held::{Held, Pass, Taken, Visited};
use crate::plays::{Brings, Decides, Decision, Forms, Gives, Said, SetsBit, Takes};
use crate::spots::{CALLS, SHAPES, free_at, turn_at};
use ks_flow::Discipline;
use ks_flow::laws::walks_law;
use ks_history::{Op, Reply};
use ks_node::Node;
use std::marker::Brand;

impl<N: Node, D: Discipline> Arena<N, D> {
    /// How many nodes there are.
    pub fn nodes(&self) -> u32
        ensures { result ≡ nodes_of self.now }
    {
        self.nodes
    }

    /// Tries once to take the node.
    pub fn try_take(&self, pass: &mut Pass<N, D>, node: u32) -> Taken<N>
        requires pass { IsPassOf self.now pass.old }
        requires node { IsNodeOf self.now node }
        requires fresh { ¬ Holds pass.old node }
        ensures pass { IsPassOf self.now pass.new }
        ensures caller { SameCaller pass.old pass.new }
        ensures took { TriedToTake self.now node pass.old pass.new result }
        ensures rest { RestStays self.now pass.old pass.new }
        ensures cost { steps_of pass.new ≡ steps_of pass.old + 1 }
    {
        let at = node as usize;
        let turn = turn_at(at);
        let found = self.compare_exchange::<Takes<D>>(
            &mut pass.seat,
            &mut pass.steps,
            turn,
            1,
            pass.caller as u64 + 2,
        );
        if found == 1 {
            let body = self.body_in_slot(&mut pass.seat, at);
            let visited = Visited { node, body };
            Taken::Held(self.lift(pass, visited))
        } else if found == 0 {
            Taken::Gone
        } else {
            Taken::Busy {
                holder: (found - 2) as u32,
            }
        }
    }

    /// Releases a held node: a live one may be taken next, any other one may be claimed.
    #[inline(always)]
    pub fn give(&self, pass: &mut Pass<N, D>, held: Held<N>)
        requires pass { IsPassOf self.now pass.old }
        requires holds { Holds pass.old held.node }
        requires body { IsCurrent self.now pass.old held }
        ensures pass { IsPassOf self.now pass.new }
        ensures caller { SameCaller pass.old pass.new }
        ensures gave { Adds (Give (caller_of pass.old) held.node) pass.old pass.new }
        ensures hand { hand_of pass.new ≡ drop_one held.node (hand_of pass.old) }
        ensures mine { mine_of pass.new ≡ Give (caller_of pass.old) held.node ∷ mine_of pass.old }
        ensures rest { RestStaysBut self.now held.node pass.old pass.new }
        ensures cost { steps_of pass.new ≡ steps_of pass.old + give_steps held.live }
    {
        if held.live {
            self.put_back(pass, held);
        } else {
            self.set_bit(pass, held.node);
            self.put_back(pass, held);
        }
    }

    /// Sets the bit of a held node that is about to be free.
    #[cold]
    #[inline(never)]
    fn set_bit(&self, pass: &mut Pass<N, D>, node: u32)
        requires pass { IsPassOf self.now pass.old }
        requires holds { Holds pass.old node }
        ensures pass { IsMarkedPassOf self.now (Freeing node) pass.new }
        ensures caller { SameCaller pass.old pass.new }
        ensures looked { Looks pass.old pass.new }
        ensures rest { RestStays self.now pass.old pass.new }
        ensures cost { steps_of pass.new ≡ steps_of pass.old + 1 }
    {
        let word = free_at(self.nodes as usize, node as usize / 64);
        self.fetch_or::<SetsBit<D>>(&mut pass.seat, &mut pass.steps, word, 1u64 << (node % 64));
    }

    /// Puts the body back into its slot and releases the turn. Before, the bit of a node that is not live was set.
    #[inline(always)]
    fn put_back(&self, pass: &mut Pass<N, D>, held: Held<N>)
        requires pass { IsMarkedPassOf self.now (give_mark held.live held.node) pass.old }
        requires holds { Holds pass.old held.node }
        requires body { IsCurrent self.now pass.old held }
        ensures pass { IsPassOf self.now pass.new }
        ensures caller { SameCaller pass.old pass.new }
        ensures gave { Adds (Give (caller_of pass.old) held.node) pass.old pass.new }
        ensures hand { hand_of pass.new ≡ drop_one held.node (hand_of pass.old) }
        ensures mine { mine_of pass.new ≡ Give (caller_of pass.old) held.node ∷ mine_of pass.old }
        ensures kept { KeepsBut held.node pass.old pass.new }
        ensures cost { steps_of pass.new ≡ steps_of pass.old + 2 }
    {
        let Held { node, body, live } = held;
        let at = node as usize;
        let turn = turn_at(at);
        self.load::<Brings<D>>(&mut pass.seat, &mut pass.steps, turn);
        // The slot has been empty since the body was taken out of it, so nothing is returned that would be dropped.
        self.exchange(&mut pass.seat, at, Some(body));
        let word = if live { 1 } else { 0 };
        self.store::<Gives<D>>(&mut pass.seat, &mut pass.steps, turn, word);
    }

    /// Makes an operation a call of the history, at the held node whose body it has changed. Returns the number of the
    /// call, modulo 2^64. The type says which operation, and which reply.
    pub fn decide_as<W: Decision>(&self, pass: &mut Pass<N, D>, held: &Held<N>) -> u64
        requires pass { IsPassOf self.now pass.old }
        requires holds { Holds pass.old held.now.node }
        requires ready { IsReadyAt self.now pass.old held.now W.op W.reply }
        ensures pass { IsPassOf self.now pass.new }
        ensures caller { SameCaller pass.old pass.new }
        ensures decided { HasDecided self.now held.now W.op W.reply pass.old pass.new result }
        ensures body { IsCurrent self.now pass.new held.now }
        ensures cost { steps_of pass.new ≡ steps_of pass.old + 1 }
    {
        self.count::<Brand, W>(pass, held)
    }

    fn count<V: Said, W: Decision>(&self, pass: &mut Pass<N, D>, held: &Held<N>) -> u64
        requires said { V.event ≡ Call (caller_of pass.old) held.now.node W.op W.reply }
        requires pass { IsPassOf self.now pass.old }
        requires holds { Holds pass.old held.now.node }
        requires ready { IsReadyAt self.now pass.old held.now W.op W.reply }
        ensures pass { IsPassOf self.now pass.new }
        ensures caller { SameCaller pass.old pass.new }
        ensures decided { HasDecided self.now held.now W.op W.reply pass.old pass.new result }
        ensures body { IsCurrent self.now pass.new held.now }
        ensures cost { steps_of pass.new ≡ steps_of pass.old + 1 }
    {
        D::laws();
        walks_law();
        self.fetch_add::<Decides<D, V>>(&mut pass.seat, &mut pass.steps, CALLS, 1)
    }

    /// Makes the operation a call of the history, with this reply, at the held node whose body it has changed. Returns the
    /// number of the call, modulo 2^64.
    pub fn decide(&self, pass: &mut Pass<N, D>, held: &Held<N>, op: Op, reply: Reply) -> u64
        requires pass { IsPassOf self.now pass.old }
        requires holds { Holds pass.old held.now.node }
        requires ready { IsReadyAt self.now pass.old held.now op reply }
        ensures pass { IsPassOf self.now pass.new }
        ensures caller { SameCaller pass.old pass.new }
        ensures decided { HasDecided self.now held.now op reply pass.old pass.new result }
        ensures body { IsCurrent self.now pass.new held.now }
        ensures cost { steps_of pass.new ≡ steps_of pass.old + 1 }
    {
        self.decide_told::<Brand>(pass, held, op, reply)
    }

    /// Decides as its type says, which is what its arguments say.
    fn decide_told<W: Decision>(
        &self,
        pass: &mut Pass<N, D>,
        held: &Held<N>,
        op: Op,
        reply: Reply,
    ) -> u64
        requires op { W.op ≡ op }
        requires reply { W.reply ≡ reply }
        requires pass { IsPassOf self.now pass.old }
        requires holds { Holds pass.old held.now.node }
        requires ready { IsReadyAt self.now pass.old held.now op reply }
        ensures pass { IsPassOf self.now pass.new }
        ensures caller { SameCaller pass.old pass.new }
        ensures decided { HasDecided self.now held.now op reply pass.old pass.new result }
        ensures body { IsCurrent self.now pass.new held.now }
        ensures cost { steps_of pass.new ≡ steps_of pass.old + 1 }
    {
        self.decide_as::<W>(pass, held)
    }

    /// Makes what the bodies have become one event. The pass holds the nodes, which are different ones.
    pub fn shape<'a>(
        &self,
        pass: &mut Pass<N, D>,
        first: &'a Held<N>,
        second: Option<&'a Held<N>>,
        third: Option<&'a Held<N>>,
    )
        requires pass { IsPassOf self.now pass.old }
        requires holds { AllAmong (hand_of pass.old) (changes_of N.body first.now second third) }
        requires once { EachOnce (changes_of N.body first.now second third) }
        requires may { MayBecome self.now pass.old (changes_of N.body first.now second third) }
        ensures pass { IsPassOf self.now pass.new }
        ensures caller { SameCaller pass.old pass.new }
        ensures shaped { HasShaped self.now (changes_of N.body first.now second.entry third.entry) pass.old pass.new }
        ensures bodies { AreCurrent self.now pass.new first.now second.entry third.entry }
        ensures cost { steps_of pass.new ≡ steps_of pass.old + 1 }
    {
        self.form::<Brand>(pass, first, second, third);
    }

    fn form<'a, W: Said>(
        &self,
        pass: &mut Pass<N, D>,
        first: &'a Held<N>,
        second: Option<&'a Held<N>>,
        third: Option<&'a Held<N>>,
    )
        requires said { W.event ≡ Shape (caller_of pass.old) (changes_of N.body first.now second third) }
        requires pass { IsPassOf self.now pass.old }
        requires holds { AllAmong (hand_of pass.old) (changes_of N.body first.now second third) }
        requires once { EachOnce (changes_of N.body first.now second third) }
        requires may { MayBecome self.now pass.old (changes_of N.body first.now second third) }
        ensures pass { IsPassOf self.now pass.new }
        ensures caller { SameCaller pass.old pass.new }
        ensures shaped { HasShaped self.now (changes_of N.body first.now second.entry third.entry) pass.old pass.new }
        ensures bodies { AreCurrent self.now pass.new first.now second.entry third.entry }
        ensures cost { steps_of pass.new ≡ steps_of pass.old + 1 }
    {
        self.fetch_add::<Forms<D, W>>(&mut pass.seat, &mut pass.steps, SHAPES, 1);
    }
}

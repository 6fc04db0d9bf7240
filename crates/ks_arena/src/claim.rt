//! How callers claim free nodes, and how they wait for nodes that others hold.
ghost use Rattle.std.specs.Prelude.{◌≡◌, ◌+◌, ◌<◌, ◌≤◌, IfSome};
ghost use Rattle.ks_arena.specs.Spots.{free_words};
ghost use Rattle.ks_arena.specs.declared.view.Mark.TheVariants.{Claiming};
ghost use Rattle.ks_arena.specs.Clauses.{claim_mark, try_steps, word_steps, steps_alone};
ghost use Rattle.ks_arena.specs.Of.{Holds, Looks, Keeps, WasAlone, HeldAlone, nodes_of, callers_of, IsNodeOf, IsPassOf, IsMarkedPassOf, HasTakenFrom, HasClaimedFrom, HasClaimedIn, TriedToClaim, TellsFreeOf, RestStays, SameCaller, caller_of, steps_of};
ghost use Rattle.ks_arena.specs.Visits.{held_if, LiesInSlot, SlotsStayBut};

use crate::arena::{Arena, Steps};
use crate::held::{Held, Pass, Visited};
use crate::laws::sound_law;
use crate::plays::{Claims, ClearsBit, Scans, Takes};
use crate::spots::{ROOT, free_at, turn_at};
use crossbeam_utils::Backoff;
use ks_flow::Discipline;
use ks_node::Node;
use std::sync::Wait;

/// How often a caller that waits for the root spins, each time twice as long, before it first checks whether the root is
/// free: all the spins of a `Backoff`, 127 pauses. From then on it yields its processor between checks. So callers that
/// share a processor take turns on it after some dozens of calls each, and not after a whole time slice.
const SPINS_BEFORE_A_LOOK: u32 = 7;

/// How often a caller that waits for the root goes through the waits of a `Backoff` before it sleeps.
const ROUNDS_BEFORE_A_SLEEP: u32 = 4;

impl<N: Node, D: Discipline> Arena<N, D> {
    /// Takes the node, and its body; waits while another caller holds it. `None`: it is free.
    #[inline(always)]
    pub fn take<R: Wait>(&self, rt: &R, pass: &mut Pass<N, D>, node: u32) -> Option<Held<N>>
        requires pass { IsPassOf self.now pass.old }
        requires node { IsNodeOf self.now node }
        requires fresh { ¬ Holds pass.old node }
        ensures pass { IsPassOf self.now pass.new }
        ensures caller { SameCaller pass.old pass.new }
        ensures took { HasTakenFrom self.now node pass.old pass.new result }
        ensures rest { RestStays self.now pass.old pass.new }
    {
        let visited = self.visit(rt, pass, node)?;
        Some(self.lift(pass, visited))
    }

    /// Takes the node, and leaves its body in its slot; waits while another caller holds it. `None`: it is free.
    #[inline(always)]
    pub fn visit<R: Wait>(&self, rt: &R, pass: &mut Pass<N, D>, node: u32) -> Option<Visited<N>>
        requires pass { IsPassOf self.now pass.old }
        requires node { IsNodeOf self.now node }
        requires fresh { ¬ Holds pass.old node }
        ensures pass { IsPassOf self.now pass.new }
        ensures caller { SameCaller pass.old pass.new }
        ensures took { HasTakenFrom self.now node pass.old pass.new (held_if result) }
        ensures lies { IfSome result (λ visited. LiesInSlot pass.new visited) }
        ensures rest { RestStays self.now pass.old pass.new }
        ensures slots { SlotsStayBut node pass.old pass.new }
    {
        self.count_arrival(node);
        let at = node as usize;
        let turn = turn_at(at);
        for _ in rt.forever() {
            let found = self.compare_exchange::<Takes<D>>(
                &mut pass.seat,
                &mut pass.steps,
                turn,
                1,
                pass.caller as u64 + 2,
            );
            if found == 1 {
                let body = self.body_in_slot(&mut pass.seat, at);
                return Some(Visited { node, body });
            }
            if found == 0 {
                return None;
            }
            self.watch(rt, &mut pass.steps, node);
        }
        unreachable!()
    }

    /// At the root, counts the arrival; after a number of arrivals it wakes one caller that sleeps until the root is free.
    #[inline(always)]
    fn count_arrival(&self, node: u32) {
        if node == ROOT {
            self.bell.ring();
        }
    }

    /// Whether nobody had the node just now.
    fn is_given(&self, steps: &mut Steps, node: u32) -> bool
        requires { node < self.now.nodes }
    {
        self.peek(steps, turn_at(node as usize)) <= 1
    }

    /// Waits until nobody has the node, at some moment. It looks at the node's turn less and less often, for each look takes
    /// the cache line from the holder, and then yields the processor between looks. At the root it spins before its first
    /// look, and sleeps after some rounds of such waits, from which it starts over with a look: a caller that waits for the
    /// root holds no node, so nobody waits for one that sleeps.
    #[cold]
    #[inline(never)]
    fn watch<R: Wait>(&self, rt: &R, steps: &mut Steps, node: u32)
        requires { node < self.now.nodes }
    {
        let backoff = Backoff::new();
        if node == ROOT {
            for _ in 0..SPINS_BEFORE_A_LOOK {
                backoff.spin();
            }
        }
        let mut rounds_left = ROUNDS_BEFORE_A_SLEEP;
        for _ in rt.forever() {
            if self.is_given(steps, node) {
                return;
            }
            if node != ROOT || !backoff.is_completed() {
                backoff.snooze();
            } else {
                if rounds_left > 1 {
                    rounds_left -= 1;
                } else {
                    self.sleep(rt, steps);
                    rounds_left = ROUNDS_BEFORE_A_SLEEP;
                }
                backoff.reset();
            }
        }
    }

    /// Sleeps until another caller wakes it, for a millisecond at most; returns at once if nobody has the root.
    fn sleep<R: Wait>(&self, rt: &R, steps: &mut Steps) {
        self.bell.await_ring();
        if !self.is_given(steps, ROOT) {
            self.bell.sleep(rt);
        }
    }

    /// Claims the first node, from node 1 upward, that it finds free. `None`: none was found free. If no other caller acts
    /// meanwhile, and none holds a node at its start, it loads the free words up to that of the node, takes the turn of the
    /// node and clears its bit: at most `ceil(nodes / 64) + 2` steps on words. In an arena of one caller this always holds.
    pub fn claim(&self, pass: &mut Pass<N, D>) -> Option<Held<N>>
        requires { IsPassOf self.now pass.old }
        ensures pass { IsPassOf self.now pass.new }
        ensures caller { SameCaller pass.old pass.new }
        ensures claimed { HasClaimedFrom self.now pass.old pass.new result }
        ensures rest { RestStays self.now pass.old pass.new }
        ensures cost { WasAlone pass.old pass.new → HeldAlone pass.old →
            steps_of pass.new ≡ steps_of pass.old + steps_alone (nodes_of self.now) result }
        ensures bound { WasAlone pass.old pass.new → HeldAlone pass.old →
            steps_of pass.new ≤ steps_of pass.old + free_words (nodes_of self.now) + 2 }
        ensures one { callers_of self.now ≡ 1 → caller_of pass.old ≡ 0 →
            steps_of pass.new ≡ steps_of pass.old + steps_alone (nodes_of self.now) result }
    {
        sound_law::<D>();
        for index in 0..self.nodes.div_ceil(64) {
            if let Some(held) = self.claim_in(pass, index) {
                return Some(held);
            }
        }
        None
    }

    /// Claims the first node that it finds free among those of one free word.
    fn claim_in(&self, pass: &mut Pass<N, D>, index: u32) -> Option<Held<N>>
        requires pass { IsPassOf self.now pass.old }
        requires index { index < free_words (nodes_of self.now) }
        ensures pass { IsPassOf self.now pass.new }
        ensures caller { SameCaller pass.old pass.new }
        ensures claimed { HasClaimedIn self.now index pass.old pass.new result }
        ensures kept { Keeps pass.old pass.new }
        ensures cost { WasAlone pass.old pass.new → HeldAlone pass.old →
            steps_of pass.new ≡ steps_of pass.old + word_steps result }
    {
        let mut left = self.scan(pass, index);
        while left != 0 {
            let bit = left.trailing_zeros();
            if let Some(held) = self.try_claim(pass, 64 * index + bit) {
                return Some(held);
            }
            left &= !(1u64 << bit);
        }
        None
    }

    /// Reads a free word: a bit for each node that may be free.
    fn scan(&self, pass: &mut Pass<N, D>, index: u32) -> u64
        requires pass { IsPassOf self.now pass.old }
        requires index { index < free_words (nodes_of self.now) }
        ensures pass { IsPassOf self.now pass.new }
        ensures caller { SameCaller pass.old pass.new }
        ensures looked { Looks pass.old pass.new }
        ensures told { TellsFreeOf self.now index pass.old pass.new result }
        ensures kept { Keeps pass.old pass.new }
        ensures cost { steps_of pass.new ≡ steps_of pass.old + 1 }
    {
        let word = free_at(self.nodes as usize, index as usize);
        self.load::<Scans<D>>(&mut pass.seat, &mut pass.steps, word)
    }

    /// Claims the node if it is free, and clears its bit.
    fn try_claim(&self, pass: &mut Pass<N, D>, node: u32) -> Option<Held<N>>
        requires pass { IsPassOf self.now pass.old }
        requires node { IsNodeOf self.now node }
        ensures pass { IsPassOf self.now pass.new }
        ensures caller { SameCaller pass.old pass.new }
        ensures claimed { TriedToClaim self.now node pass.old pass.new result }
        ensures kept { Keeps pass.old pass.new }
        ensures cost { steps_of pass.new ≡ steps_of pass.old + try_steps result }
    {
        let held = self.catch(pass, node)?;
        self.clear_bit(pass, node);
        Some(held)
    }

    /// Takes the turn of the node if it is free. Its bit is still set.
    fn catch(&self, pass: &mut Pass<N, D>, node: u32) -> Option<Held<N>>
        requires pass { IsPassOf self.now pass.old }
        requires node { IsNodeOf self.now node }
        ensures pass { IsMarkedPassOf self.now (claim_mark result) pass.new }
        ensures caller { SameCaller pass.old pass.new }
        ensures claimed { TriedToClaim self.now node pass.old pass.new result }
        ensures kept { Keeps pass.old pass.new }
        ensures cost { steps_of pass.new ≡ steps_of pass.old + 1 }
    {
        let at = node as usize;
        let turn = turn_at(at);
        let found = self.compare_exchange::<Claims<D>>(
            &mut pass.seat,
            &mut pass.steps,
            turn,
            0,
            pass.caller as u64 + 2,
        );
        if found == 0 {
            let body = self.exchange(&mut pass.seat, at, None).unwrap();
            Some(Held {
                node,
                body,
                live: false,
            })
        } else {
            None
        }
    }

    /// Clears the bit of a node just claimed.
    fn clear_bit(&self, pass: &mut Pass<N, D>, node: u32)
        requires pass { IsMarkedPassOf self.now (Claiming node) pass.old }
        requires holds { Holds pass.old node }
        ensures pass { IsPassOf self.now pass.new }
        ensures caller { SameCaller pass.old pass.new }
        ensures looked { Looks pass.old pass.new }
        ensures rest { RestStays self.now pass.old pass.new }
        ensures cost { steps_of pass.new ≡ steps_of pass.old + 1 }
    {
        let word = free_at(self.nodes as usize, node as usize / 64);
        self.fetch_and::<ClearsBit<D>>(
            &mut pass.seat,
            &mut pass.steps,
            word,
            !(1u64 << (node % 64)),
        );
    }
}

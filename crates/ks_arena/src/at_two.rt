//! A call that is decided at two nodes at once.
ghost use Rattle.std.specs.Prelude.{◌≡◌, ◌+◌};
ghost use Rattle.ks_history.specs.declared.Event.TheVariants.{Twin};
ghost use Rattle.ks_arena.specs.AtTwo.{HasDecidedAtTwo, IsReadyAtTwo, IsSecondCurrent, second_of};
ghost use Rattle.ks_arena.specs.Of.{Holds, IsPassOf, IsCurrent, SameCaller, caller_of, steps_of};

use crate::arena::Arena;
use crate::held::{Held, Pass};
use crate::plays::{Decides, Decision, Said};
use crate::spots::CALLS;
use ks_flow::Discipline;
use ks_flow::laws::walks_law;
use ks_node::Node;
use std::marker::Brand;

impl<N: Node, D: Discipline> Arena<N, D> {
    /// Makes an operation a call of the history, at two held nodes at once, or at one that has both places. The bodies are
    /// changed before: what goes out is gone from the first, what comes in is in the second. Returns the number of the call,
    /// modulo 2^64. The type says which operation, and which reply.
    pub fn decide_pair<'a, W: Decision>(
        &self,
        pass: &mut Pass<N, D>,
        first: &'a Held<N>,
        second: Option<&'a Held<N>>,
    ) -> u64
        requires pass { IsPassOf self.now pass.old }
        requires holds { Holds pass.old first.now.node × Holds pass.old (second_of first.now second) }
        requires ready { IsReadyAtTwo self.now pass.old first.now second W.op W.reply }
        ensures pass { IsPassOf self.now pass.new }
        ensures caller { SameCaller pass.old pass.new }
        ensures decided { HasDecidedAtTwo self.now first.now second.entry W.op W.reply pass.old pass.new result }
        ensures first { IsCurrent self.now pass.new first.now }
        ensures second { IsSecondCurrent self.now pass.new second.entry }
        ensures cost { steps_of pass.new ≡ steps_of pass.old + 1 }
    {
        self.count_pair::<Brand, W>(pass, first, second)
    }

    fn count_pair<'a, V: Said, W: Decision>(
        &self,
        pass: &mut Pass<N, D>,
        first: &'a Held<N>,
        second: Option<&'a Held<N>>,
    ) -> u64
        requires said { V.event ≡ Twin (caller_of pass.old) first.now.node (second_of first.now second) W.op W.reply }
        requires pass { IsPassOf self.now pass.old }
        requires holds { Holds pass.old first.now.node × Holds pass.old (second_of first.now second) }
        requires ready { IsReadyAtTwo self.now pass.old first.now second W.op W.reply }
        ensures pass { IsPassOf self.now pass.new }
        ensures caller { SameCaller pass.old pass.new }
        ensures decided { HasDecidedAtTwo self.now first.now second.entry W.op W.reply pass.old pass.new result }
        ensures first { IsCurrent self.now pass.new first.now }
        ensures second { IsSecondCurrent self.now pass.new second.entry }
        ensures cost { steps_of pass.new ≡ steps_of pass.old + 1 }
    {
        D::laws();
        walks_law();
        self.fetch_add::<Decides<D, V>>(&mut pass.seat, &mut pass.steps, CALLS, 1)
    }
}

//! How a caller learns what another one has seen.
ghost use Rattle.std.specs.Prelude.{◌≡◌, ◌+◌};
ghost use Rattle.ks_history.specs.Trace.{◌⊑◌};
ghost use Rattle.ks_arena.specs.Clauses.{noted, seen_of};
ghost use Rattle.ks_arena.specs.Of.{Looks, IsPassOf, IsNoteFrom, RestStays, SameCaller, steps_of};

use crate::arena::Arena;
use crate::held::{Note, Pass};
use crate::plays::{Gathers, TakeIn, Tell};
use crate::spots::CALLS;
use ks_flow::Discipline;
use ks_node::Node;
use std::marker::PhantomData;

impl<N: Node, D: Discipline> Arena<N, D> {
    /// A copy of what the pass has seen.
    pub fn note(&self, pass: &mut Pass<N, D>) -> Note<N, D>
        requires { IsPassOf self.now pass.old }
        ensures pass { IsPassOf self.now pass.new }
        ensures caller { SameCaller pass.old pass.new }
        ensures seen { seen_of pass.new ≡ seen_of pass.old }
        ensures note { IsNoteFrom self.now result }
        ensures noted { noted result ≡ seen_of pass.old }
        ensures cost { steps_of pass.new ≡ steps_of pass.old + 1 }
    {
        let seat = self.split_seat::<Tell>(&mut pass.seat, &mut pass.steps);
        Note {
            seat,
            marker: PhantomData,
        }
    }

    /// Takes in the note: the pass has then seen what the note has.
    pub fn learn(&self, pass: &mut Pass<N, D>, note: Note<N, D>)
        requires pass { IsPassOf self.now pass.old }
        requires note { IsNoteFrom self.now note }
        ensures pass { IsPassOf self.now pass.new }
        ensures caller { SameCaller pass.old pass.new }
        ensures looked { Looks pass.old pass.new }
        ensures noted { noted note ⊑ seen_of pass.new }
        ensures rest { RestStays self.now pass.old pass.new }
        ensures cost { steps_of pass.new ≡ steps_of pass.old + 2 }
    {
        self.join_seat::<TakeIn>(&mut pass.seat, &mut pass.steps, note.seat);
        self.load::<Gathers<D>>(&mut pass.seat, &mut pass.steps, CALLS);
    }
}

//! A move at the nodes of both its places.
ghost use Rattle.std.specs.Prelude.{◌≢◌, IsTrue};
ghost use Rattle.ks_arena.specs.Of.{IsPassOf, IsEmptyPassOf, SameCaller, WasRefusedAt};
ghost use Rattle.ks_shape.specs.Does.{OnlySearches};
ghost use Rattle.ks_pair.specs.Of.{FinishesStep, IsPairAt};

use crate::between::move_between;
use crate::pair::Pair;
use crate::within::move_within;
use ks_arena::{Arena, Pass};
use ks_flow::Discipline;
use ks_gate::Gate;
use ks_node::Node;
use ks_shape::{MoveLeft, Numbered};

/// What became of a move.
pub enum Step {
    /// It was decided.
    Done(Result<Numbered, MoveLeft>),
    /// Its second place needs room, which was not refused yet: it was not decided, and its nodes were released.
    NoRoom,
}

/// Decides a move from `from` to `to` at the nodes of both places, and releases them. If room for `to` was refused before, in
/// the same call, the result is `Full` where it is lacking; else the move remains undecided there.
pub fn move_here<N: Node, D: Discipline, G: Gate>(
    arena: &Arena<N, D>,
    pass: &mut Pass<N, D>,
    gate: &G,
    from: u64,
    to: u64,
    pair: Pair<N>,
    refused: bool,
) -> Step
    requires pass { IsPassOf arena.now pass.old }
    requires apart { from ≢ to }
    requires pair { IsPairAt arena.now from to pass.old pair }
    requires refused { IsTrue refused → WasRefusedAt arena.now pass.old to }
    ensures pass { IsEmptyPassOf arena.now pass.new }
    ensures caller { SameCaller pass.old pass.new }
    ensures leaves { OnlySearches pass.old pass.new }
    ensures step { FinishesStep arena.now from to refused pass.old pass.new result }
{
    match pair {
        Pair::One(held) => Step::Done(move_within(arena, pass, gate, from, to, held)),
        Pair::Two { first, second } => {
            move_between(arena, pass, gate, from, to, first, second, refused)
        }
    }
}

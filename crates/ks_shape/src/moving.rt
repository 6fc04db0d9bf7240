//! What a technique of concurrency offers besides: moves of a value between two keys, each one call.
ghost use Rattle.std.specs.Prelude.{◌≢◌};
ghost use Rattle.ks_history.specs.declared.Op.TheVariants.{Move};
ghost use Rattle.ks_arena.specs.Of.{SameCaller};
ghost use Rattle.ks_shape.specs.Answers.{move_number, move_reply};
ghost use Rattle.ks_shape.specs.Does.{OnlyFills};
ghost use Rattle.ks_shape.specs.Idle.{IsDone, IsIdle};

use crate::answers::{MoveLeft, Numbered};
use crate::template::{Ruled, Shelf};
use ks_arena::Pass;
use ks_gate::Gate;
use ks_node::Node;
use std::sync::Wait;

/// A technique with moves. A move is one call: it is decided at the nodes of both places at once, and no other call sees the
/// value at both of them, or at neither.
pub trait Moving<N: Node, A: Shelf>: Ruled {
    /// Moves the value at `from` to `to`, another place, and returns it. If there is none, the map is as before the
    /// call. Splits that the call made before it was decided remain, whatever it returns.
    ///
    /// # Errors
    ///
    /// `Kept` if both places have a value: both remain. `Full` is returned only if `from` has a value, `to` has none,
    /// they are in two nodes, that of `to` has no room, and each node was at some moment not free since the caller's
    /// previous call. Then the map is as before the call.
    fn move_value<R: Wait, G: Gate>(
        rt: &R,
        arena: &A,
        pass: &mut Pass<N, Self::Rule>,
        gate: &G,
        from: u64,
        to: u64,
    ) -> Result<Numbered, MoveLeft>
        requires pass { IsIdle (A.site arena.now) pass.old }
        requires apart { from ≢ to }
        ensures pass { IsIdle (A.site arena.now) pass.new }
        ensures caller { SameCaller pass.old pass.new }
        ensures fills { OnlyFills N.layout N.ranged to pass.old pass.new }
        ensures done { IsDone N.layout Self.technique (A.site arena.now) (Move from to)
            pass.old pass.new (move_reply result) (move_number result) };
}

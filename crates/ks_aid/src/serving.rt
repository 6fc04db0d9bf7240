//! What workers ask of a technique: the calls of a script, each of which may begin where an aid says.
ghost use Rattle.ks_aid.specs.OneKey.{IsAtOneKey, IsReplyAtOneKey};
ghost use Rattle.ks_arena.specs.Of.{SameCaller};
ghost use Rattle.ks_arena.specs.Sound.{sort_of, blank_of};
ghost use Rattle.ks_shape.specs.Idle.{IsDone, IsIdle};

use crate::aid::Aid;
use ks_arena::Pass;
use ks_gate::Gate;
use ks_history::{Op, Reply};
use ks_node::Node;
use ks_shape::{Ruled, Shelf};
use std::sync::Wait;

/// Says whether the calls of a technique ask their aid. It is no method of `Serving`, since an impl of it has no type
/// parameters.
pub trait Asking {
    /// Whether they ask it.
    fn asks() -> bool;
}

/// The calls of `Template` as workers make them: each occurs in the history as that call does, waits as that does, and may
/// begin where the caller's aid says. The clauses do not say which nodes a call leaves as they are. A technique whose calls
/// all begin at the root asks no aid.
///
/// It is beside `Template` and `Hinting`, and neither is its supertrait: workers ask the calls of this trait and no
/// others. All operations at one key are one method, since a call of `serve_callers` at concrete types costs the more to
/// prove the more methods there are.
pub trait Serving<N: Node, A: Shelf>: Ruled + Asking {
    /// Makes the call of an operation at one key, and returns its number and its reply.
    ///
    /// # Errors
    ///
    /// The reply `Full` is only to a put or an add, and is due as for `put`.
    fn call_aided<R: Wait, G: Gate, H: Aid>(
        rt: &R,
        arena: &A,
        pass: &mut Pass<N, Self::Rule>,
        gate: &G,
        aid: &mut H,
        op: Op,
    ) -> (u64, Reply)
        requires pass { IsIdle (A.site arena.now) pass.old }
        requires key { IsAtOneKey op }
        ensures pass { IsIdle (A.site arena.now) pass.new }
        ensures caller { SameCaller pass.old pass.new }
        ensures reply { IsReplyAtOneKey op result.1 }
        ensures done { IsDone N.layout Self.technique (A.site arena.now) op pass.old pass.new result.1 result.0 };

    /// The frame of a blank node is as the rule requires.
    ghost fits: { Self.Rule.begins (blank_of (sort_of N.layout N.ranged)) };
}

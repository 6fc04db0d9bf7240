//! Runs of calls that may wait.
ghost use Rattle.std.specs.Prelude.{◌≡◌};
ghost use Rattle.ks_arena.specs.Of.{SameCaller};
ghost use Rattle.ks_shape.specs.Idle.{IsIdle};

use crate::run::{Call, Run};
use ks_arena::Pass;
use ks_gate::NoGate;
use ks_node::Node;
use ks_shape::{Full, Numbered, Shelf, Template};
use std::sync::Wait;

/// Makes one call.
fn call_at<T: Template<N, A>, N: Node, A: Shelf, R: Wait>(
    rt: &R,
    arena: &A,
    pass: &mut Pass<N, T::Rule>,
    call: Call,
    place: u64,
) -> Result<Numbered, Full>
    requires pass { IsIdle (A.site arena.now) pass.old }
    ensures pass { IsIdle (A.site arena.now) pass.new }
    ensures caller { SameCaller pass.old pass.new }
{
    match call {
        Call::Put => T::put(rt, arena, pass, &NoGate, place, u128::from(place)),
        Call::Del => Ok(T::del(rt, arena, pass, &NoGate, place)),
    }
}

/// Makes the calls of a run. Returns whether puts found nothing at their places, dels what a put has left, and the numbers
/// are those of the run.
pub fn each<T: Template<N, A>, N: Node, A: Shelf, R: Wait>(
    rt: &R,
    arena: &A,
    pass: &mut Pass<N, T::Rule>,
    run: Run,
) -> bool
    requires pass { IsIdle (A.site arena.now) pass.old }
    ensures pass { IsIdle (A.site arena.now) pass.new }
    ensures caller { SameCaller pass.old pass.new }
{
    let mut right = true;
    for count in 0..run.many {
        let place = run.place(count);
        let told = call_at::<T, N, A, R>(rt, arena, pass, run.call, place);
        right = right && told == Ok(run.told(count, run.found(place)));
    }
    right
}

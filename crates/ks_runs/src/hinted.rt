//! Calls that begin at a hint.
ghost use Rattle.std.specs.Prelude.{◌≡◌};
ghost use Rattle.ks_arena.specs.Of.{SameCaller};
ghost use Rattle.ks_shape.specs.Idle.{IsIdle};

use ks_arena::Pass;
use ks_gate::NoGate;
use ks_node::Node;
use ks_shape::{Hinting, NumberedAt, Shelf};
use std::sync::Wait;

/// How many hints `every_hint` tries.
const HINTS: u32 = 65;

/// Gets what is at a place, from a hint.
pub fn get_from<T: Hinting<N, A>, N: Node, A: Shelf, R: Wait>(
    rt: &R,
    arena: &A,
    pass: &mut Pass<N, T::Rule>,
    hint: Option<u32>,
    place: u64,
) -> NumberedAt
    requires pass { IsIdle (A.site arena.now) pass.old }
    ensures pass { IsIdle (A.site arena.now) pass.new }
    ensures caller { SameCaller pass.old pass.new }
{
    T::get_from(rt, arena, pass, &NoGate, hint, place)
}

/// Gets what is at a place with each hint from 0 to 64. Returns whether each get found the place itself there, in a range
/// that has the place, and has the next number, from the first on.
pub fn every_hint<T: Hinting<N, A>, N: Node, A: Shelf, R: Wait>(
    rt: &R,
    arena: &A,
    pass: &mut Pass<N, T::Rule>,
    first: u64,
    place: u64,
) -> bool
    requires pass { IsIdle (A.site arena.now) pass.old }
    ensures pass { IsIdle (A.site arena.now) pass.new }
    ensures caller { SameCaller pass.old pass.new }
{
    let mut right = true;
    for hint in 0..HINTS {
        let told = get_from::<T, N, A, R>(rt, arena, pass, Some(hint), place);
        let number = first.wrapping_add(u64::from(hint));
        let within = told.low <= place && place <= told.last;
        let found = told.found == Some(u128::from(place));
        right = right && within && found && told.number == number;
    }
    right
}

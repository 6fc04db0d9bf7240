//! The calls of a dictionary, as data.
ghost use Rattle.std.specs.Prelude.{◌≡◌};
ghost use Rattle.ks_arena.specs.Of.{SameCaller};
ghost use Rattle.ks_dictionary.specs.Of.{IsIdlePassOf};

use crate::order::InOrder;
use ks_arena::{Arena, Pass};
use ks_dictionary::{Dictionary, Gated, Runtime};
use ks_node::Node;
use ks_places::Placing;
use ks_shape::{Full, Later, Numbered, PutLater, Ruled, Template};
use std::sync::Wait;

/// What a call does at its key.
#[derive(Clone, Copy, PartialEq, Eq)]
pub(crate) enum Op {
    Get,
    Put(u128),
    Add(u128),
    Swap(u128, u128),
    Del,
}

/// A call of a dictionary. One that does not wait may be put off.
#[derive(Clone, Copy)]
pub(crate) struct Call {
    pub(crate) key: u64,
    pub(crate) op: Op,
    pub(crate) waits: bool,
}

/// What a call returns.
pub(crate) type Answer = Result<Numbered, PutLater>;

/// What a put or an add returns that waits.
fn of_fill(filled: Result<Numbered, Full>) -> Answer {
    match filled {
        Ok(put) => Ok(put),
        Err(full) => Err(PutLater::Full {
            number: full.number,
        }),
    }
}

/// What a get, a swap or a del returns that does not wait.
fn of_try(tried: Result<Numbered, Later>) -> Answer {
    match tried {
        Ok(got) => Ok(got),
        Err(later) => Err(PutLater::Later(later)),
    }
}

/// Makes a call that waits.
fn make_waiting<N: Node, T: Ruled + Template<N, Arena<N, <T as Ruled>::Rule>>, R: Runtime>(
    rt: &R,
    map: &Dictionary<N, T>,
    pass: &mut Pass<N, T::Rule>,
    key: u64,
    op: Op,
) -> Answer
    requires { IsIdlePassOf map.now pass.old }
    ensures pass { IsIdlePassOf map.now pass.new }
    ensures caller { SameCaller pass.old pass.new }
{
    match op {
        Op::Get => Ok(map.get(rt, pass, key)),
        Op::Put(value) => of_fill(map.put(rt, pass, key, value)),
        Op::Add(value) => of_fill(map.add(rt, pass, key, value)),
        Op::Swap(old, new) => Ok(map.swap(rt, pass, key, old, new)),
        Op::Del => Ok(map.del(rt, pass, key)),
    }
}

/// Makes a call that does not wait.
fn make_trying<N: Node, T: Ruled + Template<N, Arena<N, <T as Ruled>::Rule>>>(
    map: &Dictionary<N, T>,
    pass: &mut Pass<N, T::Rule>,
    key: u64,
    op: Op,
) -> Answer
    requires { IsIdlePassOf map.now pass.old }
    ensures pass { IsIdlePassOf map.now pass.new }
    ensures caller { SameCaller pass.old pass.new }
{
    match op {
        Op::Get => of_try(map.try_get(pass, key)),
        Op::Put(value) => map.try_put(pass, key, value),
        Op::Add(value) => map.try_add(pass, key, value),
        Op::Swap(old, new) => of_try(map.try_swap(pass, key, old, new)),
        Op::Del => of_try(map.try_del(pass, key)),
    }
}

/// Makes a call that does not wait, by the technique itself, and notifies the gate.
fn make_trying_at<N: Node, T: Ruled + Template<N, Arena<N, <T as Ruled>::Rule>>>(
    map: &Dictionary<N, T>,
    pass: &mut Pass<N, T::Rule>,
    gate: &InOrder,
    key: u64,
    op: Op,
) -> Answer
    requires { IsIdlePassOf map.now pass.old }
    ensures pass { IsIdlePassOf map.now pass.new }
    ensures caller { SameCaller pass.old pass.new }
{
    let arena = map.arena();
    let place = N::Places::place(key);
    match op {
        Op::Get => of_try(T::try_get(arena, pass, gate, place)),
        Op::Put(value) => T::try_put(arena, pass, gate, place, value),
        Op::Add(value) => T::try_add(arena, pass, gate, place, value),
        Op::Swap(old, new) => of_try(T::try_swap(arena, pass, gate, place, old, new)),
        Op::Del => of_try(T::try_del(arena, pass, gate, place)),
    }
}

/// Makes a call, at the gate if there is one.
pub(crate) fn make<N: Node, T: Ruled + Template<N, Arena<N, <T as Ruled>::Rule>>, R: Wait>(
    rt: &R,
    map: &Dictionary<N, T>,
    pass: &mut Pass<N, T::Rule>,
    gate: Option<&InOrder>,
    call: Call,
) -> Answer
    requires { IsIdlePassOf map.now pass.old }
    ensures pass { IsIdlePassOf map.now pass.new }
    ensures caller { SameCaller pass.old pass.new }
{
    match (gate, call.waits) {
        (Some(gate), true) => make_waiting(&Gated { rt, gate }, map, pass, call.key, call.op),
        (Some(gate), false) => make_trying_at(map, pass, gate, call.key, call.op),
        (None, true) => make_waiting(rt, map, pass, call.key, call.op),
        (None, false) => make_trying(map, pass, call.key, call.op),
    }
}

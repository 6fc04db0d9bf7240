//! The calls of workers: each may begin where the worker's aid says.
ghost use Rattle.std.proofs.Common.{rules};
ghost use Rattle.ks_history.specs.Done.{give_up};
ghost use Rattle.ks_aid.specs.OneKey.{IsFoundOrFull};
ghost use Rattle.ks_arena.specs.Of.{IsEmptyPassOf, SameCaller};
ghost use Rattle.ks_shape.specs.Fills.{filling};
ghost use Rattle.ks_shape.specs.Of.{DoneOf};

use crate::calls_near::{del_near, fill_near, get_near, swap_near};
use crate::technique::GiveUp;
use ks_aid::{Aid, Asking, Serving, found_reply, noting};
use ks_arena::{Arena, Pass};
use ks_flow::Tree;
use ks_gate::Gate;
use ks_history::{Op, Reply};
use ks_node::{Ranged, Unlinked};
use ks_shape::Fill;
use std::sync::Wait;

/// Puts or adds a value at a place, beginning where the aid says, and returns the number and the reply.
#[inline(always)]
fn fill_aided<N: Ranged + Unlinked, R: Wait, G: Gate, H: Aid>(
    rt: &R,
    arena: &Arena<N, Tree>,
    pass: &mut Pass<N, Tree>,
    gate: &G,
    aid: &mut H,
    place: u64,
    fill: Fill,
) -> (u64, Reply)
    requires pass { IsEmptyPassOf arena.now pass.old }
    ensures pass { IsEmptyPassOf arena.now pass.new }
    ensures caller { SameCaller pass.old pass.new }
    ensures reply { IsFoundOrFull result.1 }
    ensures done { DoneOf arena.now give_up (filling place fill) pass.old pass.new result.1 result.0 }
{
    let hint = aid.hint(place);
    match fill_near(rt, arena, pass, gate, hint, place, fill) {
        Ok(at) => found_reply(noting(rt, aid, place, at)),
        Err(full) => (full.number, Reply::Full),
    }
}

impl Asking for GiveUp {
    fn asks() -> bool {
        true
    }
}

impl<N: Ranged + Unlinked> Serving<N, Arena<N, Tree>> for GiveUp {
    fn call_aided<R: Wait, G: Gate, H: Aid>(
        rt: &R,
        arena: &Arena<N, Tree>,
        pass: &mut Pass<N, Tree>,
        gate: &G,
        aid: &mut H,
        op: Op,
    ) -> (u64, Reply) {
        match op {
            Op::Get(place) => {
                let hint = aid.hint(place);
                let at = get_near(rt, arena, pass, gate, hint, place);
                found_reply(noting(rt, aid, place, at))
            }
            Op::Put(place, value) => {
                fill_aided(rt, arena, pass, gate, aid, place, Fill::Put(value))
            }
            Op::Del(place) => {
                let hint = aid.hint(place);
                let at = del_near(rt, arena, pass, gate, hint, place);
                found_reply(noting(rt, aid, place, at))
            }
            Op::Add(place, value) => {
                fill_aided(rt, arena, pass, gate, aid, place, Fill::Add(value))
            }
            Op::Swap(place, old, new) => {
                let hint = aid.hint(place);
                let at = swap_near(rt, arena, pass, gate, hint, place, old, new);
                found_reply(noting(rt, aid, place, at))
            }
            Op::Part(_, _) | Op::Move(_, _) => unreachable!(),
        }
    }

    ghost fits = { Prim.search rules };
}

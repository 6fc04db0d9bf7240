//! The calls of workers by lock coupling: each begins at the root, and asks no aid.
ghost use Rattle.std.proofs.Common.{rules};

use crate::technique::Coupling;
use ks_aid::{Aid, Asking, Serving, filled_reply, found_reply};
use ks_arena::{Arena, Pass};
use ks_flow::Tree;
use ks_gate::Gate;
use ks_history::{Op, Reply};
use ks_node::Unlinked;
use ks_shape::Template;
use std::sync::Wait;

impl Asking for Coupling {
    fn asks() -> bool {
        false
    }
}

impl<N: Unlinked> Serving<N, Arena<N, Tree>> for Coupling {
    fn call_aided<R: Wait, G: Gate, H: Aid>(
        rt: &R,
        arena: &Arena<N, Tree>,
        pass: &mut Pass<N, Tree>,
        gate: &G,
        _aid: &mut H,
        op: Op,
    ) -> (u64, Reply) {
        match op {
            Op::Get(place) => found_reply(Coupling::get(rt, arena, pass, gate, place)),
            Op::Put(place, value) => {
                filled_reply(Coupling::put(rt, arena, pass, gate, place, value))
            }
            Op::Del(place) => found_reply(Coupling::del(rt, arena, pass, gate, place)),
            Op::Add(place, value) => {
                filled_reply(Coupling::add(rt, arena, pass, gate, place, value))
            }
            Op::Swap(place, old, new) => {
                found_reply(Coupling::swap(rt, arena, pass, gate, place, old, new))
            }
            Op::Part(_, _) | Op::Move(_, _) => unreachable!(),
        }
    }

    ghost fits = { Prim.search rules };
}

//! Giving up as a technique of dictionaries.
ghost use Rattle.ks_history.specs.Done.{give_up};

use crate::{calls, tries, try_puts};
use ks_arena::{Arena, Pass};
use ks_flow::Tree;
use ks_gate::Gate;
use ks_node::{Ranged, Unlinked};
use ks_shape::{Full, Later, Numbered, PutLater, Ruled, Template};
use std::sync::Wait;

/// Giving up, over nodes that have a range and no links.
pub struct GiveUp;

impl Ruled for GiveUp {
    type Rule = Tree;

    ghost technique = { give_up };
}

impl<N: Ranged + Unlinked> Template<N, Arena<N, Tree>> for GiveUp {
    fn fits() {}

    fn get<R: Wait, G: Gate>(
        rt: &R,
        arena: &Arena<N, Tree>,
        pass: &mut Pass<N, Tree>,
        gate: &G,
        place: u64,
    ) -> Numbered {
        calls::get(rt, arena, pass, gate, place)
    }

    fn put<R: Wait, G: Gate>(
        rt: &R,
        arena: &Arena<N, Tree>,
        pass: &mut Pass<N, Tree>,
        gate: &G,
        place: u64,
        value: u128,
    ) -> Result<Numbered, Full> {
        calls::put(rt, arena, pass, gate, place, value)
    }

    fn add<R: Wait, G: Gate>(
        rt: &R,
        arena: &Arena<N, Tree>,
        pass: &mut Pass<N, Tree>,
        gate: &G,
        place: u64,
        value: u128,
    ) -> Result<Numbered, Full> {
        calls::add(rt, arena, pass, gate, place, value)
    }

    fn swap<R: Wait, G: Gate>(
        rt: &R,
        arena: &Arena<N, Tree>,
        pass: &mut Pass<N, Tree>,
        gate: &G,
        place: u64,
        old: u128,
        new: u128,
    ) -> Numbered {
        calls::swap(rt, arena, pass, gate, place, old, new)
    }

    fn del<R: Wait, G: Gate>(
        rt: &R,
        arena: &Arena<N, Tree>,
        pass: &mut Pass<N, Tree>,
        gate: &G,
        place: u64,
    ) -> Numbered {
        calls::del(rt, arena, pass, gate, place)
    }

    fn try_get<G: Gate>(
        arena: &Arena<N, Tree>,
        pass: &mut Pass<N, Tree>,
        gate: &G,
        place: u64,
    ) -> Result<Numbered, Later> {
        tries::try_get(arena, pass, gate, place)
    }

    fn try_put<G: Gate>(
        arena: &Arena<N, Tree>,
        pass: &mut Pass<N, Tree>,
        gate: &G,
        place: u64,
        value: u128,
    ) -> Result<Numbered, PutLater> {
        try_puts::try_put(arena, pass, gate, place, value)
    }

    fn try_add<G: Gate>(
        arena: &Arena<N, Tree>,
        pass: &mut Pass<N, Tree>,
        gate: &G,
        place: u64,
        value: u128,
    ) -> Result<Numbered, PutLater> {
        try_puts::try_add(arena, pass, gate, place, value)
    }

    fn try_swap<G: Gate>(
        arena: &Arena<N, Tree>,
        pass: &mut Pass<N, Tree>,
        gate: &G,
        place: u64,
        old: u128,
        new: u128,
    ) -> Result<Numbered, Later> {
        tries::try_swap(arena, pass, gate, place, old, new)
    }

    fn try_del<G: Gate>(
        arena: &Arena<N, Tree>,
        pass: &mut Pass<N, Tree>,
        gate: &G,
        place: u64,
    ) -> Result<Numbered, Later> {
        tries::try_del(arena, pass, gate, place)
    }
}

//! Moves along links as a technique of concurrency.
ghost use Rattle.ks_history.specs.Done.{link_move};

use ks_arena::{Arena, Pass};
use ks_flow::Link;
use ks_gate::Gate;
use ks_node::{Linked, Listed, linked_law};
use ks_shape::{Full, Later, Numbered, Part, PutLater, Ruled, Scanning, Template};
use std::sync::Wait;

/// Callers move along links, over any linked node.
pub struct LinkMove;

impl Ruled for LinkMove {
    type Rule = Link;

    ghost technique = { link_move };
}

impl<N: Linked> Template<N, Arena<N, Link>> for LinkMove {
    fn fits() {
        linked_law::<N>();
    }

    fn get<R: Wait, G: Gate>(
        rt: &R,
        arena: &Arena<N, Link>,
        pass: &mut Pass<N, Link>,
        gate: &G,
        place: u64,
    ) -> Numbered {
        crate::calls::get(rt, arena, pass, gate, place)
    }

    fn put<R: Wait, G: Gate>(
        rt: &R,
        arena: &Arena<N, Link>,
        pass: &mut Pass<N, Link>,
        gate: &G,
        place: u64,
        value: u128,
    ) -> Result<Numbered, Full> {
        crate::puts::put(rt, arena, pass, gate, place, value)
    }

    fn add<R: Wait, G: Gate>(
        rt: &R,
        arena: &Arena<N, Link>,
        pass: &mut Pass<N, Link>,
        gate: &G,
        place: u64,
        value: u128,
    ) -> Result<Numbered, Full> {
        crate::puts::add(rt, arena, pass, gate, place, value)
    }

    fn swap<R: Wait, G: Gate>(
        rt: &R,
        arena: &Arena<N, Link>,
        pass: &mut Pass<N, Link>,
        gate: &G,
        place: u64,
        old: u128,
        new: u128,
    ) -> Numbered {
        crate::calls::swap(rt, arena, pass, gate, place, old, new)
    }

    fn del<R: Wait, G: Gate>(
        rt: &R,
        arena: &Arena<N, Link>,
        pass: &mut Pass<N, Link>,
        gate: &G,
        place: u64,
    ) -> Numbered {
        crate::calls::del(rt, arena, pass, gate, place)
    }

    fn try_get<G: Gate>(
        arena: &Arena<N, Link>,
        pass: &mut Pass<N, Link>,
        gate: &G,
        place: u64,
    ) -> Result<Numbered, Later> {
        crate::tries::try_get(arena, pass, gate, place)
    }

    fn try_put<G: Gate>(
        arena: &Arena<N, Link>,
        pass: &mut Pass<N, Link>,
        gate: &G,
        place: u64,
        value: u128,
    ) -> Result<Numbered, PutLater> {
        crate::try_puts::try_put(arena, pass, gate, place, value)
    }

    fn try_add<G: Gate>(
        arena: &Arena<N, Link>,
        pass: &mut Pass<N, Link>,
        gate: &G,
        place: u64,
        value: u128,
    ) -> Result<Numbered, PutLater> {
        crate::try_puts::try_add(arena, pass, gate, place, value)
    }

    fn try_swap<G: Gate>(
        arena: &Arena<N, Link>,
        pass: &mut Pass<N, Link>,
        gate: &G,
        place: u64,
        old: u128,
        new: u128,
    ) -> Result<Numbered, Later> {
        crate::tries::try_swap(arena, pass, gate, place, old, new)
    }

    fn try_del<G: Gate>(
        arena: &Arena<N, Link>,
        pass: &mut Pass<N, Link>,
        gate: &G,
        place: u64,
    ) -> Result<Numbered, Later> {
        crate::tries::try_del(arena, pass, gate, place)
    }
}

impl<N: Linked + Listed> Scanning<N, Arena<N, Link>> for LinkMove {
    ghost plain = { N.plain };

    fn scan_part<R: Wait, G: Gate>(
        rt: &R,
        arena: &Arena<N, Link>,
        pass: &mut Pass<N, Link>,
        gate: &G,
        low: u64,
        last: u64,
    ) -> Part {
        crate::scans::scan_part(rt, arena, pass, gate, low, last)
    }
}

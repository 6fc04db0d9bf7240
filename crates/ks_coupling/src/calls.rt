//! The calls of a dictionary by lock coupling. Their clauses are those of `Template`.
use crate::descent::find;
use crate::technique::Coupling;
use ks_arena::{Arena, Pass};
use ks_flow::Tree;
use ks_gate::{Gate, Point};
use ks_node::Unlinked;
use ks_put::pair_fill;
use ks_shape::{Fill, Full, Later, Numbered, PutLater, Template, get_here, swap_here};
use ks_tidy::{Tidied, come_down, del_on};
use std::sync::Wait;

impl<N: Unlinked> Template<N, Arena<N, Tree>> for Coupling {
    fn fits() {}

    /// Returns the value at a place, and the number of the call. It holds two nodes at most.
    #[inline(never)]
    fn get<R: Wait, G: Gate>(
        rt: &R,
        arena: &Arena<N, Tree>,
        pass: &mut Pass<N, Tree>,
        gate: &G,
        place: u64,
    ) -> Numbered {
        let held = find(rt, arena, pass, gate, place);
        get_here(arena, pass, gate, place, held)
    }

    /// Puts a value at a place; returns the value that was there, and the number of the call. It splits full branches
    /// on the search path, and the node at its end if that is full and the place has no value. It holds three nodes at
    /// most.
    ///
    /// # Errors
    ///
    /// `Full` if the node has no room, the place has no value, and no node was found free: the call has its number, and
    /// splits that it made before stay.
    fn put<R: Wait, G: Gate>(
        rt: &R,
        arena: &Arena<N, Tree>,
        pass: &mut Pass<N, Tree>,
        gate: &G,
        place: u64,
        value: u128,
    ) -> Result<Numbered, Full> {
        gate.at(pass.caller(), Point::Begin);
        pair_fill(rt, arena, pass, gate, place, Fill::Put(value))
    }

    /// Puts a value at a place that has none; returns the value that was there, which then stays, and the number of the
    /// call. It searches as `put` does.
    ///
    /// # Errors
    ///
    /// `Full` as for `put`.
    fn add<R: Wait, G: Gate>(
        rt: &R,
        arena: &Arena<N, Tree>,
        pass: &mut Pass<N, Tree>,
        gate: &G,
        place: u64,
        value: u128,
    ) -> Result<Numbered, Full> {
        gate.at(pass.caller(), Point::Begin);
        pair_fill(rt, arena, pass, gate, place, Fill::Add(value))
    }

    /// Puts `new` at a place if the value there is `old`; returns the value that was there, and the number of the call.
    /// It holds two nodes at most.
    fn swap<R: Wait, G: Gate>(
        rt: &R,
        arena: &Arena<N, Tree>,
        pass: &mut Pass<N, Tree>,
        gate: &G,
        place: u64,
        old: u128,
        new: u128,
    ) -> Numbered {
        let held = find(rt, arena, pass, gate, place);
        swap_here(arena, pass, gate, place, old, new, held)
    }

    /// Deletes what is at a place; returns the value that was there, and the number of the call. It may merge low
    /// branches on the search path, also if it removes nothing; if it removed a pair, it merges the node at its end
    /// while that is low and fits with its right neighbour, and in a type that grows in place it searches again until a
    /// search makes no node free. It claims no node and splits none. It holds three nodes at most.
    fn del<R: Wait, G: Gate>(
        rt: &R,
        arena: &Arena<N, Tree>,
        pass: &mut Pass<N, Tree>,
        gate: &G,
        place: u64,
    ) -> Numbered {
        gate.at(pass.caller(), Point::Begin);
        let Tidied {
            path,
            freed: _,
            again,
        } = come_down(rt, arena, pass, gate, place);
        del_on(rt, arena, pass, gate, place, again, path)
    }

    fn try_get<G: Gate>(
        arena: &Arena<N, Tree>,
        pass: &mut Pass<N, Tree>,
        gate: &G,
        place: u64,
    ) -> Result<Numbered, Later> {
        crate::try_get(arena, pass, gate, place)
    }

    fn try_put<G: Gate>(
        arena: &Arena<N, Tree>,
        pass: &mut Pass<N, Tree>,
        gate: &G,
        place: u64,
        value: u128,
    ) -> Result<Numbered, PutLater> {
        crate::try_put(arena, pass, gate, place, value)
    }

    fn try_add<G: Gate>(
        arena: &Arena<N, Tree>,
        pass: &mut Pass<N, Tree>,
        gate: &G,
        place: u64,
        value: u128,
    ) -> Result<Numbered, PutLater> {
        crate::try_add(arena, pass, gate, place, value)
    }

    fn try_swap<G: Gate>(
        arena: &Arena<N, Tree>,
        pass: &mut Pass<N, Tree>,
        gate: &G,
        place: u64,
        old: u128,
        new: u128,
    ) -> Result<Numbered, Later> {
        crate::try_swap(arena, pass, gate, place, old, new)
    }

    fn try_del<G: Gate>(
        arena: &Arena<N, Tree>,
        pass: &mut Pass<N, Tree>,
        gate: &G,
        place: u64,
    ) -> Result<Numbered, Later> {
        crate::try_del(arena, pass, gate, place)
    }
}

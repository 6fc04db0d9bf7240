//! The non-blocking calls of a dictionary along links.
//!
//! A call that meets no node that another caller holds is made as the one that waits; at the first such node it is put
//! off. It always returns: it goes down, or to the right on a level, and neither goes on for ever.
ghost use Rattle.std.specs.Prelude.{◌≡◌};
ghost use Rattle.ks_history.specs.declared.Op.TheVariants.{Del, Get, Swap};
ghost use Rattle.ks_history.specs.Done.{link_move};
ghost use Rattle.ks_arena.specs.Of.{IsEmptyPassOf, SameCaller};
ghost use Rattle.ks_shape.specs.Of.{TriedOf};
ghost use Rattle.ks_shape.specs.Does.{OnlySearches};

use crate::try_descent::try_find;
use ks_arena::{Arena, Pass};
use ks_flow::Link;
use ks_gate::Gate;
use ks_node::Linked;
use ks_shape::{Later, Numbered, del_here, get_here, swap_here};

/// Returns the value at a place, and the number of the call. It holds one node at a time, and does not wait.
///
/// # Errors
///
/// `Busy` names a node on the search path and the other caller that held it. The call is then no call of the history.
pub fn try_get<N: Linked, G: Gate>(
    arena: &Arena<N, Link>,
    pass: &mut Pass<N, Link>,
    gate: &G,
    place: u64,
) -> Result<Numbered, Later>
    requires pass { IsEmptyPassOf arena.now pass.old }
    ensures pass { IsEmptyPassOf arena.now pass.new }
    ensures caller { SameCaller pass.old pass.new }
    ensures leaves { OnlySearches pass.old pass.new }
    ensures tried { TriedOf arena.now link_move (Get place) pass.old pass.new result }
{
    match try_find(arena, pass, gate, place) {
        Ok(held) => Ok(get_here(arena, pass, gate, place, held)),
        Err(later) => Err(later),
    }
}

/// Deletes what is at a place; returns the value that was there, and the number of the call. It holds one node at a
/// time, and does not wait.
///
/// # Errors
///
/// `Busy` as for `try_get`.
pub fn try_del<N: Linked, G: Gate>(
    arena: &Arena<N, Link>,
    pass: &mut Pass<N, Link>,
    gate: &G,
    place: u64,
) -> Result<Numbered, Later>
    requires pass { IsEmptyPassOf arena.now pass.old }
    ensures pass { IsEmptyPassOf arena.now pass.new }
    ensures caller { SameCaller pass.old pass.new }
    ensures leaves { OnlySearches pass.old pass.new }
    ensures tried { TriedOf arena.now link_move (Del place) pass.old pass.new result }
{
    match try_find(arena, pass, gate, place) {
        Ok(held) => Ok(del_here(arena, pass, gate, place, held)),
        Err(later) => Err(later),
    }
}

/// Sets the value at a place to `new` if it is `old`; returns the value that was there, and the number of the call. It
/// holds one node at a time, and does not wait.
///
/// # Errors
///
/// `Busy` as for `try_get`.
pub fn try_swap<N: Linked, G: Gate>(
    arena: &Arena<N, Link>,
    pass: &mut Pass<N, Link>,
    gate: &G,
    place: u64,
    old: u128,
    new: u128,
) -> Result<Numbered, Later>
    requires pass { IsEmptyPassOf arena.now pass.old }
    ensures pass { IsEmptyPassOf arena.now pass.new }
    ensures caller { SameCaller pass.old pass.new }
    ensures leaves { OnlySearches pass.old pass.new }
    ensures tried { TriedOf arena.now link_move (Swap place old new) pass.old pass.new result }
{
    match try_find(arena, pass, gate, place) {
        Ok(held) => Ok(swap_here(arena, pass, gate, place, old, new, held)),
        Err(later) => Err(later),
    }
}

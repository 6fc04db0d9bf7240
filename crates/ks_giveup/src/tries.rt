//! The non-blocking calls of a dictionary by giving up.
ghost use Rattle.std.specs.Prelude.{◌≡◌};
ghost use Rattle.ks_history.specs.declared.Op.TheVariants.{Del, Get, Swap};
ghost use Rattle.ks_history.specs.Done.{give_up};
ghost use Rattle.ks_arena.specs.Of.{IsEmptyPassOf, SameCaller};
ghost use Rattle.ks_shape.specs.Of.{TriedOf};
ghost use Rattle.ks_giveup.specs.Goes.{GoesTowards};
ghost use Rattle.ks_shape.specs.Does.{OnlyDels, OnlySearches};

use crate::try_descent::try_find;
use ks_arena::{Arena, Pass};
use ks_flow::Tree;
use ks_gate::Gate;
use ks_node::{Ranged, Unlinked};
use ks_shape::{Later, Numbered, get_here, swap_here};
use ks_tidy::try_del_alone;

/// Returns the value at a place, and the number of the call. It holds one node at a time, and waits for none.
///
/// # Errors
///
/// `Busy` if another caller holds the next node on the search path; `Moved` if that node, which was on the path, later
/// lacked the place in its inset, and a Shape of another caller named it during the call; `Far` if as many nodes were
/// taken as there are, while another caller changed some. Then the call is none of the history and left nothing behind.
pub fn try_get<N: Ranged + Unlinked, G: Gate>(
    arena: &Arena<N, Tree>,
    pass: &mut Pass<N, Tree>,
    gate: &G,
    place: u64,
) -> Result<Numbered, Later>
    requires pass { IsEmptyPassOf arena.now pass.old }
    ensures pass { IsEmptyPassOf arena.now pass.new }
    ensures caller { SameCaller pass.old pass.new }
    ensures leaves { OnlySearches pass.old pass.new }
    ensures tried { TriedOf arena.now give_up (Get place) pass.old pass.new result }
    ensures goes { GoesTowards place pass.old pass.new }
{
    match try_find(arena, pass, gate, place) {
        Ok(held) => Ok(get_here(arena, pass, gate, place, held)),
        Err(later) => Err(later),
    }
}

/// Puts `new` at a place if the value there is `old`; returns the value that was there, and the number of the call. It
/// holds one node at a time, and waits for none.
///
/// # Errors
///
/// As for `try_get`.
pub fn try_swap<N: Ranged + Unlinked, G: Gate>(
    arena: &Arena<N, Tree>,
    pass: &mut Pass<N, Tree>,
    gate: &G,
    place: u64,
    old: u128,
    new: u128,
) -> Result<Numbered, Later>
    requires pass { IsEmptyPassOf arena.now pass.old }
    ensures pass { IsEmptyPassOf arena.now pass.new }
    ensures caller { SameCaller pass.old pass.new }
    ensures leaves { OnlySearches pass.old pass.new }
    ensures tried { TriedOf arena.now give_up (Swap place old new) pass.old pass.new result }
    ensures goes { GoesTowards place pass.old pass.new }
{
    match try_find(arena, pass, gate, place) {
        Ok(held) => Ok(swap_here(arena, pass, gate, place, old, new, held)),
        Err(later) => Err(later),
    }
}

/// Deletes what is at a place; returns the value that was there, and the number of the call. It holds one node at a
/// time, and waits for none. If it removed a pair and the node is low, it searches for the place again, holds three
/// nodes at most, and merges: a right neighbour that another caller holds is left as it is, and a node on the search
/// path that another holds ends the merging.
///
/// # Errors
///
/// As for `try_get`.
pub fn try_del<N: Ranged + Unlinked, G: Gate>(
    arena: &Arena<N, Tree>,
    pass: &mut Pass<N, Tree>,
    gate: &G,
    place: u64,
) -> Result<Numbered, Later>
    requires pass { IsEmptyPassOf arena.now pass.old }
    ensures pass { IsEmptyPassOf arena.now pass.new }
    ensures caller { SameCaller pass.old pass.new }
    ensures dels { OnlyDels N.layout N.ranged pass.old pass.new }
    ensures tried { TriedOf arena.now give_up (Del place) pass.old pass.new result }
    ensures goes { GoesTowards place pass.old pass.new }
{
    match try_find(arena, pass, gate, place) {
        Ok(held) => Ok(try_del_alone(arena, pass, gate, place, held)),
        Err(later) => Err(later),
    }
}

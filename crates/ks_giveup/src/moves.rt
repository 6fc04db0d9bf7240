//! Moves of a value between two places: both nodes are held when the move is decided.
ghost use Rattle.std.specs.Prelude.{◌≢◌};
ghost use Rattle.ks_history.specs.declared.Op.TheVariants.{Move};
ghost use Rattle.ks_history.specs.Done.{give_up};
ghost use Rattle.ks_arena.specs.Of.{IsPassOf, IsEmptyPassOf, SameCaller};
ghost use Rattle.ks_shape.specs.Answers.{move_number, move_reply};
ghost use Rattle.ks_shape.specs.Does.{OnlyFills, OnlySearches};
ghost use Rattle.ks_shape.specs.Of.{DoneOf};
ghost use Rattle.ks_pair.specs.Of.{CameToPair, MovesOn};

use crate::descent::find;
use crate::technique::GiveUp;
use ks_arena::laws::sound_law;
use ks_arena::{Arena, Pass};
use ks_flow::Tree;
use ks_gate::{Gate, Point};
use ks_node::{Ranged, Unlinked};
use ks_pair::{Pair, Step, ends_at, move_here, take_other, turned};
use ks_put::clear_room;
use ks_shape::{MoveLeft, Moving, Numbered, give_last};
use std::sync::Wait;
use std::thread::yield_now;

/// Takes the nodes at which the searches for two places end, or `None`, if the one for the higher place is no longer to
/// be had once the one for the lower place is held.
fn find_pair<N: Ranged + Unlinked, R: Wait, G: Gate>(
    rt: &R,
    arena: &Arena<N, Tree>,
    pass: &mut Pass<N, Tree>,
    gate: &G,
    low: u64,
    high: u64,
) -> Option<Pair<N>>
    requires pass { IsEmptyPassOf arena.now pass.old }
    ensures pass { IsPassOf arena.now pass.new }
    ensures caller { SameCaller pass.old pass.new }
    ensures leaves { OnlySearches pass.old pass.new }
    ensures came { CameToPair arena.now low high pass.new result }
    ensures under { MovesOn give_up pass.old pass.new }
{
    sound_law::<Tree>();
    let held = find(rt, arena, pass, gate, high);
    if ends_at(&held, low) {
        return Some(Pair::One(held));
    }
    let other = held.node;
    give_last(arena, pass, gate, held);
    let held = find(rt, arena, pass, gate, low);
    take_other(arena, pass, gate, low, high, held, other)
}

/// Takes the nodes of both places: searches for the higher place first, and has the node of the lower one when it tries
/// to take the other beside it. So callers that move in opposite directions take nodes in one order.
fn find_both<N: Ranged + Unlinked, R: Wait, G: Gate>(
    rt: &R,
    arena: &Arena<N, Tree>,
    pass: &mut Pass<N, Tree>,
    gate: &G,
    from: u64,
    to: u64,
) -> Option<Pair<N>>
    requires pass { IsEmptyPassOf arena.now pass.old }
    ensures pass { IsPassOf arena.now pass.new }
    ensures caller { SameCaller pass.old pass.new }
    ensures leaves { OnlySearches pass.old pass.new }
    ensures came { CameToPair arena.now from to pass.new result }
    ensures under { MovesOn give_up pass.old pass.new }
{
    if from < to {
        return find_pair(rt, arena, pass, gate, from, to);
    }
    match find_pair(rt, arena, pass, gate, to, from) {
        Some(pair) => Some(turned(pair)),
        None => None,
    }
}

/// Moves the value at `from` to `to`, another place; returns it, and the number of the call. It searches for the higher
/// place as `get` does, then for the lower one, and while it holds that node it tries to take the other again, without
/// waiting. If it cannot have both, it releases all and restarts. If `to` needs room, it releases all, makes room by
/// lock coupling, from the root, where it may wait with a node held, and restarts. Splits that it made stay, also if it
/// then moves nothing.
///
/// # Errors
///
/// `Kept` if both places have a value. `Full` if `from` has a value, `to` has none, they are in two nodes, that of `to`
/// has no room, and no node was found free. The call has its number.
pub fn move_value<N: Ranged + Unlinked, R: Wait, G: Gate>(
    rt: &R,
    arena: &Arena<N, Tree>,
    pass: &mut Pass<N, Tree>,
    gate: &G,
    from: u64,
    to: u64,
) -> Result<Numbered, MoveLeft>
    requires pass { IsEmptyPassOf arena.now pass.old }
    requires apart { from ≢ to }
    ensures pass { IsEmptyPassOf arena.now pass.new }
    ensures caller { SameCaller pass.old pass.new }
    ensures fills { OnlyFills N.layout N.ranged to pass.old pass.new }
    ensures done { DoneOf arena.now give_up (Move from to) pass.old pass.new (move_reply result) (move_number result) }
{
    gate.at(pass.caller(), Point::Begin);
    let mut refused = false;
    for _ in rt.forever() {
        let Some(pair) = find_both(rt, arena, pass, gate, from, to) else {
            yield_now();
            continue;
        };
        match move_here(arena, pass, gate, from, to, pair, refused) {
            Step::Done(answer) => return answer,
            Step::NoRoom => {
                let room = clear_room(rt, arena, pass, gate, to);
                refused = !room;
            }
        }
    }
    unreachable!()
}

impl<N: Ranged + Unlinked> Moving<N, Arena<N, Tree>> for GiveUp {
    fn move_value<R: Wait, G: Gate>(
        rt: &R,
        arena: &Arena<N, Tree>,
        pass: &mut Pass<N, Tree>,
        gate: &G,
        from: u64,
        to: u64,
    ) -> Result<Numbered, MoveLeft> {
        move_value(rt, arena, pass, gate, from, to)
    }
}

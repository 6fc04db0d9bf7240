//! A move between two nodes, of which each has one of its places.
ghost use Rattle.std.specs.Prelude.{◌≢◌, IsTrue};
ghost use Rattle.ks_history.specs.Done.{give_up};
ghost use Rattle.ks_arena.specs.Of.{IsPassOf, IsEmptyPassOf, IsNodeOf, SameCaller, WasRefusedAt};
ghost use Rattle.ks_shape.specs.Does.{OnlySearches};
ghost use Rattle.ks_shape.specs.Of.{SearchEndsAt};
ghost use Rattle.ks_pair.specs.Of.{AdmitsAt, CameToPair, FinishesStep, HoldsBoth, MovesOn};

use crate::ending::{conclude_between, give_both};
use crate::moves::Step;
use crate::pair::{Pair, ends_at, ranged_law};
use ks_arena::laws::sound_law;
use ks_arena::{Arena, Held, Pass, Taken};
use ks_flow::{Discipline, Tree};
use ks_gate::{Gate, Point};
use ks_history::Reply;
use ks_node::{Node, Ranged, node_law};
use ks_shape::{MoveLeft, Numbered, give_last};

/// Takes a node, at which an earlier search for the second place has ended, beside the held one, at which that for the first
/// place has, if that does not wait and the search would still end there. Else it releases all, and returns `None`.
///
/// It only tries: by a take that waits, a caller that holds a node could wait for one that waits for that node.
pub fn take_other<N: Ranged, G: Gate>(
    arena: &Arena<N, Tree>,
    pass: &mut Pass<N, Tree>,
    gate: &G,
    first: u64,
    second: u64,
    held: Held<N>,
    other: u32,
) -> Option<Pair<N>>
    requires pass { IsPassOf arena.now pass.old }
    requires ends { SearchEndsAt arena.now first pass.old held }
    requires other { IsNodeOf arena.now other }
    ensures pass { IsPassOf arena.now pass.new }
    ensures caller { SameCaller pass.old pass.new }
    ensures leaves { OnlySearches pass.old pass.new }
    ensures came { CameToPair arena.now first second pass.new result }
    ensures under { MovesOn give_up pass.old pass.new }
{
    sound_law::<Tree>();
    ranged_law(&held);
    if other == held.node {
        give_last(arena, pass, gate, held);
        return None;
    }
    match arena.try_take(pass, other) {
        Taken::Held(taken) => {
            gate.at(pass.caller(), Point::Taken(other));
            if ends_at(&taken, second) {
                return Some(Pair::Two {
                    first: held,
                    second: taken,
                });
            }
            give_both(arena, pass, gate, taken, held);
            None
        }
        Taken::Busy { holder: _ } => {
            give_last(arena, pass, gate, held);
            None
        }
        Taken::Gone => {
            give_last(arena, pass, gate, held);
            None
        }
    }
}

/// Decides a move where the searches for its places have ended, at two nodes. If the second one is full, lacks its place,
/// and would get a value, it is Full if that was refused before, and else all is released and the move remains undecided.
pub(crate) fn move_between<N: Node, D: Discipline, G: Gate>(
    arena: &Arena<N, D>,
    pass: &mut Pass<N, D>,
    gate: &G,
    from: u64,
    to: u64,
    first: Held<N>,
    second: Held<N>,
    refused: bool,
) -> Step
    requires pass { IsPassOf arena.now pass.old }
    requires holds { HoldsBoth pass.old first second }
    requires first { AdmitsAt arena.now from pass.old first }
    requires second { AdmitsAt arena.now to pass.old second }
    requires refused { IsTrue refused → WasRefusedAt arena.now pass.old to }
    ensures pass { IsEmptyPassOf arena.now pass.new }
    ensures caller { SameCaller pass.old pass.new }
    ensures leaves { OnlySearches pass.old pass.new }
    ensures step { FinishesStep arena.now from to refused pass.old pass.new result }
{
    sound_law::<D>();
    node_law(&first.body);
    node_law(&second.body);
    let mut first = first;
    let mut second = second;
    let Some(value) = first.body.get(from) else {
        let reply = Reply::Nothing;
        let number = conclude_between(arena, pass, gate, from, to, reply, first, second);
        return Step::Done(Ok(Numbered {
            number,
            found: None,
        }));
    };
    if second.body.get(to).is_some() {
        let reply = Reply::Kept;
        let number = conclude_between(arena, pass, gate, from, to, reply, first, second);
        return Step::Done(Err(MoveLeft::Kept { number }));
    }
    if second.body.is_full() {
        if refused {
            let reply = Reply::Full;
            let number = conclude_between(arena, pass, gate, from, to, reply, first, second);
            return Step::Done(Err(MoveLeft::Full { number }));
        }
        give_both(arena, pass, gate, first, second);
        return Step::NoRoom;
    }
    first.body.del(from);
    second.body.put(to, value);
    let reply = Reply::Value(value);
    let number = conclude_between(arena, pass, gate, from, to, reply, first, second);
    Step::Done(Ok(Numbered {
        number,
        found: Some(value),
    }))
}

//! A put and an add as one operation with a value: at the end of the search for its place, it is decided once for both.
ghost use Rattle.std.specs.Prelude.{◌≡◌};
ghost use Rattle.ks_arena.specs.Of.{IsPassOf};
ghost use Rattle.ks_shape.specs.Fills.{filling, not_later, EndsForRoomOf, FinishesFill, FinishesFillAt};
ghost use Rattle.ks_shape.specs.Of.{IsOver};
ghost use Rattle.ks_shape.specs.Does.{OnlySearches};

use crate::answers::{Full, Numbered, PutLater};
use crate::here::{add_here, put_here, refuse_here};
use ks_arena::{Arena, Held, Pass};
use ks_flow::Discipline;
use ks_gate::Gate;
use ks_history::Op;
use ks_node::Node;

/// What is set at a place that may need room for it.
#[derive(Clone, Copy, Debug, PartialEq, Eq)]
pub enum Fill {
    /// The value, also if the place has one.
    Put(u128),
    /// The value, if the place has none.
    Add(u128),
}

/// Decides a put or an add at the end of a search for room: at a node that has the place or room for it; or, `Err`, as full,
/// at a full node that lacks the place, after no node was found free.
#[inline(always)]
pub fn fill_at<N: Node, D: Discipline, G: Gate>(
    arena: &Arena<N, D>,
    pass: &mut Pass<N, D>,
    gate: &G,
    place: u64,
    fill: Fill,
    found: Result<Held<N>, Held<N>>,
) -> Result<Numbered, Full>
    requires pass { IsPassOf arena.now pass.old }
    requires found { EndsForRoomOf arena.now place pass.old found }
    ensures over { IsOver arena.now pass.old pass.new }
    ensures leaves { OnlySearches pass.old pass.new }
    ensures done { FinishesFill arena.now (filling place fill) place found pass.old pass.new result }
    ensures at { FinishesFillAt arena.now (filling place fill) found pass.old pass.new result }
{
    match (fill, found) {
        (Fill::Put(value), Ok(held)) => Ok(put_here(arena, pass, gate, place, value, held)),
        (Fill::Add(value), Ok(held)) => Ok(add_here(arena, pass, gate, place, value, held)),
        (Fill::Put(value), Err(held)) => {
            let op = Op::Put(place, value);
            Err(refuse_here(arena, pass, gate, place, value, held, op))
        }
        (Fill::Add(value), Err(held)) => {
            let op = Op::Add(place, value);
            Err(refuse_here(arena, pass, gate, place, value, held, op))
        }
    }
}

/// The result of a put or an add that was not put off, in the type of one that may be.
pub fn not_put_off(answer: Result<Numbered, Full>) -> Result<Numbered, PutLater>
    ensures { result ≡ not_later answer }
{
    match answer {
        Ok(numbered) => Ok(numbered),
        Err(full) => Err(PutLater::Full {
            number: full.number,
        }),
    }
}

//! A move within one node, which has both places.
ghost use Rattle.std.specs.Prelude.{◌≢◌};
ghost use Rattle.ks_arena.specs.Of.{IsPassOf, IsEmptyPassOf, SameCaller};
ghost use Rattle.ks_shape.specs.Does.{OnlySearches};
ghost use Rattle.ks_shape.specs.Of.{SearchEndsAt};
ghost use Rattle.ks_pair.specs.Of.{FinishesMove};

use crate::ending::conclude_within;
use ks_arena::laws::sound_law;
use ks_arena::{Arena, Held, Pass};
use ks_flow::Discipline;
use ks_gate::Gate;
use ks_history::Reply;
use ks_node::{Node, node_law};
use ks_shape::{MoveLeft, Numbered};

/// Decides a move where the searches for both its places have ended: what goes away from the one makes room for what comes
/// to the other.
pub(crate) fn move_within<N: Node, D: Discipline, G: Gate>(
    arena: &Arena<N, D>,
    pass: &mut Pass<N, D>,
    gate: &G,
    from: u64,
    to: u64,
    held: Held<N>,
) -> Result<Numbered, MoveLeft>
    requires pass { IsPassOf arena.now pass.old }
    requires from { SearchEndsAt arena.now from pass.old held }
    requires to { SearchEndsAt arena.now to pass.old held }
    requires apart { from ≢ to }
    ensures pass { IsEmptyPassOf arena.now pass.new }
    ensures caller { SameCaller pass.old pass.new }
    ensures leaves { OnlySearches pass.old pass.new }
    ensures done { FinishesMove arena.now from to pass.old pass.new result }
{
    sound_law::<D>();
    node_law(&held.body);
    let mut held = held;
    let Some(value) = held.body.get(from) else {
        let number = conclude_within(arena, pass, gate, from, to, Reply::Nothing, held);
        return Ok(Numbered {
            number,
            found: None,
        });
    };
    if held.body.get(to).is_some() {
        let number = conclude_within(arena, pass, gate, from, to, Reply::Kept, held);
        return Err(MoveLeft::Kept { number });
    }
    held.body.del(from);
    held.body.put(to, value);
    let number = conclude_within(arena, pass, gate, from, to, Reply::Value(value), held);
    Ok(Numbered {
        number,
        found: Some(value),
    })
}

//! The descent from the root to the node where a search ends, without waiting; it never restarts.
ghost use Rattle.std.specs.Prelude.{Decides, IsTrue, is_some};
ghost use Rattle.ks_history.specs.Done.{give_up};
ghost use Rattle.ks_arena.specs.Of.{IsPassOf, IsEmptyPassOf, IsNodeOf, SameCaller};
ghost use Rattle.ks_shape.specs.Of.{IsUnderway, StaysUnderway};
ghost use Rattle.ks_shape.specs.Descents.{CameToEnd};
ghost use Rattle.ks_giveup.specs.Goes.{GoesTowards, MayVisitNext};
ghost use Rattle.ks_giveup.specs.Once.{TookRootOnce};
ghost use Rattle.ks_giveup.specs.Tries.{ComesTo, IsWithin};
ghost use Rattle.ks_shape.specs.Does.{OnlySearches};

use crate::descent::leave_held;
use ks_arena::laws::{sound_law, tree_beside_law};
use ks_arena::{Arena, Held, Pass, Taken};
use ks_flow::Tree;
use ks_gate::{Gate, Point};
use ks_node::{Next, Ranged, Unlinked};
use ks_shape::{Later, child_law, give_last, tree_end_law};

/// Whether the range of a node holds the place.
fn is_in_range<N: Ranged + Unlinked>(held: &Held<N>, place: u64) -> bool
    ensures ranged { IsTrue (is_some (N.body held.now.body).range) }
    ensures within { Decides result (IsWithin (N.body held.now.body) place) }
{
    let range = held.body.range();
    range.low <= place && place <= range.last
}

/// Tries to take a node that was on the search path, and keeps it if its range holds the place.
fn try_visit<N: Ranged + Unlinked, G: Gate>(
    arena: &Arena<N, Tree>,
    pass: &mut Pass<N, Tree>,
    gate: &G,
    place: u64,
    node: u32,
) -> Result<Held<N>, Later>
    requires pass { IsEmptyPassOf arena.now pass.old }
    requires node { IsNodeOf arena.now node }
    requires next { MayVisitNext place node pass.old }
    ensures pass { IsPassOf arena.now pass.new }
    ensures caller { SameCaller pass.old pass.new }
    ensures leaves { OnlySearches pass.old pass.new }
    ensures came { ComesTo arena.now place pass.old pass.new node result }
    ensures goes { GoesTowards place pass.old pass.new }
    ensures under { StaysUnderway give_up pass.old pass.new }
{
    sound_law::<Tree>();
    tree_beside_law();
    match arena.try_take(pass, node) {
        Taken::Held(held) => {
            gate.at(pass.caller(), Point::Taken(node));
            if is_in_range(&held, place) {
                return Ok(held);
            }
            give_last(arena, pass, gate, held);
            Err(Later::Moved { node })
        }
        Taken::Busy { holder } => Err(Later::Busy { node, holder }),
        Taken::Gone => Err(Later::Moved { node }),
    }
}

/// Takes the node at which the search for a place ends, and holds no other; if put off it holds nothing.
pub(crate) fn try_find<N: Ranged + Unlinked, G: Gate>(
    arena: &Arena<N, Tree>,
    pass: &mut Pass<N, Tree>,
    gate: &G,
    place: u64,
) -> Result<Held<N>, Later>
    requires pass { IsEmptyPassOf arena.now pass.old }
    ensures pass { IsPassOf arena.now pass.new }
    ensures caller { SameCaller pass.old pass.new }
    ensures leaves { OnlySearches pass.old pass.new }
    ensures came { CameToEnd arena.now give_up place pass.old pass.new result }
    ensures once { TookRootOnce pass.old pass.new result }
    ensures goes { GoesTowards place pass.old pass.new }
    ensures under { IsUnderway give_up pass.old pass.new }
{
    sound_law::<Tree>();
    gate.at(pass.caller(), Point::Begin);
    let mut node = 0;
    for _steps in 0..arena.nodes() {
        let held = match try_visit(arena, pass, gate, place, node) {
            Ok(held) => held,
            Err(later) => return Err(later),
        };
        match held.body.next(place) {
            Next::Here => {
                tree_end_law(arena, pass, &held, place);
                return Ok(held);
            }
            Next::Go(child) => {
                child_law(arena, pass, place, &held, child);
                leave_held(arena, pass, gate, place, held, child);
                node = child;
            }
        }
    }
    Err(Later::Far)
}

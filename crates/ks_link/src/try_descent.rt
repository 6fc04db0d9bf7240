//! The search from the root, down and to the right, without waiting. It ends without a count: each step goes a level
//! down, or further right on its level.
ghost use Rattle.std.specs.Prelude.{◌≡◌};
ghost use Rattle.ks_history.specs.Done.{link_move};
ghost use Rattle.ks_node.specs.declared.start.Next.TheVariants.{Go};
ghost use Rattle.ks_node.specs.Body.{next_at};
ghost use Rattle.ks_arena.specs.Of.{IsPassOf, IsEmptyPassOf, SameCaller, caller_of};
ghost use Rattle.ks_shape.specs.Of.{IsUnderway, StaysUnderway, MakesNoneLive};
ghost use Rattle.ks_link.specs.Of.{SearchIsAt, TriedToEnter, TriedToGoOn, TriedToFind};
ghost use Rattle.ks_shape.specs.Does.{OnlySearches};

use ks_arena::laws::{link_live_law, root_stays_law, sound_law};
use ks_arena::{Arena, Held, Pass, Taken};
use ks_flow::Link;
use ks_gate::{Gate, Point};
use ks_node::{Linked, Next, node_law};
use ks_shape::Later;

/// Takes the root, unless another caller holds it.
pub(crate) fn try_enter<N: Linked, G: Gate>(
    arena: &Arena<N, Link>,
    pass: &mut Pass<N, Link>,
    gate: &G,
    place: u64,
) -> Result<Held<N>, Later>
    requires pass { IsEmptyPassOf arena.now pass.old }
    ensures pass { IsPassOf arena.now pass.new }
    ensures caller { SameCaller pass.old pass.new }
    ensures leaves { OnlySearches pass.old pass.new }
    ensures entered { TriedToEnter arena.now place pass.old pass.new result }
    ensures under { IsUnderway link_move pass.old pass.new }
    ensures makes { MakesNoneLive pass.old pass.new }
{
    root_stays_law::<Link>();
    sound_law::<Link>();
    match arena.try_take(pass, 0) {
        Taken::Held(root) => {
            gate.at(pass.caller(), Point::Taken(0));
            Ok(root)
        }
        Taken::Busy { holder } => Err(Later::Busy { node: 0, holder }),
        Taken::Gone => unreachable!(),
    }
}

/// Releases the node, and takes the one to which the search goes on, unless another caller holds it: a child, or the
/// node right of it.
pub(crate) fn try_go_on<N: Linked, G: Gate>(
    arena: &Arena<N, Link>,
    pass: &mut Pass<N, Link>,
    gate: &G,
    place: u64,
    held: Held<N>,
    next: u32,
) -> Result<Held<N>, Later>
    requires pass { IsPassOf arena.now pass.old }
    requires way { SearchIsAt arena.now (caller_of pass.old) place pass.old held }
    requires goes { next_at (N.body held.body) place ≡ Go next }
    ensures pass { IsPassOf arena.now pass.new }
    ensures caller { SameCaller pass.old pass.new }
    ensures leaves { OnlySearches pass.old pass.new }
    ensures went { TriedToGoOn arena.now place pass.old pass.new held next result }
    ensures under { StaysUnderway link_move pass.old pass.new }
    ensures makes { MakesNoneLive pass.old pass.new }
{
    sound_law::<Link>();
    link_live_law();
    node_law(&held.body);
    let node = held.node;
    arena.give(pass, held);
    gate.at(pass.caller(), Point::Given(node));
    match arena.try_take(pass, next) {
        Taken::Held(taken) => {
            gate.at(pass.caller(), Point::Taken(next));
            Ok(taken)
        }
        Taken::Busy { holder } => Err(Later::Busy { node: next, holder }),
        Taken::Gone => unreachable!(),
    }
}

/// Takes the node at which the search for a place ends, and holds no other. `Err`: another caller held a node on the
/// search path.
pub(crate) fn try_find<N: Linked, G: Gate>(
    arena: &Arena<N, Link>,
    pass: &mut Pass<N, Link>,
    gate: &G,
    place: u64,
) -> Result<Held<N>, Later>
    requires pass { IsEmptyPassOf arena.now pass.old }
    ensures pass { IsPassOf arena.now pass.new }
    ensures caller { SameCaller pass.old pass.new }
    ensures leaves { OnlySearches pass.old pass.new }
    ensures found { TriedToFind arena.now place pass.old pass.new result }
    ensures under { IsUnderway link_move pass.old pass.new }
    ensures makes { MakesNoneLive pass.old pass.new }
{
    sound_law::<Link>();
    gate.at(pass.caller(), Point::Begin);
    let mut held = match try_enter(arena, pass, gate, place) {
        Ok(root) => root,
        Err(later) => return Err(later),
    };
    loop {
        node_law(&held.body);
        match held.body.next(place) {
            Next::Here => return Ok(held),
            Next::Go(next) => match try_go_on(arena, pass, gate, place, held, next) {
                Ok(taken) => held = taken,
                Err(later) => return Err(later),
            },
        }
    }
}

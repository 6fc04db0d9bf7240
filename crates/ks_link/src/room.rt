//! How a node at which a search has ended gets room for its place. It needs no runtime: each half reaches less far than
//! its whole, so it ends.
ghost use Rattle.std.specs.Prelude.{◌≡◌, All, IsTrue, []};
ghost use Rattle.ks_history.specs.Done.{link_move};
ghost use Rattle.ks_node.specs.declared.start.Next.TheVariants.{Here};
ghost use Rattle.ks_node.specs.Body.{next_at};
ghost use Rattle.ks_node.specs.Room.{is_full};
ghost use Rattle.ks_arena.specs.Of.{IsPassOf, SameCaller, WasAlone, caller_of};
ghost use Rattle.ks_shape.specs.Of.{IsStretchBy};
ghost use Rattle.ks_link.specs.Leads.{LeavesRoom};
ghost use Rattle.ks_link.specs.Parts.{ReachesLess};
ghost use Rattle.ks_link.specs.Puts.{WaitsFor};
ghost use Rattle.ks_link.specs.Of.{SearchIsAt, WasSplitOff, HasMadeRoom, HasFoundRoom, LeadsAllBut};
ghost use Rattle.ks_shape.specs.Does.{MustSplit, OnlyFills};

use crate::parts::{Parted, Waiting, part};
use arrayvec::ArrayVec;
use ks_arena::laws::sound_law;
use ks_arena::{Arena, Held, Pass};
use ks_flow::Link;
use ks_gate::Gate;
use ks_node::{Linked, linked_law, node_law};
use ks_shape::has_room;

/// What was split off waits, if there is room for it.
fn wait_for(waiting: &mut ArrayVec<Waiting, 7>, new: Option<Waiting>)
    ensures { WaitsFor waiting.old.items waiting.new.items new }
{
    if let Some(new) = new {
        let _ = waiting.try_push(new);
    }
}

/// Splits the full node at which the search ends, and keeps the half at which it ends then. `Err`: the node is as it
/// was, since none was found free. What is split off waits, if there is room for it.
fn make_room<N: Linked, G: Gate>(
    arena: &Arena<N, Link>,
    pass: &mut Pass<N, Link>,
    gate: &G,
    place: u64,
    held: Held<N>,
    waiting: &mut ArrayVec<Waiting, 7>,
) -> Result<Held<N>, Held<N>>
    requires pass { IsPassOf arena.now pass.old }
    requires way { SearchIsAt arena.now (caller_of pass.old) place pass.old held }
    requires ends { next_at (N.body held.body) place ≡ Here }
    requires full { IsTrue (is_full N.layout (N.body held.body)) }
    requires waiting { All (λ w. WasSplitOff arena.now pass.old w) waiting.old.items }
    ensures pass { IsPassOf arena.now pass.new }
    ensures caller { SameCaller pass.old pass.new }
    ensures fills { MustSplit N.layout place (N.body held.body) → OnlyFills N.layout N.ranged place pass.old pass.new }
    ensures made { HasMadeRoom arena.now place pass.old pass.new held result }
    ensures narrower { ReachesLess N.body (N.body held.body) result }
    ensures waiting { All (λ w. WasSplitOff arena.now pass.new w) waiting.new.items }
    ensures stretch { IsStretchBy link_move pass.old pass.new }
    ensures led { waiting.old.items ≡ [] → WasAlone pass.old pass.new →
        LeadsAllBut arena.now waiting.new.items pass.old pass.new }
    ensures room { IsTrue N.halves_have_room → LeavesRoom N.layout N.body result }
{
    sound_law::<Link>();
    linked_law::<N>();
    node_law(&held.body);
    match part(arena, pass, gate, place, held) {
        Ok(Parted { half, new }) => {
            node_law(&half.body);
            wait_for(waiting, new);
            Ok(half)
        }
        Err(held) => Err(held),
    }
}

/// Splits the node at which the search for the place has ended, and keeps the half in which it lies, until that has the
/// place or room for it. `Err`: it is full and lacks the place, and no node was found free. What was split off waits.
pub(crate) fn room_at<N: Linked, G: Gate>(
    arena: &Arena<N, Link>,
    pass: &mut Pass<N, Link>,
    gate: &G,
    place: u64,
    mut held: Held<N>,
    waiting: &mut ArrayVec<Waiting, 7>,
) -> Result<Held<N>, Held<N>>
    requires pass { IsPassOf arena.now pass.old }
    requires way { SearchIsAt arena.now (caller_of pass.old) place pass.old held }
    requires ends { next_at (N.body held.body) place ≡ Here }
    requires waiting { waiting.old.items ≡ [] }
    ensures pass { IsPassOf arena.now pass.new }
    ensures caller { SameCaller pass.old pass.new }
    ensures fills { OnlyFills N.layout N.ranged place pass.old pass.new }
    ensures found { HasFoundRoom arena.now place pass.old pass.new result }
    ensures waiting { All (λ w. WasSplitOff arena.now pass.new w) waiting.new.items }
    ensures stretch { IsStretchBy link_move pass.old pass.new }
    ensures led { IsTrue N.halves_have_room → WasAlone pass.old pass.new →
        LeadsAllBut arena.now waiting.new.items pass.old pass.new }
{
    sound_law::<Link>();
    loop {
        node_law(&held.body);
        if has_room(&held, place) {
            return Ok(held);
        }
        match make_room(arena, pass, gate, place, held, waiting) {
            Ok(next) => held = next,
            Err(held) => return Err(held),
        }
    }
}

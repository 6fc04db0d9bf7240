//! Steps of a call under way, each with its gate: a call of any technique stays under way.
ghost use Rattle.std.specs.Prelude.{◌≡◌};
ghost use Rattle.ks_history.specs.declared.Event.TheVariants.{Give, Take};
ghost use Rattle.ks_arena.specs.Of.{Adds, IsPassOf, IsEmptyPassOf, IsCurrent, SameCaller, caller_of};
ghost use Rattle.ks_shape.specs.Of.{HoldsOnly, IsOnWayOf, IsStretch, MakesNoneLive, StaysUnderwayAny};
ghost use Rattle.ks_shape.specs.Does.{OnlySearches};

use ks_arena::laws::root_stays_law;
use ks_arena::{Arena, Held, Pass, root_law};
use ks_flow::Discipline;
use ks_gate::{Gate, Point};
use ks_node::Node;
use std::sync::Wait;

/// Takes the root, for a call that holds nothing: the root is on the search path of each place.
#[inline(always)]
pub fn take_root<N: Node, D: Discipline, R: Wait, G: Gate>(
    rt: &R,
    arena: &Arena<N, D>,
    pass: &mut Pass<N, D>,
    gate: &G,
    place: u64,
) -> Held<N>
    requires pass { IsEmptyPassOf arena.now pass.old }
    ensures pass { IsPassOf arena.now pass.new }
    ensures caller { SameCaller pass.old pass.new }
    ensures leaves { OnlySearches pass.old pass.new }
    ensures took { Adds (Take (caller_of pass.old) 0) pass.old pass.new }
    ensures root { result.node ≡ 0 }
    ensures way { IsOnWayOf arena.now (caller_of pass.old) place pass.new result }
    ensures under { StaysUnderwayAny pass.old pass.new }
    ensures stretch { IsStretch pass.old pass.new }
    ensures makes { MakesNoneLive pass.old pass.new }
{
    root_stays_law::<D>();
    let Some(root) = arena.take(rt, pass, 0) else {
        unreachable!()
    };
    root_law::<N>(place);
    gate.at(pass.caller(), Point::Taken(0));
    root
}

/// Releases the one held node.
#[inline(always)]
pub fn give_last<N: Node, D: Discipline, G: Gate>(
    arena: &Arena<N, D>,
    pass: &mut Pass<N, D>,
    gate: &G,
    held: Held<N>,
)
    requires pass { IsPassOf arena.now pass.old }
    requires alone { HoldsOnly pass.old held }
    requires body { IsCurrent arena.now pass.old held }
    ensures pass { IsEmptyPassOf arena.now pass.new }
    ensures caller { SameCaller pass.old pass.new }
    ensures leaves { OnlySearches pass.old pass.new }
    ensures gave { Adds (Give (caller_of pass.old) held.node) pass.old pass.new }
    ensures under { StaysUnderwayAny pass.old pass.new }
    ensures stretch { IsStretch pass.old pass.new }
    ensures makes { MakesNoneLive pass.old pass.new }
{
    let node = held.node;
    arena.give(pass, held);
    gate.at(pass.caller(), Point::Given(node));
}

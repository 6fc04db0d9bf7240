//! Taking a node to which a held node has an edge.
ghost use Rattle.std.specs.Prelude.{◌≡◌, ◌≤◌, length, Any};
ghost use Rattle.ks_node.specs.Edges.{edges_of};
ghost use Rattle.ks_arena.specs.Clauses.{hand_of};
ghost use Rattle.ks_arena.specs.Of.{Holds, IsPassOf, RestStays, SameCaller};
ghost use Rattle.ks_shape.specs.Of.{IsLiveInHand, IsStretch};
ghost use Rattle.ks_tidy.specs.Of.{HasTakenIfIdle, HasTakenNode};
ghost use Rattle.ks_shape.specs.Does.{OnlySearches};

use ks_arena::laws::target_law;
use ks_arena::{Arena, Held, Pass, Taken};
use ks_flow::Tree;
use ks_gate::{Gate, Point};
use ks_node::Unlinked;
use ks_shape::search_law;
use std::sync::Wait;

/// Takes the node to which a held node has an edge.
pub(crate) fn take_led<N: Unlinked, R: Wait, G: Gate>(
    rt: &R,
    arena: &Arena<N, Tree>,
    pass: &mut Pass<N, Tree>,
    gate: &G,
    above: &Held<N>,
    target: u32,
) -> Held<N>
    requires pass { IsPassOf arena.now pass.old }
    requires above { IsLiveInHand arena.now pass.old above.now }
    requires edge { Any (λ e. e.node ≡ target) (edges_of (N.body above.now.body)) }
    requires fresh { ¬ Holds pass.old target }
    requires few { length (hand_of pass.old) ≤ 2 }
    ensures pass { IsPassOf arena.now pass.new }
    ensures caller { SameCaller pass.old pass.new }
    ensures leaves { OnlySearches pass.old pass.new }
    ensures took { HasTakenNode arena.now target pass.old pass.new result }
    ensures rest { RestStays arena.now pass.old pass.new }
    ensures stretch { IsStretch pass.old pass.new }
{
    search_law();
    target_law::<Tree>();
    let Some(held) = arena.take(rt, pass, target) else {
        unreachable!()
    };
    gate.at(pass.caller(), Point::Taken(target));
    held
}

/// Takes the node to which a held node has an edge, unless another caller holds it.
pub(crate) fn try_take_led<N: Unlinked, G: Gate>(
    arena: &Arena<N, Tree>,
    pass: &mut Pass<N, Tree>,
    gate: &G,
    above: &Held<N>,
    target: u32,
) -> Option<Held<N>>
    requires pass { IsPassOf arena.now pass.old }
    requires above { IsLiveInHand arena.now pass.old above.now }
    requires edge { Any (λ e. e.node ≡ target) (edges_of (N.body above.now.body)) }
    requires fresh { ¬ Holds pass.old target }
    requires few { length (hand_of pass.old) ≤ 2 }
    ensures pass { IsPassOf arena.now pass.new }
    ensures caller { SameCaller pass.old pass.new }
    ensures leaves { OnlySearches pass.old pass.new }
    ensures took { HasTakenIfIdle arena.now target pass.old pass.new result }
    ensures rest { RestStays arena.now pass.old pass.new }
    ensures stretch { IsStretch pass.old pass.new }
{
    search_law();
    target_law::<Tree>();
    match arena.try_take(pass, target) {
        Taken::Held(held) => {
            gate.at(pass.caller(), Point::Taken(target));
            Some(held)
        }
        Taken::Busy { holder: _ } => None,
        Taken::Gone => unreachable!(),
    }
}

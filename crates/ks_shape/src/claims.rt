//! Claims of one node and of two. If a claim is refused, each node was at some moment not free.
ghost use Rattle.std.specs.Prelude.{◌≡◌, ℕ, ◌≤◌, length};
ghost use Rattle.ks_flow.specs.Discipline.{SameKeyset};
ghost use Rattle.ks_arena.specs.Clauses.{hand_of};
ghost use Rattle.ks_arena.specs.Of.{IsPassOf, RestStays, SameCaller};
ghost use Rattle.ks_shape.specs.Quiet.{KeepsQuiet};
ghost use Rattle.ks_shape.specs.Of.{IsStretch, MakesNoneLive, KeepsAside, HasClaimedOne, HasClaimedTwo};
ghost use Rattle.ks_shape.specs.Does.{HasToSplit, OnlyFills};

use ks_arena::{Arena, Held, Pass};
use ks_flow::Discipline;
use ks_flow::laws::walks_law;
use ks_gate::{Gate, Point};
use ks_node::Node;

/// Claims a node. `None`: each was at some moment not free, if each node that the caller holds is live, except one that
/// it claimed for one that may grow.
pub fn claim_one<N: Node, D: Discipline, G: Gate>(
    arena: &Arena<N, D>,
    pass: &mut Pass<N, D>,
    gate: &G,
) -> Option<Held<N>>
    requires pass { IsPassOf arena.now pass.old }
    requires few { length (hand_of pass.old) ≤ 2 }
    ensures pass { IsPassOf arena.now pass.new }
    ensures caller { SameCaller pass.old pass.new }
    ensures fills { (place : ℕ) → HasToSplit N.layout N.ranged place pass.old →
        OnlyFills N.layout N.ranged place pass.old pass.new }
    ensures claimed { HasClaimedOne arena.now pass.old pass.new result }
    ensures stretch { IsStretch pass.old pass.new }
    ensures makes { MakesNoneLive pass.old pass.new }
    ensures beside { KeepsAside D.beside pass.old pass.new }
    ensures keysets { KeepsAside SameKeyset pass.old pass.new }
    ensures quiet { KeepsQuiet pass.old pass.new }
    ensures rest { RestStays arena.now pass.old pass.new }
{
    D::laws();
    walks_law();
    let Some(claimed) = arena.claim(pass) else {
        return None;
    };
    gate.at(pass.caller(), Point::Taken(claimed.node));
    Some(claimed)
}

/// Claims a node and then another, for a node that grows. If there is no second one, the first is released. `None`:
/// each was at some moment not free, if each node that the caller held before is live, and one of these may grow.
pub fn claim_two<N: Node, D: Discipline, G: Gate>(
    arena: &Arena<N, D>,
    pass: &mut Pass<N, D>,
    gate: &G,
) -> Option<(Held<N>, Held<N>)>
    requires pass { IsPassOf arena.now pass.old }
    requires few { length (hand_of pass.old) ≤ 1 }
    ensures pass { IsPassOf arena.now pass.new }
    ensures caller { SameCaller pass.old pass.new }
    ensures fills { (place : ℕ) → HasToSplit N.layout N.ranged place pass.old →
        OnlyFills N.layout N.ranged place pass.old pass.new }
    ensures claimed { HasClaimedTwo arena.now pass.old pass.new result }
    ensures stretch { IsStretch pass.old pass.new }
    ensures makes { MakesNoneLive pass.old pass.new }
    ensures beside { KeepsAside D.beside pass.old pass.new }
    ensures keysets { KeepsAside SameKeyset pass.old pass.new }
    ensures quiet { KeepsQuiet pass.old pass.new }
    ensures rest { RestStays arena.now pass.old pass.new }
{
    D::laws();
    walks_law();
    let Some(left) = claim_one(arena, pass, gate) else {
        return None;
    };
    match claim_one(arena, pass, gate) {
        Some(right) => Some((left, right)),
        None => {
            let number = left.node;
            arena.give(pass, left);
            gate.at(pass.caller(), Point::Given(number));
            None
        }
    }
}

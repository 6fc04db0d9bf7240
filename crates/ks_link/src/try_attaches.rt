//! How what was split off gets an edge after a non-blocking call: a busy node on the search path leaves it without one
//! for good, and it stays reached by its left neighbour's link.
ghost use Rattle.std.specs.Prelude.{◌≡◌, ℕ, ◌+◌, ◌<◌, ◌≤◌, All, false, true};
ghost use Rattle.std.specs.Option.{ForSome};
ghost use Rattle.ks_history.specs.Done.{link_move};
ghost use Rattle.ks_node.specs.Body.{last_of};
ghost use Rattle.ks_arena.specs.Of.{IsPassOf, IsEmptyPassOf, SameCaller};
ghost use Rattle.ks_shape.specs.Of.{IsStretchBy};
ghost use Rattle.ks_link.specs.Of.{WasSplitOff, HoldsAbove};
ghost use Rattle.ks_shape.specs.Does.{OnlyFills, OnlySearches};

use crate::attaches::{lead, ready};
use crate::parts::{Parted, Waiting};
use crate::try_descent::{try_enter, try_go_on};
use ks_arena::laws::{link_level_law, sound_law};
use ks_arena::{Arena, Held, Pass};
use ks_flow::Link;
use ks_gate::{Gate, Point};
use ks_node::{Linked, Next, node_law};

/// Whether a node above the level of what was split off is one level above it, with a range that reaches the cut.
fn is_over<N: Linked>(node: &N, to: Waiting) -> bool
    requires above { to.level < (N.body node.now).level }
    ensures yes { result ≡ true →
        ((N.body node.now).level ≡ to.level + 1) × (to.cut ≤ last_of (N.body node.now).range) }
    ensures no { result ≡ false → (N.body node.now).level ≡ to.level + 1 → last_of (N.body node.now).range < to.cut }
{
    node_law(node);
    let last = node.range().last;
    node.level() == to.level + 1 && to.cut <= last
}

/// Takes the node one level above what was split off whose range holds the cut, and holds no other. `None`: another
/// caller held a node on the search path, and nothing is held.
fn try_find_above<N: Linked, G: Gate>(
    arena: &Arena<N, Link>,
    pass: &mut Pass<N, Link>,
    gate: &G,
    to: Waiting,
) -> Option<Held<N>>
    requires pass { IsEmptyPassOf arena.now pass.old }
    requires off { WasSplitOff arena.now pass.old to }
    ensures pass { IsPassOf arena.now pass.new }
    ensures caller { SameCaller pass.old pass.new }
    ensures leaves { OnlySearches pass.old pass.new }
    ensures above { HoldsAbove arena.now to pass.new result }
    ensures stretch { IsStretchBy link_move pass.old pass.new }
{
    sound_law::<Link>();
    let mut held = match try_enter(arena, pass, gate, to.cut) {
        Ok(root) => root,
        Err(_) => return None,
    };
    loop {
        node_law(&held.body);
        if is_over(&held.body, to) {
            return Some(held);
        }
        let Next::Go(next) = held.body.next(to.cut) else {
            unreachable!()
        };
        match try_go_on(arena, pass, gate, to.cut, held, next) {
            Ok(taken) => held = taken,
            Err(_) => return None,
        }
    }
}

/// Attaches what was split off to the level above it, if it can be and no node on the search path is busy. Returns what
/// was split off there to make room, a level higher.
fn try_attach_one<N: Linked, G: Gate>(
    arena: &Arena<N, Link>,
    pass: &mut Pass<N, Link>,
    gate: &G,
    to: Waiting,
) -> Option<Waiting>
    requires pass { IsEmptyPassOf arena.now pass.old }
    requires off { WasSplitOff arena.now pass.old to }
    ensures pass { IsEmptyPassOf arena.now pass.new }
    ensures caller { SameCaller pass.old pass.new }
    ensures fills { (place : ℕ) → OnlyFills N.layout N.ranged place pass.old pass.new }
    ensures off { ForSome result (λ w. WasSplitOff arena.now pass.new w) }
    ensures higher { ForSome result (λ w. w.level ≡ to.level + 1) }
    ensures stretch { IsStretchBy link_move pass.old pass.new }
{
    sound_law::<Link>();
    let Some(held) = try_find_above(arena, pass, gate, to) else {
        return None;
    };
    let Parted { mut half, new } = ready(arena, pass, gate, to.cut, held);
    lead(arena, pass, to, &mut half);
    let node = half.node;
    arena.give(pass, half);
    gate.at(pass.caller(), Point::Given(node));
    new
}

/// Attaches what was split off, and what is split off by that, and so on. Each is a level higher, and no level reaches
/// the number of nodes, so it ends.
fn try_attach_on<N: Linked, G: Gate>(
    arena: &Arena<N, Link>,
    pass: &mut Pass<N, Link>,
    gate: &G,
    mut to: Waiting,
)
    requires pass { IsEmptyPassOf arena.now pass.old }
    requires off { WasSplitOff arena.now pass.old to }
    ensures pass { IsEmptyPassOf arena.now pass.new }
    ensures caller { SameCaller pass.old pass.new }
    ensures fills { (place : ℕ) → OnlyFills N.layout N.ranged place pass.old pass.new }
    ensures stretch { IsStretchBy link_move pass.old pass.new }
{
    sound_law::<Link>();
    link_level_law();
    loop {
        match try_attach_one(arena, pass, gate, to) {
            Some(next) => to = next,
            None => return,
        }
    }
}

/// Attaches all that waits, the oldest first, each unless a busy node on its search path leaves it without an edge.
pub(crate) fn try_attach_all<N: Linked, G: Gate>(
    arena: &Arena<N, Link>,
    pass: &mut Pass<N, Link>,
    gate: &G,
    waiting: &[Waiting],
)
    requires pass { IsEmptyPassOf arena.now pass.old }
    requires off { All (λ w. WasSplitOff arena.now pass.old w) waiting.now }
    ensures pass { IsEmptyPassOf arena.now pass.new }
    ensures caller { SameCaller pass.old pass.new }
    ensures fills { (place : ℕ) → OnlyFills N.layout N.ranged place pass.old pass.new }
    ensures stretch { IsStretchBy link_move pass.old pass.new }
{
    sound_law::<Link>();
    for to in waiting {
        try_attach_on(arena, pass, gate, *to);
    }
}

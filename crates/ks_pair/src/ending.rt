//! The end of a move: it is decided at the one node or the two nodes that its caller holds, which are then released.
ghost use Rattle.std.specs.Prelude.{◌≡◌, ◌≢◌, ◌∷◌, [], None};
ghost use Rattle.ks_history.specs.declared.Op.TheVariants.{Move};
ghost use Rattle.ks_history.specs.declared.Reply.TheVariants.{Full};
ghost use Rattle.ks_arena.specs.AtTwo.{IsReadyAtTwo};
ghost use Rattle.ks_arena.specs.Of.{IsPassOf, IsEmptyPassOf, IsCurrent, SameCaller};
ghost use Rattle.ks_shape.specs.Does.{OnlySearches};
ghost use Rattle.ks_shape.specs.Of.{FinishesAny, HoldsOnly, IsStretch};
ghost use Rattle.ks_pair.specs.Of.{FinishesAtTwo, HoldsBoth, IsReadyBoth};

use ks_arena::laws::sound_law;
use ks_arena::{Arena, Decision, Held, Pass};
use ks_flow::Discipline;
use ks_gate::{Gate, Point};
use ks_history::Reply;
use ks_node::Node;
use ks_shape::give_last;
use std::marker::Brand;

/// Releases the two held nodes.
pub(crate) fn give_both<N: Node, D: Discipline, G: Gate>(
    arena: &Arena<N, D>,
    pass: &mut Pass<N, D>,
    gate: &G,
    first: Held<N>,
    second: Held<N>,
)
    requires pass { IsPassOf arena.now pass.old }
    requires holds { HoldsBoth pass.old first second }
    requires first { IsCurrent arena.now pass.old first }
    requires second { IsCurrent arena.now pass.old second }
    ensures pass { IsEmptyPassOf arena.now pass.new }
    ensures caller { SameCaller pass.old pass.new }
    ensures leaves { OnlySearches pass.old pass.new }
    ensures stretch { IsStretch pass.old pass.new }
{
    let node = first.node;
    arena.give(pass, first);
    gate.at(pass.caller(), Point::Given(node));
    give_last(arena, pass, gate, second);
}

/// Decides a move at the one held node, which has both places, and releases the node. Returns the number of the call,
/// modulo 2^64. The reply is not Full.
pub(crate) fn conclude_within<N: Node, D: Discipline, G: Gate>(
    arena: &Arena<N, D>,
    pass: &mut Pass<N, D>,
    gate: &G,
    from: u64,
    to: u64,
    reply: Reply,
    held: Held<N>,
) -> u64
    requires pass { IsPassOf arena.now pass.old }
    requires alone { HoldsOnly pass.old held }
    requires ready { IsReadyAtTwo arena.now pass.old held None (Move from to) reply }
    requires some { reply ≢ Full }
    ensures pass { IsEmptyPassOf arena.now pass.new }
    ensures caller { SameCaller pass.old pass.new }
    ensures leaves { OnlySearches pass.old pass.new }
    ensures done { FinishesAny arena.now (Move from to) pass.old pass.new reply result }
{
    decide_within::<Brand, N, D, G>(arena, pass, gate, from, to, reply, held)
}

/// Decides as its type says, which is what its arguments say.
fn decide_within<W: Decision, N: Node, D: Discipline, G: Gate>(
    arena: &Arena<N, D>,
    pass: &mut Pass<N, D>,
    gate: &G,
    from: u64,
    to: u64,
    reply: Reply,
    held: Held<N>,
) -> u64
    requires op { W.op ≡ Move from to }
    requires reply { W.reply ≡ reply }
    requires pass { IsPassOf arena.now pass.old }
    requires alone { HoldsOnly pass.old held }
    requires ready { IsReadyAtTwo arena.now pass.old held None W.op W.reply }
    requires some { W.reply ≢ Full }
    ensures pass { IsEmptyPassOf arena.now pass.new }
    ensures caller { SameCaller pass.old pass.new }
    ensures leaves { OnlySearches pass.old pass.new }
    ensures done { FinishesAny arena.now W.op pass.old pass.new W.reply result }
{
    sound_law::<D>();
    let number = arena.decide_pair::<W>(pass, &held, None);
    gate.at(pass.caller(), Point::Decided(number));
    give_last(arena, pass, gate, held);
    number
}

/// Decides a move at the two held nodes at once, and releases them. Returns the number of the call, modulo 2^64. A Full
/// is due if each node was at some moment not free since the call began.
pub(crate) fn conclude_between<N: Node, D: Discipline, G: Gate>(
    arena: &Arena<N, D>,
    pass: &mut Pass<N, D>,
    gate: &G,
    from: u64,
    to: u64,
    reply: Reply,
    first: Held<N>,
    second: Held<N>,
) -> u64
    requires pass { IsPassOf arena.now pass.old }
    requires holds { HoldsBoth pass.old first second }
    requires ready { IsReadyBoth arena.now pass.old first second (Move from to) reply }
    ensures pass { IsEmptyPassOf arena.now pass.new }
    ensures caller { SameCaller pass.old pass.new }
    ensures leaves { OnlySearches pass.old pass.new }
    ensures done { FinishesAtTwo arena.now (Move from to) to pass.old pass.new reply result }
{
    decide_between::<Brand, N, D, G>(arena, pass, gate, from, to, reply, first, second)
}

/// Decides as its type says, which is what its arguments say.
fn decide_between<W: Decision, N: Node, D: Discipline, G: Gate>(
    arena: &Arena<N, D>,
    pass: &mut Pass<N, D>,
    gate: &G,
    from: u64,
    to: u64,
    reply: Reply,
    first: Held<N>,
    second: Held<N>,
) -> u64
    requires op { W.op ≡ Move from to }
    requires reply { W.reply ≡ reply }
    requires pass { IsPassOf arena.now pass.old }
    requires holds { HoldsBoth pass.old first second }
    requires ready { IsReadyBoth arena.now pass.old first second W.op W.reply }
    ensures pass { IsEmptyPassOf arena.now pass.new }
    ensures caller { SameCaller pass.old pass.new }
    ensures leaves { OnlySearches pass.old pass.new }
    ensures done { FinishesAtTwo arena.now W.op to pass.old pass.new W.reply result }
{
    sound_law::<D>();
    let number = arena.decide_pair::<W>(pass, &first, Some(&second));
    gate.at(pass.caller(), Point::Decided(number));
    give_both(arena, pass, gate, first, second);
    number
}

//! The end of a call of a dictionary: it is decided at the one node that its caller holds, which is then released. So a call
//! of any technique is done, by whatever search it came to the node.
ghost use Rattle.std.specs.Prelude.{◌≡◌, ◌≢◌, ◌∷◌, []};
ghost use Rattle.ks_history.specs.declared.Reply.TheVariants.{Full as full_reply};
ghost use Rattle.ks_history.specs.Map.{told};
ghost use Rattle.ks_arena.specs.Clauses.{hand_of};
ghost use Rattle.ks_arena.specs.Of.{IsPassOf, IsEmptyPassOf, IsReadyAt, SeesOn, SameCaller};
ghost use Rattle.ks_shape.specs.Of.{IsOver, MakesNoneLive, FinishesAny, FinishesAt, FinishesFull, FinishesIfDue};
ghost use Rattle.ks_shape.specs.Does.{OnlySearches};

use crate::answers::Full;
use ks_arena::laws::sound_law;
use ks_arena::{Arena, Decision, Held, Pass};
use ks_flow::Discipline;
use ks_gate::{Gate, Point};
use ks_history::Op;
use ks_node::Node;
use std::marker::Brand;

/// Decides a call at the one held node, and releases the node. Returns the number of the call, modulo 2^64. A Full is
/// due if each node was at some moment not free since the call began.
#[inline(always)]
fn decide_here<W: Decision, N: Node, D: Discipline, G: Gate>(
    arena: &Arena<N, D>,
    pass: &mut Pass<N, D>,
    gate: &G,
    held: Held<N>,
) -> u64
    requires pass { IsPassOf arena.now pass.old }
    requires alone { hand_of pass.old ≡ held.node ∷ [] }
    requires ready { IsReadyAt arena.now pass.old held W.op W.reply }
    ensures pass { IsEmptyPassOf arena.now pass.new }
    ensures caller { SameCaller pass.old pass.new }
    ensures leaves { OnlySearches pass.old pass.new }
    ensures begins { SeesOn pass.old pass.new }
    ensures makes { MakesNoneLive pass.old pass.new }
    ensures done { FinishesIfDue arena.now held W.op pass.old pass.new W.reply result }
{
    sound_law::<D>();
    let number = arena.decide_as::<W>(pass, &held);
    gate.at(pass.caller(), Point::Decided(number));
    let node = held.node;
    arena.give(pass, held);
    gate.at(pass.caller(), Point::Given(node));
    number
}

/// Decides a call at the one held node, and releases the node. Returns the number of the call, modulo 2^64. The type says
/// which operation, and which reply, not a Full.
#[inline(always)]
pub fn conclude_as<W: Decision, N: Node, D: Discipline, G: Gate>(
    arena: &Arena<N, D>,
    pass: &mut Pass<N, D>,
    gate: &G,
    held: Held<N>,
) -> u64
    requires pass { IsPassOf arena.now pass.old }
    requires alone { hand_of pass.old ≡ held.node ∷ [] }
    requires ready { IsReadyAt arena.now pass.old held W.op W.reply }
    requires some { W.reply ≢ full_reply }
    ensures over { IsOver arena.now pass.old pass.new }
    ensures leaves { OnlySearches pass.old pass.new }
    ensures done { FinishesAny arena.now W.op pass.old pass.new W.reply result }
    ensures at { FinishesAt arena.now held W.op pass.old pass.new W.reply result }
{
    decide_here::<W, N, D, G>(arena, pass, gate, held)
}

/// Decides a call at the one held node, with what was found there as its reply, and releases the node. Returns the number of
/// the call, modulo 2^64.
#[inline(always)]
pub fn conclude_found<N: Node, D: Discipline, G: Gate>(
    arena: &Arena<N, D>,
    pass: &mut Pass<N, D>,
    gate: &G,
    held: Held<N>,
    op: Op,
    found: Option<u128>,
) -> u64
    requires pass { IsPassOf arena.now pass.old }
    requires alone { hand_of pass.old ≡ held.node ∷ [] }
    requires ready { IsReadyAt arena.now pass.old held op (told found) }
    ensures over { IsOver arena.now pass.old pass.new }
    ensures leaves { OnlySearches pass.old pass.new }
    ensures done { FinishesAny arena.now op pass.old pass.new (told found) result }
    ensures at { FinishesAt arena.now held op pass.old pass.new (told found) result }
{
    found_told::<Brand, N, D, G>(arena, pass, gate, held, op, found)
}

/// Decides as its type says, which is what its arguments say.
#[inline(always)]
fn found_told<W: Decision, N: Node, D: Discipline, G: Gate>(
    arena: &Arena<N, D>,
    pass: &mut Pass<N, D>,
    gate: &G,
    held: Held<N>,
    op: Op,
    found: Option<u128>,
) -> u64
    requires op { W.op ≡ op }
    requires reply { W.reply ≡ told found }
    requires pass { IsPassOf arena.now pass.old }
    requires alone { hand_of pass.old ≡ held.node ∷ [] }
    requires ready { IsReadyAt arena.now pass.old held W.op W.reply }
    ensures over { IsOver arena.now pass.old pass.new }
    ensures leaves { OnlySearches pass.old pass.new }
    ensures done { FinishesAny arena.now W.op pass.old pass.new W.reply result }
    ensures at { FinishesAt arena.now held W.op pass.old pass.new W.reply result }
{
    conclude_as::<W, N, D, G>(arena, pass, gate, held)
}

/// Decides as full, at the one held node, a call that finds no room there, and releases the node. Returns the number of
/// the call, modulo 2^64. The call is done if each node was at some moment not free since it began.
pub fn refuse<N: Node, D: Discipline, G: Gate>(
    arena: &Arena<N, D>,
    pass: &mut Pass<N, D>,
    gate: &G,
    held: Held<N>,
    op: Op,
) -> Full
    requires pass { IsPassOf arena.now pass.old }
    requires alone { hand_of pass.old ≡ held.node ∷ [] }
    requires ready { IsReadyAt arena.now pass.old held op full_reply }
    ensures over { IsOver arena.now pass.old pass.new }
    ensures leaves { OnlySearches pass.old pass.new }
    ensures done { FinishesFull arena.now held op pass.old pass.new result.number }
{
    Full {
        number: full_told::<Brand, N, D, G>(arena, pass, gate, held, op),
    }
}

/// Decides as its type says, which is the operation that its argument says, as full.
#[inline(always)]
fn full_told<W: Decision, N: Node, D: Discipline, G: Gate>(
    arena: &Arena<N, D>,
    pass: &mut Pass<N, D>,
    gate: &G,
    held: Held<N>,
    op: Op,
) -> u64
    requires op { W.op ≡ op }
    requires reply { W.reply ≡ full_reply }
    requires pass { IsPassOf arena.now pass.old }
    requires alone { hand_of pass.old ≡ held.node ∷ [] }
    requires ready { IsReadyAt arena.now pass.old held W.op W.reply }
    ensures over { IsOver arena.now pass.old pass.new }
    ensures leaves { OnlySearches pass.old pass.new }
    ensures done { FinishesIfDue arena.now held W.op pass.old pass.new W.reply result }
{
    decide_here::<W, N, D, G>(arena, pass, gate, held)
}

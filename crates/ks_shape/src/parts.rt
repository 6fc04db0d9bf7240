//! One part of an ordered scan: a call that lists the pairs of a span of places, at the one node where the search for each
//! of them ends.
ghost use Rattle.std.specs.Prelude.{◌≡◌, ℕ, ◌≤◌, ◌∷◌, []};
ghost use Rattle.ks_history.specs.declared.Op.TheVariants.{Part as lists};
ghost use Rattle.ks_history.specs.declared.Reply.TheVariants.{Listed};
ghost use Rattle.ks_arena.specs.Clauses.{hand_of};
ghost use Rattle.ks_arena.specs.Of.{IsPassOf, IsReadyAt};
ghost use Rattle.ks_shape.specs.Of.{IsOver, FinishesAny, FinishesAt, SearchEndsAt};
ghost use Rattle.ks_shape.specs.Does.{OnlySearches};

use crate::ending::conclude_as;
use ks_arena::{Arena, Decision, Held, Pass};
use ks_flow::Discipline;
use ks_gate::Gate;
use ks_keysets::Few;
pub use ks_lines::Part;
use ks_node::Listed as Lists;
use std::marker::Brand;

/// Decides a part where the search for each of its places has ended: it lists the pairs of these places.
pub fn part_here<N: Lists, D: Discipline, G: Gate>(
    arena: &Arena<N, D>,
    pass: &mut Pass<N, D>,
    gate: &G,
    low: u64,
    last: u64,
    held: Held<N>,
) -> Part
    requires pass { IsPassOf arena.now pass.old }
    requires span { low ≤ last }
    requires ends { (p : ℕ) → low ≤ p → p ≤ last → SearchEndsAt arena.now p pass.old held }
    ensures over { IsOver arena.now pass.old pass.new }
    ensures leaves { OnlySearches pass.old pass.new }
    ensures last { result.last ≡ last }
    ensures done { FinishesAny arena.now (lists low last) pass.old pass.new (Listed result.pairs) result.number }
    ensures at { FinishesAt arena.now held (lists low last) pass.old pass.new (Listed result.pairs) result.number }
{
    let mut pairs = Few::new();
    held.body.list(low, last, &mut pairs);
    arena.part_law(pass, &held, low, last, &pairs);
    let number = conclude_part::<Brand, N, D, G>(arena, pass, gate, held, low, last, &pairs);
    Part {
        number,
        last,
        pairs,
    }
}

/// Decides as its type says, which is what its arguments say.
#[inline(always)]
fn conclude_part<W: Decision, N: Lists, D: Discipline, G: Gate>(
    arena: &Arena<N, D>,
    pass: &mut Pass<N, D>,
    gate: &G,
    held: Held<N>,
    low: u64,
    last: u64,
    pairs: &Few,
) -> u64
    requires op { W.op ≡ lists low last }
    requires reply { W.reply ≡ Listed pairs.now }
    requires pass { IsPassOf arena.now pass.old }
    requires alone { hand_of pass.old ≡ held.node ∷ [] }
    requires ready { IsReadyAt arena.now pass.old held W.op W.reply }
    ensures over { IsOver arena.now pass.old pass.new }
    ensures leaves { OnlySearches pass.old pass.new }
    ensures done { FinishesAny arena.now W.op pass.old pass.new W.reply result }
    ensures at { FinishesAt arena.now held W.op pass.old pass.new W.reply result }
{
    conclude_as::<W, N, D, G>(arena, pass, gate, held)
}

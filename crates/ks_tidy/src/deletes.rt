//! Deletes, which merge after their Call.
ghost use Rattle.std.specs.Prelude.{◌≡◌, ◌≢◌, ◌≤◌, length, None, false, true};
ghost use Rattle.ks_history.specs.declared.Op.TheVariants.{Del};
ghost use Rattle.ks_history.specs.Map.{told};
ghost use Rattle.ks_node.specs.declared.start.Next.TheVariants.{Here};
ghost use Rattle.ks_node.specs.Body.{next_at};
ghost use Rattle.ks_arena.specs.Clauses.{hand_of};
ghost use Rattle.ks_arena.specs.Of.{Holds, HasDecided, IsCurrent, IsEmptyPassOf, IsInside, IsLiveAndCurrent, IsPassOf, IsReadyAt, SeesOn, StayCurrentBut, WasAlone, SameCaller, caller_of};
ghost use Rattle.ks_shape.specs.Of.{FinishesAny, FinishesAt, SearchEndsAt};
ghost use Rattle.ks_tidy.specs.Of.{DecidesAny, IsKeptAt, IsPairOf, IsTidyOf};
ghost use Rattle.ks_tidy.specs.Pair.{IsWhole};
ghost use Rattle.ks_tidy.specs.Where.{DecidesAt};
ghost use Rattle.ks_shape.specs.Does.{OnlyDels, OnlySearches};

use crate::descent::{leave, pair_tidy, tidy_on};
use ks_arena::{Arena, Decision, Held, Pass};
use ks_bodies::tidied_law;
use ks_flow::{Tree, tidy_law};
use ks_gate::{Gate, Point};
use ks_node::{Unlinked, node_law, unlinked_law};
use ks_shape::{Numbered, Path, search_law};
use std::marker::Brand;
use std::sync::Wait;

/// Deletes what is at a place, at a held node where the search for the place ends, and keeps the node. Returns what was
/// there, and the number of the call.
pub(crate) fn delete<N: Unlinked, G: Gate>(
    arena: &Arena<N, Tree>,
    pass: &mut Pass<N, Tree>,
    gate: &G,
    place: u64,
    held: &mut Held<N>,
) -> Numbered
    requires pass { IsPassOf arena.now pass.old }
    requires holds { Holds pass.old held.old.node }
    requires few { length (hand_of pass.old) ≤ 3 }
    requires body { IsLiveAndCurrent arena.now pass.old held.old }
    requires inside { IsInside pass.old held.old.node place }
    requires ends { next_at (N.body held.old.body) place ≡ Here }
    ensures pass { IsPassOf arena.now pass.new }
    ensures caller { SameCaller pass.old pass.new }
    ensures leaves { OnlySearches pass.old pass.new }
    ensures begins { SeesOn pass.old pass.new }
    ensures hand { hand_of pass.new ≡ hand_of pass.old }
    ensures node { (held.new.node ≡ held.old.node) × (held.new.live ≡ true) }
    ensures body { IsCurrent arena.now pass.new held.new }
    ensures keyset { IsKeptAt pass.new held.old.node place }
    ensures still { StayCurrentBut arena.now held.old.node pass.old pass.new }
    ensures decided { DecidesAny arena.now (Del place) pass.old pass.new (told result.found) result.number }
    ensures at { DecidesAt arena.now held.old (Del place) pass.old pass.new (told result.found) result.number }
{
    search_law();
    node_law(&held.body);
    arena.del_law(pass, held, place);
    let found = held.body.del(place);
    let number = del_told::<Brand, N>(arena, pass, held, place, found);
    gate.at(pass.caller(), Point::Decided(number));
    Numbered { number, found }
}

/// Decides as its type says: a del at a held node, with what was found there as its reply. Returns the number of the call.
#[inline(always)]
fn del_told<W: Decision, N: Unlinked>(
    arena: &Arena<N, Tree>,
    pass: &mut Pass<N, Tree>,
    held: &Held<N>,
    place: u64,
    found: Option<u128>,
) -> u64
    requires op { W.op ≡ Del place }
    requires reply { W.reply ≡ told found }
    requires pass { IsPassOf arena.now pass.old }
    requires holds { Holds pass.old held.now.node }
    requires ready { IsReadyAt arena.now pass.old held.now (Del place) (told found) }
    ensures pass { IsPassOf arena.now pass.new }
    ensures caller { SameCaller pass.old pass.new }
    ensures decided { HasDecided arena.now held.now (Del place) (told found) pass.old pass.new result }
    ensures body { IsCurrent arena.now pass.new held.now }
{
    arena.decide_as::<W>(pass, held)
}

/// Deletes what is at a place, at the node of a path where the search for the place ends, and releases all. If it removed
/// a pair, it first merges at the node, while that is low; and if nodes grow in place, and another search has to follow, as
/// the caller says `again` or the merging finds, it goes on as `pair_tidy`. If it removed one and no other caller acted, the
/// node whose keyset holds the place is then not low, or fits with no right neighbour.
pub fn del_on<N: Unlinked, R: Wait, G: Gate>(
    rt: &R,
    arena: &Arena<N, Tree>,
    pass: &mut Pass<N, Tree>,
    gate: &G,
    place: u64,
    again: bool,
    path: Path<N>,
) -> Numbered
    requires pass { IsPassOf arena.now pass.old }
    requires pair { IsPairOf arena.now (caller_of pass.old) place pass.old path }
    requires ends { next_at (N.body path.node.body) place ≡ Here }
    requires whole { again ≡ false → IsWhole path }
    ensures pass { IsEmptyPassOf arena.now pass.new }
    ensures caller { SameCaller pass.old pass.new }
    ensures dels { OnlyDels N.layout N.ranged pass.old pass.new }
    ensures begins { SeesOn pass.old pass.new }
    ensures done { FinishesAny arena.now (Del place) pass.old pass.new (told result.found) result.number }
    ensures tidy { result.found ≢ None → WasAlone pass.old pass.new → IsTidyOf arena.now pass.new place }
{
    search_law();
    let Path { parent, mut node } = path;
    let answer = delete(arena, pass, gate, place, &mut node);
    let path = Path { parent, node };
    if answer.found.is_none() {
        leave(arena, pass, gate, place, path);
        return answer;
    }
    tidy_on(rt, arena, pass, gate, place, again, path);
    answer
}

/// Deletes what is at a place, at the only held node, where the search for the place ends, and releases it. If it
/// removed a pair and the node is low, it merges as `pair_tidy`. If it removed one and no other caller acted, the node
/// whose keyset holds the place is then not low, or fits with no right neighbour.
#[inline(always)]
pub fn del_alone<N: Unlinked, R: Wait, G: Gate>(
    rt: &R,
    arena: &Arena<N, Tree>,
    pass: &mut Pass<N, Tree>,
    gate: &G,
    place: u64,
    held: Held<N>,
) -> Numbered
    requires pass { IsPassOf arena.now pass.old }
    requires ends { SearchEndsAt arena.now place pass.old held }
    ensures pass { IsEmptyPassOf arena.now pass.new }
    ensures caller { SameCaller pass.old pass.new }
    ensures dels { OnlyDels N.layout N.ranged pass.old pass.new }
    ensures begins { SeesOn pass.old pass.new }
    ensures done { FinishesAny arena.now (Del place) pass.old pass.new (told result.found) result.number }
    ensures at { FinishesAt arena.now held (Del place) pass.old pass.new (told result.found) result.number }
    ensures tidy { result.found ≢ None → WasAlone pass.old pass.new → IsTidyOf arena.now pass.new place }
{
    search_law();
    tidied_law();
    tidy_law();
    unlinked_law::<N>();
    let mut held = held;
    let answer = delete(arena, pass, gate, place, &mut held);
    node_law(&held.body);
    let low = held.body.is_low();
    let node = held.node;
    arena.give(pass, held);
    gate.at(pass.caller(), Point::Given(node));
    if answer.found.is_none() {
        return answer;
    }
    if low {
        pair_tidy(rt, arena, pass, gate, place);
        return answer;
    }
    answer
}

//! Calls decided where the search for their place has ended, at a node with a range: their results say which node.
ghost use Rattle.std.specs.Prelude.{◌≡◌, ◌≤◌, List, IfOk, IfSome, Some, true};
ghost use Rattle.ks_history.specs.declared.Event.{Event as Happening};
ghost use Rattle.ks_history.specs.declared.Op.TheVariants.{Del, Get, Swap};
ghost use Rattle.ks_history.specs.Map.{told};
ghost use Rattle.ks_arena.specs.Clauses.{Matches};
ghost use Rattle.ks_arena.specs.Of.{IsPassOf};
ghost use Rattle.ks_arena.specs.Visits.{held_at, IsLast, LiesInSlot};
ghost use Rattle.ks_arena.specs.Sound.{sort_of};
ghost use Rattle.ks_shape.specs.Does.{OnlySearches};
ghost use Rattle.ks_history.specs.Trace.{◌⊑◌};
ghost use Rattle.ks_shape.specs.Fills.{EndsForRoomOf, FinishesFill, ended_at, filling};
ghost use Rattle.ks_shape.specs.Hinted.{IsAbove, IsWhere, WasAbove, above_in};
ghost use Rattle.ks_shape.specs.Located.{FinishesFillWhere, has_place as has_in, passed_in, plain_of};
ghost use Rattle.ks_shape.specs.Of.{IsOver, FinishesAny, FinishesWhere, SearchEndsAt};

use crate::answers::{Above, Full, NumberedAt};
use crate::fills::{Fill, fill_at};
use crate::here::{del_here, get_here, swap_here};
use ks_arena::{Arena, Held, Pass, Visited};
use ks_flow::Discipline;
use ks_gate::Gate;
use ks_keysets::Span;
use ks_node::Ranged;

/// The visited node and its range, for the search that goes on below it; `None` if it is no branch.
#[inline(always)]
fn above_of<N: Ranged, D: Discipline>(
    arena: &Arena<N, D>,
    pass: &mut Pass<N, D>,
    visited: &Visited<N>,
) -> Option<Above>
    requires pass { IsPassOf arena.now pass.old }
    requires last { IsLast pass.old visited.now.node }
    requires lies { LiesInSlot pass.old visited.now }
    ensures same { pass.new ≡ pass.old }
    ensures is { result ≡ above_in visited.now.node (N.body visited.now.body.value) }
    ensures live { (h : List Happening) → Matches (sort_of N.layout N.ranged) N.body h (held_at visited.now) →
        IfSome result (IsAbove (sort_of N.layout N.ranged) h) }
{
    if !arena.is_branch(pass, visited) {
        return None;
    }
    let range = arena.range(pass, visited);
    Some(Above {
        node: visited.node,
        low: range.low,
        last: range.last,
    })
}

/// Whether the range of a branch has a place.
fn has_place(branch: Above, place: u64) -> bool
    ensures is { result ≡ has_in place branch }
    ensures within { result ≡ true → (branch.low ≤ place) × (place ≤ branch.last) }
{
    branch.low <= place && place <= branch.last
}

/// The last branch that a search for a place has passed once it goes on from the visited node: this node, if it is a branch
/// with the place in its range, else `above`, the branch before.
#[inline(always)]
pub fn passed<N: Ranged, D: Discipline>(
    arena: &Arena<N, D>,
    pass: &mut Pass<N, D>,
    visited: &Visited<N>,
    place: u64,
    above: Option<Above>,
) -> Option<Above>
    requires pass { IsPassOf arena.now pass.old }
    requires last { IsLast pass.old visited.now.node }
    requires lies { LiesInSlot pass.old visited.now }
    ensures same { pass.new ≡ pass.old }
    ensures is { result ≡ passed_in place above (above_in visited.now.node (N.body visited.now.body.value)) }
    ensures lasts { (s h : List Happening) → s ⊑ h →
        Matches (sort_of N.layout N.ranged) N.body h (held_at visited.now) →
        IfSome above (WasAbove (sort_of N.layout N.ranged) place s h) →
        IfSome result (WasAbove (sort_of N.layout N.ranged) place s h) }
{
    let Some(branch) = above_of(arena, pass, visited) else {
        return above;
    };
    if has_place(branch, place) {
        return Some(branch);
    }
    above
}

/// Decides a get where the search for its place has ended. Returns also the node, its range, and `above`, the last
/// branch that the search passed.
#[inline(always)]
pub fn get_located<N: Ranged, D: Discipline, G: Gate>(
    arena: &Arena<N, D>,
    pass: &mut Pass<N, D>,
    gate: &G,
    place: u64,
    held: Held<N>,
    above: Option<Above>,
) -> NumberedAt
    requires pass { IsPassOf arena.now pass.old }
    requires ends { SearchEndsAt arena.now place pass.old held }
    ensures over { IsOver arena.now pass.old pass.new }
    ensures leaves { OnlySearches pass.old pass.new }
    ensures done { FinishesAny arena.now (Get place) pass.old pass.new (told result.found) result.number }
    ensures at { FinishesWhere arena.now (Get place) pass.old pass.new result }
    ensures within { (result.low ≤ place) × (place ≤ result.last) }
    ensures above { result.above ≡ above }
{
    let node = held.node;
    let range = held.body.range();
    let numbered = get_here(arena, pass, gate, place, held);
    NumberedAt {
        number: numbered.number,
        found: numbered.found,
        node,
        low: range.low,
        last: range.last,
        above,
    }
}

/// Decides a swap where the search for its place has ended: the new value is set if the old one is there. Returns also the
/// node, its range, and `above`, the last branch that the search passed.
pub fn swap_located<N: Ranged, D: Discipline, G: Gate>(
    arena: &Arena<N, D>,
    pass: &mut Pass<N, D>,
    gate: &G,
    place: u64,
    old: u128,
    new: u128,
    held: Held<N>,
    above: Option<Above>,
) -> NumberedAt
    requires pass { IsPassOf arena.now pass.old }
    requires ends { SearchEndsAt arena.now place pass.old held }
    ensures over { IsOver arena.now pass.old pass.new }
    ensures leaves { OnlySearches pass.old pass.new }
    ensures done { FinishesAny arena.now (Swap place old new) pass.old pass.new (told result.found) result.number }
    ensures at { FinishesWhere arena.now (Swap place old new) pass.old pass.new result }
    ensures within { (result.low ≤ place) × (place ≤ result.last) }
    ensures above { result.above ≡ above }
{
    let node = held.node;
    let range = held.body.range();
    let numbered = swap_here(arena, pass, gate, place, old, new, held);
    NumberedAt {
        number: numbered.number,
        found: numbered.found,
        node,
        low: range.low,
        last: range.last,
        above,
    }
}

/// The node at which a search for room has ended, and its range.
fn ended<N: Ranged>(found: &Result<Held<N>, Held<N>>) -> (u32, Span)
    ensures node { result.0 ≡ (ended_at found.now).node }
    ensures range { (N.body (ended_at found.now).body).range ≡ Some result.1 }
{
    match found {
        Ok(held) => (held.node, held.body.range()),
        Err(held) => (held.node, held.body.range()),
    }
}

/// Decides a put or an add at the end of a search for room, as `fill_at`. Returns also the node, its range, and `above`,
/// the last branch that the search passed.
#[inline(always)]
pub fn fill_located<N: Ranged, D: Discipline, G: Gate>(
    arena: &Arena<N, D>,
    pass: &mut Pass<N, D>,
    gate: &G,
    place: u64,
    fill: Fill,
    found: Result<Held<N>, Held<N>>,
    above: Option<Above>,
) -> Result<NumberedAt, Full>
    requires pass { IsPassOf arena.now pass.old }
    requires found { EndsForRoomOf arena.now place pass.old found }
    ensures over { IsOver arena.now pass.old pass.new }
    ensures leaves { OnlySearches pass.old pass.new }
    ensures done { FinishesFill arena.now (filling place fill) place found pass.old pass.new (plain_of result) }
    ensures at { FinishesFillWhere arena.now (filling place fill) pass.old pass.new result }
    ensures within { IfOk result (IsWhere place) }
    ensures above { IfOk result (λ answer. answer.above ≡ above) }
{
    let (node, range) = ended(&found);
    match fill_at(arena, pass, gate, place, fill, found) {
        Ok(numbered) => Ok(NumberedAt {
            number: numbered.number,
            found: numbered.found,
            node,
            low: range.low,
            last: range.last,
            above,
        }),
        Err(full) => Err(full),
    }
}

/// Decides a del where the search for its place has ended: what is there is deleted. Returns also the node, its range,
/// and `above`, the last branch that the search passed.
#[inline(always)]
pub fn del_located<N: Ranged, D: Discipline, G: Gate>(
    arena: &Arena<N, D>,
    pass: &mut Pass<N, D>,
    gate: &G,
    place: u64,
    held: Held<N>,
    above: Option<Above>,
) -> NumberedAt
    requires pass { IsPassOf arena.now pass.old }
    requires ends { SearchEndsAt arena.now place pass.old held }
    ensures over { IsOver arena.now pass.old pass.new }
    ensures leaves { OnlySearches pass.old pass.new }
    ensures done { FinishesAny arena.now (Del place) pass.old pass.new (told result.found) result.number }
    ensures at { FinishesWhere arena.now (Del place) pass.old pass.new result }
    ensures within { (result.low ≤ place) × (place ≤ result.last) }
    ensures above { result.above ≡ above }
{
    let node = held.node;
    let range = held.body.range();
    let numbered = del_here(arena, pass, gate, place, held);
    NumberedAt {
        number: numbered.number,
        found: numbered.found,
        node,
        low: range.low,
        last: range.last,
        above,
    }
}

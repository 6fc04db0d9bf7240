//! The least that decides: a get at node 0. It needs no proof by hand.
ghost use Rattle.std.specs.Prelude.{◌≡◌, ◌++◌};
ghost use Rattle.ks_arena.specs.Clauses.{mine_of};
ghost use Rattle.ks_arena_tests.specs.Gets.{get_events};
ghost use Rattle.ks_arena.specs.Of.{IsEmptyPassOf, SameCaller, caller_of};

use ks_arena::laws::root_stays_law;
use ks_arena::{Arena, Pass, root_law};
use ks_flow::{Discipline, Tree};
use ks_history::{Op, reply_of};
use ks_list::ListNode;
use ks_node::{Next, Node};
use std::sync::Wait;
use std::thread::{Threads, join};

/// The result of a get at node 0.
#[derive(Clone, Copy, Debug, PartialEq, Eq)]
pub enum GetOutcome {
    /// It is the call of that number, and found that value.
    Decided { number: u64, found: Option<u128> },
    /// An edge of the node carries the place.
    Elsewhere,
}

/// Takes node 0 once nobody else holds it, gets the value at the place as one call, and releases the node.
pub fn get_at_root<N: Node, D: Discipline, R: Wait>(
    rt: &R,
    arena: &Arena<N, D>,
    pass: &mut Pass<N, D>,
    place: u64,
) -> GetOutcome
    requires pass { IsEmptyPassOf arena.now pass.old }
    ensures pass { IsEmptyPassOf arena.now pass.new }
    ensures caller { SameCaller pass.old pass.new }
    ensures mine { mine_of pass.new ≡ get_events (caller_of pass.old) place result ++ mine_of pass.old }
{
    root_stays_law::<D>();
    let Some(held) = arena.take(rt, pass, 0) else {
        unreachable!()
    };
    if let Next::Go(_) = held.body.next(place) {
        arena.give(pass, held);
        return GetOutcome::Elsewhere;
    }
    let found = held.body.get(place);
    let reply = reply_of(found);
    root_law::<N>(place);
    arena.get_law(pass, &held, place, found);
    let number = arena.decide(pass, &held, Op::Get(place), reply);
    arena.give(pass, held);
    GetOutcome::Decided { number, found }
}

/// Gets the place at node 0, and returns the pass and the outcome.
pub fn look_up<N: Node, D: Discipline, R: Wait>(
    rt: &R,
    arena: &Arena<N, D>,
    mut pass: Pass<N, D>,
    place: u64,
) -> (Pass<N, D>, GetOutcome)
    requires { IsEmptyPassOf arena.now pass }
    ensures pass { IsEmptyPassOf arena.now result.0 × SameCaller pass result.0 }
    ensures mine { mine_of result.0 ≡ get_events (caller_of pass) place result.1 ++ mine_of pass }
{
    let outcome = get_at_root(rt, arena, &mut pass, place);
    (pass, outcome)
}

/// Both callers get the place at node 0 at once.
pub fn both_get<R: Threads + Wait + Sync>(
    rt: &R,
    arena: &Arena<ListNode, Tree>,
    one: Pass<ListNode, Tree>,
    two: Pass<ListNode, Tree>,
    place: u64,
) -> (
    (Pass<ListNode, Tree>, GetOutcome),
    (Pass<ListNode, Tree>, GetOutcome),
)
    requires one { IsEmptyPassOf arena.now one }
    requires two { IsEmptyPassOf arena.now two }
    ensures one { IsEmptyPassOf arena.now result.0.0 × SameCaller one result.0.0 }
    ensures two { IsEmptyPassOf arena.now result.1.0 × SameCaller two result.1.0 }
    ensures events_of_one { mine_of result.0.0 ≡ get_events (caller_of one) place result.0.1 ++ mine_of one }
    ensures events_of_two { mine_of result.1.0 ≡ get_events (caller_of two) place result.1.1 ++ mine_of two }
{
    join(
        rt,
        move || -> (Pass<ListNode, Tree>, GetOutcome)
            requires { IsEmptyPassOf arena.now one }
            ensures pass { IsEmptyPassOf arena.entry.now result.0 × SameCaller one result.0 }
            ensures mine { mine_of result.0 ≡ get_events (caller_of one) place result.1 ++ mine_of one }
        { look_up(rt, arena, one, place) },
        move || -> (Pass<ListNode, Tree>, GetOutcome)
            requires { IsEmptyPassOf arena.now two }
            ensures pass { IsEmptyPassOf arena.entry.now result.0 × SameCaller two result.0 }
            ensures mine { mine_of result.0 ≡ get_events (caller_of two) place result.1 ++ mine_of two }
        { look_up(rt, arena, two, place) },
    )
}

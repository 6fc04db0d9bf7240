//! A layer that decides: puts at node 0.
ghost use Rattle.std.specs.Prelude.{◌≡◌, ◌++◌, ◌<◌, ◌^◌, false, length};
ghost use Rattle.ks_history.specs.Trace.{calls_by, calls_of};
ghost use Rattle.ks_node.specs.Keyed.{Ascends};
ghost use Rattle.ks_arena.specs.Clauses.{mine_of, seen_of};
ghost use Rattle.ks_arena_tests.specs.Puts.{put_events, put_calls, IsPutDue, calls_from};
ghost use Rattle.ks_arena.specs.Of.{IsEmptyPassOf, SameCaller, caller_of};

use ks_arena::laws::root_stays_law;
use ks_arena::{Arena, Pass, root_law};
use ks_flow::{Discipline, Tree};
use ks_history::{Op, reply_of};
use ks_list::ListNode;
use ks_node::{Next, Node, node_law};
use std::sync::Wait;
use std::thread::{Threads, join};

/// The result of a put at node 0.
#[derive(Clone, Copy, Debug, PartialEq, Eq)]
pub enum PutOutcome {
    /// It is the call of that number, and that value was there before.
    Decided { number: u64, old: Option<u128> },
    /// The node was full and had no value at the place.
    NoRoom,
    /// An edge of the node carries the place.
    Elsewhere,
}

/// Takes node 0 once nobody else holds it, puts the value at the place as one call, and releases the node.
pub fn put_at_root<N: Node, D: Discipline, R: Wait>(
    rt: &R,
    arena: &Arena<N, D>,
    pass: &mut Pass<N, D>,
    place: u64,
    value: u128,
) -> PutOutcome
    requires unranged { N.ranged ≡ false }
    requires pass { IsEmptyPassOf arena.now pass.old }
    ensures pass { IsEmptyPassOf arena.now pass.new }
    ensures caller { SameCaller pass.old pass.new }
    ensures mine { mine_of pass.new ≡ put_events (caller_of pass.old) place value result ++ mine_of pass.old }
    ensures calls { calls_by (caller_of pass.old) (seen_of pass.new)
        ≡ calls_by (caller_of pass.old) (seen_of pass.old) ++ put_calls place value result }
    ensures due { IsPutDue N.layout place (seen_of pass.old) (seen_of pass.new) result }
{
    root_stays_law::<D>();
    let Some(mut held) = arena.take(rt, pass, 0) else {
        unreachable!()
    };
    node_law(&held.body);
    root_law::<N>(place);
    if let Next::Go(_) = held.body.next(place) {
        arena.give(pass, held);
        return PutOutcome::Elsewhere;
    }
    let old = held.body.get(place);
    if old.is_none() && held.body.is_full() {
        arena.give(pass, held);
        return PutOutcome::NoRoom;
    }
    arena.put_law(pass, &held, place, value);
    held.body.put(place, value);
    let number = arena.decide(pass, &held, Op::Put(place, value), reply_of(old));
    arena.give(pass, held);
    PutOutcome::Decided { number, old }
}

/// Puts four values at node 0, at every other place from the caller's number on: each value is its place.
pub fn put_four<R: Wait>(
    rt: &R,
    arena: &Arena<ListNode, Tree>,
    pass: &mut Pass<ListNode, Tree>,
) -> [PutOutcome; 4]
    requires { IsEmptyPassOf arena.now pass.old }
    ensures pass { IsEmptyPassOf arena.now pass.new }
    ensures caller { SameCaller pass.old pass.new }
    ensures calls { calls_by (caller_of pass.old) (seen_of pass.new)
        ≡ calls_by (caller_of pass.old) (seen_of pass.old) ++ calls_from (caller_of pass.old) result }
{
    let at = u64::from(pass.caller());
    let first = put_at_root(rt, arena, pass, at, u128::from(at));
    let second = put_at_root(rt, arena, pass, at + 2, u128::from(at + 2));
    let third = put_at_root(rt, arena, pass, at + 4, u128::from(at + 4));
    let fourth = put_at_root(rt, arena, pass, at + 6, u128::from(at + 6));
    [first, second, third, fourth]
}

/// The work of one thread: it puts its four values, and returns the pass and the outcomes. The numbers of those that
/// were decided ascend, unless 2^64 calls were made.
pub fn work<R: Wait>(
    rt: &R,
    arena: &Arena<ListNode, Tree>,
    mut pass: Pass<ListNode, Tree>,
) -> (Pass<ListNode, Tree>, [PutOutcome; 4])
    requires { IsEmptyPassOf arena.now pass }
    ensures pass { IsEmptyPassOf arena.now result.0 }
    ensures caller { SameCaller pass result.0 }
    ensures calls { calls_by (caller_of pass) (seen_of result.0)
        ≡ calls_by (caller_of pass) (seen_of pass) ++ calls_from (caller_of pass) result.1 }
    ensures ascend { length (calls_of (seen_of result.0)) < 2 ^ 64 →
        Ascends (λ x. x.number) (calls_from (caller_of pass) result.1) }
{
    let outcomes = put_four(rt, arena, &mut pass);
    (pass, outcomes)
}

/// Both callers put their four values at once.
pub fn both_put<R: Threads + Wait + Sync>(
    rt: &R,
    arena: &Arena<ListNode, Tree>,
    one: Pass<ListNode, Tree>,
    two: Pass<ListNode, Tree>,
) -> (
    (Pass<ListNode, Tree>, [PutOutcome; 4]),
    (Pass<ListNode, Tree>, [PutOutcome; 4]),
)
    requires one { IsEmptyPassOf arena.now one }
    requires two { IsEmptyPassOf arena.now two }
    ensures one { IsEmptyPassOf arena.now result.0.0 × SameCaller one result.0.0 }
    ensures two { IsEmptyPassOf arena.now result.1.0 × SameCaller two result.1.0 }
    ensures calls_of_one { calls_by (caller_of one) (seen_of result.0.0)
        ≡ calls_by (caller_of one) (seen_of one) ++ calls_from (caller_of one) result.0.1 }
    ensures calls_of_two { calls_by (caller_of two) (seen_of result.1.0)
        ≡ calls_by (caller_of two) (seen_of two) ++ calls_from (caller_of two) result.1.1 }
    ensures one_ascends { length (calls_of (seen_of result.0.0)) < 2 ^ 64 →
        Ascends (λ x. x.number) (calls_from (caller_of one) result.0.1) }
    ensures two_ascends { length (calls_of (seen_of result.1.0)) < 2 ^ 64 →
        Ascends (λ x. x.number) (calls_from (caller_of two) result.1.1) }
{
    join(
        rt,
        move || -> (Pass<ListNode, Tree>, [PutOutcome; 4])
            requires { IsEmptyPassOf arena.now one }
            ensures pass { IsEmptyPassOf arena.entry.now result.0 × SameCaller one result.0 }
            ensures calls { calls_by (caller_of one) (seen_of result.0)
                ≡ calls_by (caller_of one) (seen_of one) ++ calls_from (caller_of one) result.1 }
            ensures ascend { length (calls_of (seen_of result.0)) < 2 ^ 64 →
                Ascends (λ x. x.number) (calls_from (caller_of one) result.1) }
        { work(rt, arena, one) },
        move || -> (Pass<ListNode, Tree>, [PutOutcome; 4])
            requires { IsEmptyPassOf arena.now two }
            ensures pass { IsEmptyPassOf arena.entry.now result.0 × SameCaller two result.0 }
            ensures calls { calls_by (caller_of two) (seen_of result.0)
                ≡ calls_by (caller_of two) (seen_of two) ++ calls_from (caller_of two) result.1 }
            ensures ascend { length (calls_of (seen_of result.0)) < 2 ^ 64 →
                Ascends (λ x. x.number) (calls_from (caller_of two) result.1) }
        { work(rt, arena, two) },
    )
}

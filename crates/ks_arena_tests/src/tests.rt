ghost use Rattle.std.specs.Prelude.{◌≡◌, [], ◌∷◌, IfOk, false};
ghost use Rattle.ks_arena.specs.Clauses.{IsRun};
ghost use Rattle.ks_arena.specs.Of.{IsEmptyPassOf, callers_of, nodes_of, caller_of};
ghost use Rattle.ks_arena.specs.Sound.{sort_of};

use crate::meeting::both_meet;
use crate::wrong::{Wrong, must};
use crate::{GetOutcome, Met, PutOutcome, both, both_get, both_put, meet, put_at_root};
use ks_arena::{Arena, Pass, Run};
use ks_flow::Tree;
use ks_list::ListNode;
use ks_node::Node;
use std::alloc::{AllocError, Global};
use std::sync::Wait;
use std::thread::Threads;

/// An arena of four nodes, and the passes of callers 0 and 1.
pub(crate) fn two_callers<N: Node>(
    alloc: Global,
) -> Result<(Arena<N, Tree>, Pass<N, Tree>, Pass<N, Tree>), AllocError>
    ensures nodes { IfOk result (λ x. (nodes_of x.0 ≡ 4) × (callers_of x.0 ≡ 2)) }
    ensures one { IfOk result (λ x. IsEmptyPassOf x.0 x.1 × (caller_of x.1 ≡ 0)) }
    ensures two { IfOk result (λ x. IsEmptyPassOf x.0 x.2 × (caller_of x.2 ≡ 1)) }
{
    let (arena, mut passes) = Arena::<N, Tree>::start(alloc, 4, 2)?;
    let Some(two) = passes.pop() else {
        return Err(AllocError);
    };
    let Some(one) = passes.pop() else {
        return Err(AllocError);
    };
    Ok((arena, one, two))
}

/// The passes in a vector.
fn crew<N, D>(
    alloc: Global,
    one: Pass<N, D>,
    two: Pass<N, D>,
) -> Result<Vec<Pass<N, D>>, AllocError>
    ensures { IfOk result (λ all. all.items ≡ one ∷ two ∷ []) }
{
    let mut all = Vec::with_capacity(alloc, 2)?;
    all.push(one)?;
    all.push(two)?;
    Ok(all)
}

/// Ends an arena of two callers.
fn end_both<N: Node>(
    alloc: Global,
    arena: Arena<N, Tree>,
    one: Pass<N, Tree>,
    two: Pass<N, Tree>,
) -> Result<Run<N>, AllocError>
    requires callers { callers_of arena ≡ 2 }
    requires one { IsEmptyPassOf arena one × (caller_of one ≡ 0) }
    requires two { IsEmptyPassOf arena two × (caller_of two ≡ 1) }
    ensures { IfOk result (λ run. IsRun (sort_of N.layout N.ranged) N.body (nodes_of arena) run) }
{
    let all = crew(alloc, one, two)?;
    Ok(arena.close(all))
}

/// Caller 1 tries to take node 0 that caller 0 holds, node 1, and node 0 once it is released.
fn try_three<N: Node, R: Wait>(rt: &R, alloc: Global) -> Result<(), Wrong> {
    let (arena, mut one, mut two) = two_callers::<N>(alloc)?;
    let Some(root) = arena.take(rt, &mut one, 0) else {
        return Err(Wrong::Not("the root is there"));
    };
    let held = meet(&arena, &mut two, 0);
    let free = meet(&arena, &mut two, 1);
    arena.give(&mut one, root);
    let released = meet(&arena, &mut two, 0);
    are_met(held, free, released)
}

fn are_met(held: Met, free: Met, released: Met) -> Result<(), Wrong> {
    must(held == Met::Busy(0), "a held node is busy")?;
    must(free == Met::Gone, "a free node is gone")?;
    must(released == Met::Ready, "a node that was released is ready")
}

#[test]
fn a_held_node_is_busy_and_a_free_one_gone(rt: HostRuntime) -> Result<(), Wrong> {
    try_three::<ListNode, HostRuntime>(&rt, rt.alloc())
}

/// Caller 0 claims two nodes and releases the first, and caller 1 claims one.
fn claim_three<N: Node>(alloc: Global) -> Result<(), Wrong> {
    let (arena, mut one, mut two) = two_callers::<N>(alloc)?;
    let Some(first) = arena.claim(&mut one) else {
        return Err(Wrong::Not("there is a first node"));
    };
    let Some(second) = arena.claim(&mut one) else {
        arena.give(&mut one, first);
        return Err(Wrong::Not("there is a second node"));
    };
    let nodes = (first.node, second.node);
    arena.give(&mut one, first);
    let again = arena.claim(&mut two);
    arena.give(&mut one, second);
    let Some(again) = again else {
        return Err(Wrong::Not("there is a node again"));
    };
    let node = again.node;
    arena.give(&mut two, again);
    are_claimed(nodes, node)
}

fn are_claimed(nodes: (u32, u32), again: u32) -> Result<(), Wrong> {
    must(nodes.0 == 1 && nodes.1 == 2, "nodes are claimed upward")?;
    must(again == 1, "a node that was released is claimed again")
}

/// Nodes are claimed upward, and one that was released is claimed again, by any caller.
#[test]
fn callers_claim_what_others_gave(rt: HostRuntime) -> Result<(), Wrong> {
    claim_three::<ListNode>(rt.alloc())
}

/// One thread tries to take node 0 while the other holds it, and then both pass through it.
fn meet_and_pass<R: Threads + Wait + Sync>(rt: &R, alloc: Global) -> Result<(), Wrong> {
    let (arena, one, two) = two_callers::<ListNode>(alloc)?;
    let (one, two, met) = both_meet(rt, &arena, one, two);
    let (one, two) = both(rt, &arena, one, two);
    let run = end_both(alloc, arena, one, two)?;
    has_met(met, run.calls())
}

fn has_met(met: Option<Met>, calls: u64) -> Result<(), Wrong> {
    must(
        met == Some(Met::Busy(0)),
        "a node that the other thread holds is busy",
    )?;
    must(calls == 0, "no call was made")
}

/// One thread finds node 0 busy while the other holds it, and then both pass through it.
#[test]
fn two_threads_meet_at_one_node(rt: HostRuntime) -> Result<(), Wrong> {
    meet_and_pass(&rt, rt.alloc())
}

/// Whether each put was decided at a place that was empty, with numbers below 8 that ascend and that no put had before.
fn ascend(seen: &mut [bool; 8], outcomes: &[PutOutcome]) -> bool {
    let mut least = 0;
    for outcome in outcomes {
        match *outcome {
            PutOutcome::Decided { number, old: None } if least <= number && number < 8 => {
                let at = number as usize;
                if seen[at] {
                    return false;
                }
                seen[at] = true;
                least = number + 1;
            }
            _ => return false,
        }
    }
    true
}

/// Whether the pairs are those of the eight places from 0 on, each with its place as the value.
fn are_eight(pairs: &[(u64, u128)]) -> bool {
    for (place, pair) in pairs.iter().enumerate() {
        if pair.0 != place as u64 || pair.1 != place as u128 {
            return false;
        }
    }
    pairs.len() == 8
}

fn are_decided(first: &[PutOutcome], second: &[PutOutcome]) -> Result<(), Wrong> {
    let mut seen = [false; 8];
    must(
        ascend(&mut seen, first),
        "the numbers of the first thread ascend",
    )?;
    must(
        ascend(&mut seen, second),
        "the numbers of the second thread ascend",
    )?;
    must(seen == [true; 8], "each number below 8 is that of a put")
}

/// Two threads put eight places at node 0.
fn put_eight<R: Threads + Wait + Sync>(rt: &R, alloc: Global) -> Result<(), Wrong> {
    let (arena, one, two) = two_callers::<ListNode>(alloc)?;
    let (left, right) = both_put(rt, &arena, one, two);
    let (one, first) = left;
    let (two, second) = right;
    let run = end_both(alloc, arena, one, two)?;
    let pairs = run.pairs(alloc)?;
    are_decided(&first, &second)?;
    must(run.calls() == 8, "eight calls were made")?;
    must(are_eight(pairs.as_slice()), "each place has its own value")
}

#[test]
fn two_threads_put_eight_places_at_one_node(rt: HostRuntime) -> Result<(), Wrong> {
    put_eight(&rt, rt.alloc())
}

/// One caller puts 50 at place 5, and then two threads get it.
fn put_and_get<R: Threads + Wait + Sync>(rt: &R, alloc: Global) -> Result<(), Wrong> {
    let (arena, mut one, two) = two_callers::<ListNode>(alloc)?;
    let put = put_at_root(rt, &arena, &mut one, 5, 50);
    let (left, right) = both_get(rt, &arena, one, two, 5);
    let (_one, first) = left;
    let (_two, second) = right;
    are_got(put, first, second)
}

/// The get that is the call of that number, and found 50.
fn found_as(number: u64) -> GetOutcome {
    GetOutcome::Decided {
        number,
        found: Some(50),
    }
}

fn are_got(put: PutOutcome, first: GetOutcome, second: GetOutcome) -> Result<(), Wrong> {
    let is_first = put
        == PutOutcome::Decided {
            number: 0,
            old: None,
        };
    must(is_first, "the put is call 0, of a place without a value")?;
    let in_order = first == found_as(1) && second == found_as(2);
    let turned = first == found_as(2) && second == found_as(1);
    must(
        in_order || turned,
        "the gets are calls 1 and 2, and both found 50",
    )
}

#[test]
fn two_threads_get_what_one_put(rt: HostRuntime) -> Result<(), Wrong> {
    put_and_get(&rt, rt.alloc())
}

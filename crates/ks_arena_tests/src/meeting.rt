//! Two threads that need each other: one holds a node until the other has found it busy.
ghost use Rattle.ks_arena.specs.Of.{IsEmptyPassOf, SameCaller};

use crate::{Met, meet};
use ks_arena::laws::root_stays_law;
use ks_arena::{Arena, Pass};
use ks_flow::Tree;
use ks_list::ListNode;
use std::sync::Wait;
use std::sync::atomic::AtomicU64;
use std::sync::atomic::Ordering::SeqCst;
use std::thread::{Threads, join, yield_now};

/// Looks that no thread needs, if the other one runs at all.
const LONG: u64 = 20_000_000;

/// The first thread holds node 0.
const HELD: u64 = 1;

/// The second one has tried to take it.
const TRIED: u64 = 2;

/// Waits until the other thread says so. Returns whether it did.
fn comes(stage: &AtomicU64, wanted: u64) -> bool {
    for _ in 0..LONG {
        if stage.load(SeqCst) == wanted {
            return true;
        }
        yield_now();
    }
    false
}

/// Takes node 0 once nobody else holds it, and releases it once the other thread has tried to take it. Returns the pass, and
/// whether the other thread did.
fn hold<R: Wait>(
    rt: &R,
    arena: &Arena<ListNode, Tree>,
    mut pass: Pass<ListNode, Tree>,
    stage: &AtomicU64,
) -> (Pass<ListNode, Tree>, bool)
    requires { IsEmptyPassOf arena.now pass }
    ensures { IsEmptyPassOf arena.now result.0 × SameCaller pass result.0 }
{
    root_stays_law::<Tree>();
    let Some(held) = arena.take(rt, &mut pass, 0) else {
        unreachable!()
    };
    stage.store(HELD, SeqCst);
    let came = comes(stage, TRIED);
    arena.give(&mut pass, held);
    (pass, came)
}

/// Tries to take node 0 once the other thread holds it. Returns the pass, and the result; nothing if it has waited in vain.
fn run_into(
    arena: &Arena<ListNode, Tree>,
    mut pass: Pass<ListNode, Tree>,
    stage: &AtomicU64,
) -> (Pass<ListNode, Tree>, Option<Met>)
    requires { IsEmptyPassOf arena.now pass }
    ensures { IsEmptyPassOf arena.now result.0 × SameCaller pass result.0 }
{
    if !comes(stage, HELD) {
        return (pass, None);
    }
    let met = meet(arena, &mut pass, 0);
    stage.store(TRIED, SeqCst);
    (pass, Some(met))
}

/// Caller 0 holds node 0 on one thread until caller 1 has tried to take it on another. Returns the passes, and the result of
/// the try; nothing if one thread has waited in vain for the other.
pub(crate) fn both_meet<R: Threads + Wait + Sync>(
    rt: &R,
    arena: &Arena<ListNode, Tree>,
    one: Pass<ListNode, Tree>,
    two: Pass<ListNode, Tree>,
) -> (Pass<ListNode, Tree>, Pass<ListNode, Tree>, Option<Met>)
    requires one { IsEmptyPassOf arena.now one }
    requires two { IsEmptyPassOf arena.now two }
    ensures one { IsEmptyPassOf arena.now result.0 × SameCaller one result.0 }
    ensures two { IsEmptyPassOf arena.now result.1 × SameCaller two result.1 }
{
    let stage = AtomicU64::new(0);
    let stage = &stage;
    let (left, right) = join(
        rt,
        move || -> (Pass<ListNode, Tree>, bool)
            requires { IsEmptyPassOf arena.now one }
            ensures { IsEmptyPassOf arena.entry.now result.0 × SameCaller one result.0 }
        { hold(rt, arena, one, stage) },
        move || -> (Pass<ListNode, Tree>, Option<Met>)
            requires { IsEmptyPassOf arena.now two }
            ensures { IsEmptyPassOf arena.entry.now result.0 × SameCaller two result.0 }
        { run_into(arena, two, stage) },
    );
    let (one, came) = left;
    let (two, met) = right;
    (one, two, if came { met } else { None })
}

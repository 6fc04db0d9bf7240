//! What a gate is notified of by a move of a value: of one beginning, also where the move restarts.
ghost use Rattle.std.specs.Prelude.{◌<◌, length};
ghost use Rattle.ks_arena.specs.Of.{SameCaller};
ghost use Rattle.ks_dictionary.specs.Of.{AreOrderedPassesOf, IsIdlePassOf};

use crate::dropped::puts_below;
use ks_arena::{Arena, Pass};
use ks_bplus::BNode;
use ks_crews::LONG;
use ks_dictionary::{Dictionary, Gated, Runtime};
use ks_gate::{Gate, Point, Stand};
use ks_giveup::GiveUp;
use ks_node::{Node, WithRange};
use ks_shape::{MoveLeft, Moving, Numbered, Ruled, Template};
use std::alloc::{AllocError, Global};
use std::sync::Wait;
use std::sync::atomic::AtomicU64;
use std::sync::atomic::Ordering::SeqCst;
use std::test::Fail;
use std::thread::{Threads, for_each_mut};

/// A gate that may stop callers as another, and counts how often a call of caller 0 begins, and takes the root. Callers note
/// here that their calls returned what they should.
#[derive(Drop)]
struct Counting {
    stand: Stand,
    begins: AtomicU64,
    roots: AtomicU64,
    right: AtomicU64,
}

impl Counting {
    fn of(stand: Stand) -> Counting {
        Counting {
            stand,
            begins: AtomicU64::new(0),
            roots: AtomicU64::new(0),
            right: AtomicU64::new(0),
        }
    }

    /// Counts a caller whose calls returned what they should.
    fn note(&self, is_right: bool) {
        if is_right {
            self.right.fetch_add(1, SeqCst);
        }
    }

    /// Whether a call of caller 0 began once, and took the root `roots` times, no stop failed, and the calls of this many
    /// callers returned what they should.
    fn has_counted(&self, roots: u64, callers: u64) -> bool {
        self.begins.load(SeqCst) == 1
            && self.roots.load(SeqCst) == roots
            && self.right.load(SeqCst) == callers
            && !self.stand.failed()
    }
}

impl Gate for Counting {
    fn at(&self, caller: u32, point: Point) {
        if caller == 0 && point == Point::Begin {
            self.begins.fetch_add(1, SeqCst);
        }
        if caller == 0 && point == Point::Taken(0) {
            self.roots.fetch_add(1, SeqCst);
        }
        self.stand.at(caller, point);
    }
}

/// Moves the value of key 3 to key 100. Returns whether it has this number, and the value is 3.
fn moves<N: Node, T: Ruled + Moving<N, Arena<N, <T as Ruled>::Rule>>, R: Runtime>(
    rt: &R,
    map: &Dictionary<N, T>,
    pass: &mut Pass<N, T::Rule>,
    number: u64,
) -> bool
    requires { IsIdlePassOf map.now pass.old }
    ensures pass { IsIdlePassOf map.now pass.new }
    ensures caller { SameCaller pass.old pass.new }
{
    let moved = map.move_value(rt, pass, 3, 100);
    matches!(moved, Ok(Numbered { number: n, found: Some(3) }) if n == number)
}

/// Deletes key 0, and gets key 1. Returns whether they have their own values.
fn deletes<N: Node, T: Ruled + Template<N, Arena<N, <T as Ruled>::Rule>>, R: Runtime>(
    rt: &R,
    map: &Dictionary<N, T>,
    pass: &mut Pass<N, T::Rule>,
) -> bool
    requires { IsIdlePassOf map.now pass.old }
    ensures pass { IsIdlePassOf map.now pass.new }
    ensures caller { SameCaller pass.old pass.new }
{
    let deleted = map.del(rt, pass, 0);
    let got = map.get(rt, pass, 1);
    deleted.found == Some(0) && got.found == Some(1)
}

/// Caller 0 moves, and another caller deletes. Returns whether the calls return what they should.
fn acts<
    N: Node,
    T: Ruled + Template<N, Arena<N, <T as Ruled>::Rule>> + Moving<N, Arena<N, <T as Ruled>::Rule>>,
    R: Runtime,
>(rt: &R, map: &Dictionary<N, T>, at: usize, pass: &mut Pass<N, T::Rule>, number: u64) -> bool
    requires { IsIdlePassOf map.now pass.old }
    ensures pass { IsIdlePassOf map.now pass.new }
    ensures caller { SameCaller pass.old pass.new }
{
    if at == 0 {
        moves(rt, map, pass, number)
    } else {
        deletes(rt, map, pass)
    }
}

/// Caller 0 puts the keys below 17, which are then in nodes 1 and 2.
fn fills<N: Node, T: Ruled + Template<N, Arena<N, <T as Ruled>::Rule>>, R: Wait>(
    rt: &R,
    map: &Dictionary<N, T>,
    passes: &mut [Pass<N, T::Rule>],
) -> bool
    requires some { 0 < length passes.old }
    requires passes { AreOrderedPassesOf map.now passes.old }
    ensures { AreOrderedPassesOf map.now passes.new }
{
    puts_below(rt, map, &mut passes[0], 17)
}

/// The keys below 17 are in nodes 1 and 2. Returns whether a move is right that takes the root twice: once for each key.
fn begins_once<
    N: Node,
    T: Ruled + Template<N, Arena<N, <T as Ruled>::Rule>> + Moving<N, Arena<N, <T as Ruled>::Rule>>,
    R: Wait,
>(rt: &R, alloc: Global) -> Result<bool, AllocError> {
    let (map, mut passes) = Dictionary::<N, T>::start(alloc, 64, 2)?;
    let filled = puts_below(rt, &map, &mut passes[0], 17);
    let gate = Counting::of(Stand::of(0, 0, Point::Begin, 1, 0, LONG));
    gate.note(moves(&Gated { rt, gate: &gate }, &map, &mut passes[0], 17));
    Ok(filled && gate.has_counted(2, 1))
}

/// Both callers act at once: the move has this number.
fn act_at_once<
    N: Node + Send,
    T: Ruled + Template<N, Arena<N, <T as Ruled>::Rule>> + Moving<N, Arena<N, <T as Ruled>::Rule>>,
    R: Threads + Wait + Sync,
>(rt: &R, map: &Dictionary<N, T>, passes: &mut [Pass<N, T::Rule>], gate: &Counting, number: u64)
where
    N::Places: Send + Sync,
    requires some { 0 < length passes.old }
    requires passes { AreOrderedPassesOf map.now passes.old }
{
    let threads = passes.len();
    for_each_mut(
        rt,
        passes,
        threads,
        &|at: usize, pass: &mut Pass<N, T::Rule>|
            requires { IsIdlePassOf map.now pass.old }
            ensures pass { IsIdlePassOf map.entry.now pass.new }
            ensures caller { SameCaller pass.old pass.new }
        { gate.note(acts(&Gated { rt, gate }, map, at, pass, number)) },
    );
}

/// The move is stopped when it has released node 2, in which key 100 belongs. Caller 1 deletes a key: nodes 1 and 2 are
/// merged, and the root takes over all. When the move has taken the root for key 3, node 2 is free: so it restarts, and takes
/// the root once more, which has both. Returns whether that is so.
fn begins_once_when_it_restarts<
    N: Node + Send,
    T: Ruled + Template<N, Arena<N, <T as Ruled>::Rule>> + Moving<N, Arena<N, <T as Ruled>::Rule>>,
    R: Threads + Wait + Sync,
>(rt: &R, alloc: Global) -> Result<bool, AllocError>
where
    N::Places: Send + Sync,
{
    let (map, mut passes) = Dictionary::<N, T>::start(alloc, 64, 2)?;
    let crew = passes.as_mut_slice();
    let filled = fills(rt, &map, crew);
    let gate = Counting::of(Stand::of(0, 0, Point::Given(2), 1, 2, LONG));
    act_at_once(rt, &map, crew, &gate, 19);
    Ok(filled && gate.has_counted(3, 2))
}

#[test]
fn a_move_begins_once(rt: HostRuntime) -> Result<(), Fail> {
    assert!(rt; begins_once::<WithRange<BNode>, GiveUp, HostRuntime>(&rt, rt.alloc())?);
    Ok(())
}

#[test]
fn a_move_that_restarts_begins_once(rt: HostRuntime) -> Result<(), Fail> {
    assert!(rt;
        begins_once_when_it_restarts::<WithRange<BNode>, GiveUp, HostRuntime>(&rt, rt.alloc())?
    );
    Ok(())
}

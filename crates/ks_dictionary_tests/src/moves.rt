//! Drawn calls of one caller, moves among them, beside a plain map: by giving up, over each type of nodes.
ghost use Rattle.ks_dictionary.specs.Of.{IsIdlePassOf};

use crate::plain::{Answer, Call, Draws, Plain};
use ks_arena::{Arena, Pass};
use ks_bplus::BNode;
use ks_bst::TNode;
use ks_dictionary::Dictionary;
use ks_giveup::GiveUp;
use ks_hash::HNode;
use ks_list::ListNode;
use ks_node::{Node, WithRange};
use ks_shape::{Compacting, Full, MoveLeft, Moving, Numbered, Ruled, Template};
use std::alloc::{AllocError, Global};
use std::process::Abort;
use std::sync::Wait;
use std::test::Fail;

/// How many nodes a trial has, and how many keys. In the first two they have no room for all keys, of whatever type they are.
const TRIALS: [(u32, u64); 4] = [(4, 100), (6, 100), (12, 120), (64, 200)];

/// How many calls are drawn in a trial.
const CALLS: u64 = 1000;

/// In how many calls keys become more, and then fewer.
const PHASE: u64 = 250;

/// What moves did.
#[derive(Clone, Copy)]
struct Moves {
    found: u64,
    nothing: u64,
    kept: u64,
    full: u64,
}

impl Moves {
    /// No move.
    fn none() -> Moves {
        Moves {
            found: 0,
            nothing: 0,
            kept: 0,
            full: 0,
        }
    }

    /// Whether some moved values, some found none, some found two, and some found no room.
    fn has_each(&self) -> bool {
        self.found > 0 && self.nothing > 0 && self.kept > 0 && self.full > 0
    }

    /// Counts a call, if it is a move.
    fn note(&mut self, call: Call, answer: Answer) {
        let Call::Move(_, _) = call else {
            return;
        };
        let counter = match answer {
            Answer::Found(Some(_)) => &mut self.found,
            Answer::Found(None) => &mut self.nothing,
            Answer::Kept => &mut self.kept,
            Answer::Full => &mut self.full,
        };
        *counter = counter.saturating_add(1);
    }
}

/// What a put or an add returned.
fn of_fill(filled: Result<Numbered, Full>) -> Answer {
    match filled {
        Ok(put) => Answer::Found(put.found),
        Err(_) => Answer::Full,
    }
}

/// What a move returned.
fn of_move(moved: Result<Numbered, MoveLeft>) -> Answer {
    match moved {
        Ok(moved) => Answer::Found(moved.found),
        Err(MoveLeft::Kept { .. }) => Answer::Kept,
        Err(MoveLeft::Full { .. }) => Answer::Full,
    }
}

/// Makes a call. A move to the same key is made as a get.
fn make<
    N: Node,
    T: Ruled + Template<N, Arena<N, <T as Ruled>::Rule>> + Moving<N, Arena<N, <T as Ruled>::Rule>>,
    R: Wait,
>(rt: &R, map: &Dictionary<N, T>, pass: &mut Pass<N, T::Rule>, call: Call) -> Answer
    requires { IsIdlePassOf map.now pass.old }
    ensures { IsIdlePassOf map.now pass.new }
{
    match call {
        Call::Get(key) => Answer::Found(map.get(rt, pass, key).found),
        Call::Put(key, value) => of_fill(map.put(rt, pass, key, value)),
        Call::Add(key, value) => of_fill(map.add(rt, pass, key, value)),
        Call::Swap(key, old, new) => { Answer::Found(map.swap(rt, pass, key, old, new).found) }
        Call::Del(key) => Answer::Found(map.del(rt, pass, key).found),
        Call::Move(from, to) => {
            if from == to {
                Answer::Found(map.get(rt, pass, from).found)
            } else {
                of_move(map.move_value(rt, pass, from, to))
            }
        }
    }
}

/// Compacts until no node is made free.
fn compact<N: Node, T: Ruled + Compacting<N, Arena<N, <T as Ruled>::Rule>>, R: Wait>(
    rt: &R,
    map: &Dictionary<N, T>,
    pass: &mut Pass<N, T::Rule>,
)
    requires { IsIdlePassOf map.now pass.old }
    ensures { IsIdlePassOf map.now pass.new }
{
    for _ in rt.forever() {
        if map.compact(rt, pass) == 0 {
            return;
        }
    }
}

/// Puts ascending keys until there is no room for the next. Returns for how many there was.
fn fill<
    N: Node,
    T: Ruled + Template<N, Arena<N, <T as Ruled>::Rule>> + Moving<N, Arena<N, <T as Ruled>::Rule>>,
    R: Wait,
>(rt: &R, map: &Dictionary<N, T>, pass: &mut Pass<N, T::Rule>) -> u64
    requires { IsIdlePassOf map.now pass.old }
    ensures { IsIdlePassOf map.now pass.new }
{
    for key in 0..4096 {
        if make(rt, map, pass, Call::Put(key, 1)) == Answer::Full {
            return key;
        }
    }
    4096
}

/// Deletes the keys below `many`, and compacts.
fn empty<
    N: Node,
    T: Ruled
        + Compacting<N, Arena<N, <T as Ruled>::Rule>>
        + Moving<N, Arena<N, <T as Ruled>::Rule>>,
    R: Wait,
>(rt: &R, map: &Dictionary<N, T>, pass: &mut Pass<N, T::Rule>, many: u64)
    requires { IsIdlePassOf map.now pass.old }
    ensures { IsIdlePassOf map.now pass.new }
{
    for key in 0..many {
        let _found = make(rt, map, pass, Call::Del(key));
    }
    compact(rt, map, pass);
}

/// Makes drawn calls over keys below `keys`, and counts the moves. Returns whether each call returned what the plain map does;
/// it may only be full where it brings a key.
fn play<
    N: Node,
    T: Ruled + Template<N, Arena<N, <T as Ruled>::Rule>> + Moving<N, Arena<N, <T as Ruled>::Rule>>,
    R: Wait,
>(
    rt: &R,
    map: &Dictionary<N, T>,
    pass: &mut Pass<N, T::Rule>,
    plain: &mut Plain,
    keys: u64,
    moves: &mut Moves,
) -> Result<bool, AllocError>
    requires { IsIdlePassOf map.now pass.old }
    ensures { IsIdlePassOf map.now pass.new }
{
    let mut draws = Draws { seed: keys };
    for count in 0..CALLS {
        let call = draws.call(keys, count / PHASE % 2 == 0);
        let answer = make(rt, map, pass, call);
        moves.note(call, answer);
        if !plain.agrees(call, answer)? {
            return Ok(false);
        }
    }
    Ok(true)
}

/// Whether each key below `keys` has the value that it has in the plain map.
fn is_same<
    N: Node,
    T: Ruled + Template<N, Arena<N, <T as Ruled>::Rule>> + Moving<N, Arena<N, <T as Ruled>::Rule>>,
    R: Wait,
>(rt: &R, map: &Dictionary<N, T>, pass: &mut Pass<N, T::Rule>, plain: &Plain, keys: u64) -> bool
    requires { IsIdlePassOf map.now pass.old }
    ensures { IsIdlePassOf map.now pass.new }
{
    let mut same = true;
    for key in 0..keys {
        let answer = make(rt, map, pass, Call::Get(key));
        same = same && answer == Answer::Found(plain.at(key));
    }
    same
}

/// Whether drawn calls return what they do of a plain map, and leave what they leave there; then all nodes are free again once
/// all keys are deleted: there is room for as many keys as there was before.
fn goes_right<
    N: Node,
    T: Ruled
        + Compacting<N, Arena<N, <T as Ruled>::Rule>>
        + Moving<N, Arena<N, <T as Ruled>::Rule>>,
    R: Wait,
>(
    rt: &R,
    map: &Dictionary<N, T>,
    pass: &mut Pass<N, T::Rule>,
    alloc: Global,
    keys: u64,
    moves: &mut Moves,
) -> Result<bool, AllocError>
    requires { IsIdlePassOf map.now pass.old }
{
    let mut plain = Plain::new(alloc);
    let room = fill(rt, map, pass);
    empty(rt, map, pass, room);
    let agrees = play(rt, map, pass, &mut plain, keys, moves)?;
    compact(rt, map, pass);
    let same = is_same(rt, map, pass, &plain, keys);
    empty(rt, map, pass, keys);
    Ok(agrees && same && fill(rt, map, pass) == room)
}

/// All trials go right, and moves did in them what moves can do.
fn all_go_right<
    N: Node,
    T: Ruled
        + Compacting<N, Arena<N, <T as Ruled>::Rule>>
        + Moving<N, Arena<N, <T as Ruled>::Rule>>,
    R: Wait + Abort,
>(rt: &R, alloc: Global, trials: &[(u32, u64)]) -> Result<(), AllocError> {
    let mut moves = Moves::none();
    for (nodes, keys) in trials {
        let (map, mut passes) = Dictionary::<N, T>::start(alloc, (*nodes).clamp(4, 64), 1)?;
        let is_right = goes_right(rt, &map, &mut passes[0], alloc, *keys, &mut moves)?;
        assert!(rt; is_right, "{nodes} nodes, {keys} keys");
    }
    assert!(rt; moves.has_each());
    Ok(())
}

#[test]
fn drawn_moves_over_lists(rt: HostRuntime) -> Result<(), Fail> {
    all_go_right::<WithRange<ListNode>, GiveUp, HostRuntime>(&rt, rt.alloc(), &TRIALS)?;
    Ok(())
}

#[test]
fn drawn_moves_over_trees(rt: HostRuntime) -> Result<(), Fail> {
    all_go_right::<WithRange<BNode>, GiveUp, HostRuntime>(&rt, rt.alloc(), &TRIALS)?;
    Ok(())
}

#[test]
fn drawn_moves_over_tables(rt: HostRuntime) -> Result<(), Fail> {
    all_go_right::<WithRange<HNode>, GiveUp, HostRuntime>(&rt, rt.alloc(), &TRIALS)?;
    Ok(())
}

#[test]
fn drawn_moves_over_binary_trees(rt: HostRuntime) -> Result<(), Fail> {
    all_go_right::<WithRange<TNode>, GiveUp, HostRuntime>(&rt, rt.alloc(), &TRIALS)?;
    Ok(())
}

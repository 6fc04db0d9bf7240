//! A trial of a dictionary, and how it is run at any types.
ghost use Rattle.std.specs.Prelude.{◌<◌, ◌≤◌, length};
ghost use Rattle.ks_arena.specs.Of.{SameCaller};
ghost use Rattle.ks_dictionary.specs.Of.{AreOrderedPassesOf, IsIdlePassOf};

use crate::board::{Board, Replay, replayed};
use crate::calls::make;
use crate::order::InOrder;
use crate::scripts::{Script, Step, key_at};
use ks_arena::{Arena, Pass};
use ks_dictionary::Dictionary;
use ks_keysets::{Graph, NodeState};
use ks_node::Node;
use ks_shape::{Compacting, Ruled, Template};
use std::alloc::{AllocError, Global};
use std::sync::Wait;
use std::thread::{Threads, for_each_mut};

/// What a trial must leave beside a legal history. None: whatever it is.
#[derive(Clone, Copy)]
pub(crate) struct Due {
    /// How many calls were full.
    pub(crate) fulls: Option<u64>,
    /// How many calls were put off.
    pub(crate) put_off: Option<u64>,
    /// How many nodes are live in the end, after compaction under trees.
    pub(crate) live: Option<u64>,
    /// How many nodes compaction made free.
    pub(crate) freed: Option<u64>,
}

/// The first script is made by caller 0, then one by each caller at once, and then the last by caller 0.
#[derive(Drop)]
pub struct Trial {
    pub(crate) nodes: u32,
    pub(crate) stride: u64,
    pub(crate) keys: usize,
    pub(crate) scripts: Vec<Script>,
    pub(crate) gate: InOrder,
    pub(crate) board: Board,
    pub(crate) due: Due,
}

/// What is left of a dictionary.
#[derive(Drop)]
struct Left {
    pairs: Vec<(u64, u128)>,
    live: usize,
    freed: u32,
}

/// Whether as many are there as are due, if a number is due.
fn is_due(due: Option<u64>, many: u64) -> bool {
    match due {
        Some(due) => due == many,
        None => true,
    }
}

/// How many nodes are live.
fn live_nodes(graph: &Graph) -> usize {
    graph
        .nodes
        .iter()
        .filter(|state| matches!(state, NodeState::Live(_)))
        .count()
}

impl Trial {
    /// How many callers there are.
    fn callers(&self) -> u32
        ensures { (1 ≤ result) × (result ≤ 1024) }
    {
        let scripts = self.scripts.len();
        if scripts < 3 {
            1
        } else if scripts > 1026 {
            1024
        } else {
            (scripts - 2) as u32
        }
    }

    /// How many nodes the dictionary has.
    fn room(&self) -> u32
        ensures { (4 ≤ result) × (result ≤ 1048576) }
    {
        if self.nodes < 4 {
            4
        } else if self.nodes > 1048576 {
            1048576
        } else {
            self.nodes
        }
    }

    /// The gate, if a caller is to stop at it.
    fn gate(&self) -> Option<&InOrder> {
        if self.gate.is_open() {
            None
        } else {
            Some(&self.gate)
        }
    }

    /// The steps of a script.
    fn steps_of(&self, script: usize) -> &[Step] {
        match self.scripts.get(script) {
            Some(script) => script.steps.as_slice(),
            None => &[],
        }
    }

    /// Whether the pairs are those of the plain map.
    fn has_pairs(&self, replay: &Replay, pairs: &[(u64, u128)]) -> bool {
        for (at, value) in replay.map.iter().enumerate() {
            if let Some(value) = value {
                let pair = (key_at(self.stride, at), *value);
                if !pairs.contains(&pair) {
                    return false;
                }
            }
        }
        pairs.len() == replay.pairs()
    }

    /// Whether all that the calls returned, and what is left, is as it must be.
    fn went_right(&self, alloc: Global, left: &Left) -> Result<bool, AllocError> {
        let Some(replay) = replayed(alloc, &self.board, self.scripts.as_slice(), self.keys)? else {
            return Ok(false);
        };
        Ok(
            self.gate.is_passed()
                && self.has_pairs(&replay, left.pairs.as_slice())
                && is_due(self.due.fulls, replay.fulls)
                && is_due(self.due.put_off, self.board.put_off())
                && is_due(self.due.live, left.live as u64)
                && is_due(self.due.freed, u64::from(left.freed)),
        )
    }
}

/// Makes the calls of a script, at the gate if there is one.
fn play<N: Node, T: Ruled + Template<N, Arena<N, <T as Ruled>::Rule>>, R: Wait>(
    rt: &R,
    map: &Dictionary<N, T>,
    trial: &Trial,
    gate: Option<&InOrder>,
    script: usize,
    pass: &mut Pass<N, T::Rule>,
)
    requires { IsIdlePassOf map.now pass.old }
    ensures pass { IsIdlePassOf map.now pass.new }
    ensures caller { SameCaller pass.old pass.new }
{
    let steps = trial.steps_of(script);
    for at in 0..steps.len() {
        let step = steps[at];
        let answer = make(rt, map, pass, gate, step.call);
        trial.board.note(script, at, step.answer, answer);
    }
}

/// Makes the calls of a script by caller 0, while no other acts.
fn play_first<N: Node, T: Ruled + Template<N, Arena<N, <T as Ruled>::Rule>>, R: Wait>(
    rt: &R,
    map: &Dictionary<N, T>,
    trial: &Trial,
    script: usize,
    passes: &mut [Pass<N, T::Rule>],
)
    requires some { 0 < length passes.old }
    requires passes { AreOrderedPassesOf map.now passes.old }
    ensures { AreOrderedPassesOf map.now passes.new }
{
    play(rt, map, trial, None, script, &mut passes[0]);
}

/// Makes the calls of all callers at once.
fn play_each<
    N: Node + Send,
    T: Ruled + Template<N, Arena<N, <T as Ruled>::Rule>>,
    R: Threads + Wait + Sync,
>(rt: &R, map: &Dictionary<N, T>, trial: &Trial, passes: &mut [Pass<N, T::Rule>])
where
    N::Places: Send + Sync,
    requires some { 0 < length passes.old }
    requires passes { AreOrderedPassesOf map.now passes.old }
    ensures { AreOrderedPassesOf map.now passes.new }
{
    let threads = passes.len();
    for_each_mut(
        rt,
        passes,
        threads,
        &|at: usize, pass: &mut Pass<N, T::Rule>|
            requires { IsIdlePassOf map.now pass.old }
            ensures pass { IsIdlePassOf map.entry.now pass.new }
            ensures caller { SameCaller pass.old pass.new }
        { play(rt, map, trial, trial.gate(), at.saturating_add(1), pass) },
    );
}

/// Makes the calls of all scripts.
fn play_all<
    N: Node + Send,
    T: Ruled + Template<N, Arena<N, <T as Ruled>::Rule>>,
    R: Threads + Wait + Sync,
>(rt: &R, map: &Dictionary<N, T>, trial: &Trial, passes: &mut [Pass<N, T::Rule>])
where
    N::Places: Send + Sync,
    requires some { 0 < length passes.old }
    requires passes { AreOrderedPassesOf map.now passes.old }
    ensures { AreOrderedPassesOf map.now passes.new }
{
    let last = trial.scripts.len().saturating_sub(1);
    play_first(rt, map, trial, 0, passes);
    play_each(rt, map, trial, passes);
    play_first(rt, map, trial, last, passes);
}

/// Compacts by one caller until no node is made free. Returns how many were, modulo 2^32.
fn compact_whole<N: Node, T: Ruled + Compacting<N, Arena<N, <T as Ruled>::Rule>>, R: Wait>(
    rt: &R,
    map: &Dictionary<N, T>,
    pass: &mut Pass<N, T::Rule>,
) -> u32
    requires { IsIdlePassOf map.now pass.old }
    ensures pass { IsIdlePassOf map.now pass.new }
    ensures caller { SameCaller pass.old pass.new }
{
    let mut all = 0u32;
    for _ in rt.forever() {
        let freed = map.compact(rt, pass);
        if freed == 0 {
            return all;
        }
        all = all.wrapping_add(freed);
    }
    all
}

/// Compacts by caller 0 until no node is made free. Returns how many were, modulo 2^32.
fn compact_first<N: Node, T: Ruled + Compacting<N, Arena<N, <T as Ruled>::Rule>>, R: Wait>(
    rt: &R,
    map: &Dictionary<N, T>,
    passes: &mut [Pass<N, T::Rule>],
) -> u32
    requires some { 0 < length passes.old }
    requires passes { AreOrderedPassesOf map.now passes.old }
    ensures { AreOrderedPassesOf map.now passes.new }
{
    compact_whole(rt, map, &mut passes[0])
}

/// Makes the calls of all scripts, and compacts.
fn play_and_compact<
    N: Node + Send,
    T: Ruled + Compacting<N, Arena<N, <T as Ruled>::Rule>>,
    R: Threads + Wait + Sync,
>(rt: &R, map: &Dictionary<N, T>, trial: &Trial, passes: &mut [Pass<N, T::Rule>]) -> u32
where
    N::Places: Send + Sync,
    requires some { 0 < length passes.old }
    requires passes { AreOrderedPassesOf map.now passes.old }
    ensures { AreOrderedPassesOf map.now passes.new }
{
    play_all(rt, map, trial, passes);
    compact_first(rt, map, passes)
}

/// Ends the dictionary.
fn end<N: Node, T: Ruled + Template<N, Arena<N, <T as Ruled>::Rule>>>(
    alloc: Global,
    map: Dictionary<N, T>,
    passes: Vec<Pass<N, T::Rule>>,
    freed: u32,
) -> Result<Left, AllocError>
    requires { AreOrderedPassesOf map passes.items }
{
    map.passes_law();
    let closed = map.close(passes);
    let pairs = closed.pairs(alloc)?;
    let live = live_nodes(&closed.graph(alloc)?);
    Ok(Left { pairs, live, freed })
}

/// Runs a trial of a technique that compacts. Returns whether it went right.
fn goes_right_under_trees<
    N: Node + Send,
    T: Ruled + Compacting<N, Arena<N, <T as Ruled>::Rule>>,
    R: Threads + Wait + Sync,
>(rt: &R, alloc: Global, trial: &Trial) -> Result<bool, AllocError>
where
    N::Places: Send + Sync,
{
    let (map, mut passes) = Dictionary::<N, T>::start(alloc, trial.room(), trial.callers())?;
    let freed = play_and_compact(rt, &map, trial, passes.as_mut_slice());
    let left = end(alloc, map, passes, freed)?;
    trial.went_right(alloc, &left)
}

/// Runs a trial of a technique that merges no nodes. Returns whether it went right.
fn goes_right_along_links<
    N: Node + Send,
    T: Ruled + Template<N, Arena<N, <T as Ruled>::Rule>>,
    R: Threads + Wait + Sync,
>(rt: &R, alloc: Global, trial: &Trial) -> Result<bool, AllocError>
where
    N::Places: Send + Sync,
{
    let (map, mut passes) = Dictionary::<N, T>::start(alloc, trial.room(), trial.callers())?;
    play_all(rt, &map, trial, passes.as_mut_slice());
    let left = end(alloc, map, passes, 0)?;
    trial.went_right(alloc, &left)
}

/// Runs trials of a technique that compacts. Returns how many of them went right before the first that did not: all, if
/// there is none.
///
/// # Errors
///
/// Only lack of memory.
pub fn right_under_trees<
    N: Node + Send,
    T: Ruled + Compacting<N, Arena<N, <T as Ruled>::Rule>>,
    R: Threads + Wait + Sync,
>(rt: &R, alloc: Global, trials: &[Trial]) -> Result<usize, AllocError>
where
    N::Places: Send + Sync,
{
    for at in 0..trials.len() {
        if !goes_right_under_trees::<N, T, R>(rt, alloc, &trials[at])? {
            return Ok(at);
        }
    }
    Ok(trials.len())
}

/// Runs trials of a technique that merges no nodes. Returns how many of them went right before the first that did not: all, if
/// there is none.
///
/// # Errors
///
/// Only lack of memory.
pub fn right_along_links<
    N: Node + Send,
    T: Ruled + Template<N, Arena<N, <T as Ruled>::Rule>>,
    R: Threads + Wait + Sync,
>(rt: &R, alloc: Global, trials: &[Trial]) -> Result<usize, AllocError>
where
    N::Places: Send + Sync,
{
    for at in 0..trials.len() {
        if !goes_right_along_links::<N, T, R>(rt, alloc, &trials[at])? {
            return Ok(at);
        }
    }
    Ok(trials.len())
}

//! The workers, each on a thread of its own: they fill a tree, scan it, and get its keys.
ghost use Rattle.std.specs.Prelude.{◌≡◌, ◌≤◌, true, [], vec_capacity};
ghost use Rattle.ks_arena.specs.Of.{SameCaller};
ghost use Rattle.ks_dictionary.specs.Of.{AreOrderedPassesOf, IsIdlePassOf};

use ks_arena::{Arena, Pass};
use ks_dictionary::Dictionary;
use ks_node::Node;
use ks_shape::{Part, Ruled, Scanning, Template};
use std::alloc::Global;
use std::io;
use std::sync::Wait;
use std::sync::atomic::AtomicU64;
use std::sync::atomic::Ordering::SeqCst;
use std::thread::{Threads, for_each_mut};
use std::time::{Clock, Instant};

/// How many keys a scan has in its span.
const SPAN: u64 = 1000;

/// How many parts a scan may have: more than the leaves of a span.
const PARTS: usize = 512;

/// An odd number, whose multiples modulo a power of two are all numbers below that.
const STRIDE: u64 = 2654435761;

/// What is to be measured.
#[derive(Clone, Copy, Debug)]
pub struct Load {
    /// How many keys the tree has, as a power of two.
    pub bits: u32,
    pub workers: u32,
    /// How many scans each worker makes.
    pub scans: u32,
}

impl Load {
    /// Whether it is within the limits of the program.
    pub fn is_admitted(&self) -> bool
        ensures workers { result ≡ true → (1 ≤ self.now.workers) × (self.now.workers ≤ 64) }
        ensures bits { result ≡ true → self.now.bits ≤ 20 }
    {
        10 <= self.bits && self.bits <= 20 && 1 <= self.workers && self.workers <= 64
    }

    /// How many keys the tree has.
    fn keys(&self) -> u64 {
        1u64.wrapping_shl(self.bits)
    }

    /// How many nodes its arena has: one for four keys.
    pub fn nodes(&self) -> u32
        requires { self.now.bits ≤ 20 }
        ensures { (4 ≤ result) × (result ≤ 1048576) }
    {
        1u32.wrapping_shl(self.bits).clamp(16, 4194304) / 4
    }

    /// Where the next span begins, drawn from the state.
    fn low(&self, state: u64) -> u64 {
        (state >> 33) % self.keys().saturating_sub(SPAN - 1).max(1)
    }
}

/// What all workers do before the next round begins.
#[derive(Clone, Copy, Debug)]
pub enum Round {
    /// They put all keys, each worker its share of them.
    Puts,
    /// Each makes as many scans as the load says.
    Scans,
    /// Each gets the keys of the spans that it scans, one by one.
    Gets,
}

/// What was seen: how many pairs, the sum of their values modulo 2^64, and the nanoseconds that it took.
#[derive(Clone, Copy, Debug)]
pub struct Seen {
    pub pairs: u64,
    pub sum: u64,
    pub nanoseconds: u64,
}

/// What all workers have seen.
#[derive(Drop)]
struct Sums {
    pairs: AtomicU64,
    sum: AtomicU64,
}

impl Sums {
    fn new() -> Sums {
        Sums {
            pairs: AtomicU64::new(0),
            sum: AtomicU64::new(0),
        }
    }

    /// Adds what one worker has seen.
    fn add(&self, pairs: u64, sum: u64) {
        self.pairs.fetch_add(pairs, SeqCst);
        self.sum.fetch_add(sum, SeqCst);
    }

    /// What was seen since the instant.
    fn since<R: Clock>(&self, rt: &R, begun: Instant) -> io::Result<Seen> {
        let nanoseconds = u64::try_from(begun.elapsed(rt)?.as_nanos()).unwrap_or(u64::MAX);
        Ok(Seen {
            pairs: self.pairs.load(SeqCst),
            sum: self.sum.load(SeqCst),
            nanoseconds,
        })
    }
}

/// The state of the draws after this one.
fn next(state: u64) -> u64 {
    state
        .wrapping_mul(6364136223846793005)
        .wrapping_add(1442695040888963407)
}

/// The state of the draws of a caller before its first.
fn first(caller: u32) -> u64 {
    next(caller as u64)
}

/// Makes a round with all workers, and sums up what they have seen.
///
/// # Errors
///
/// Lack of a clock.
pub fn run_all<
    N: Node + Send,
    T: Ruled
        + Template<N, Arena<N, <T as Ruled>::Rule>>
        + Scanning<N, Arena<N, <T as Ruled>::Rule>>,
    R: Threads + Wait + Clock + Sync,
>(
    rt: &R,
    map: &Dictionary<N, T>,
    load: Load,
    alloc: Global,
    passes: &mut [Pass<N, T::Rule>],
    round: Round,
) -> io::Result<Seen>
where
    N::Places: Send + Sync,
    requires some { 1 ≤ load.workers }
    requires passes { AreOrderedPassesOf map.now passes.old }
    ensures { AreOrderedPassesOf map.now passes.new }
{
    let begun = Instant::now(rt)?;
    let sums = Sums::new();
    for_each_mut(
        rt,
        passes,
        load.workers as usize,
        &|_: usize, pass: &mut Pass<N, T::Rule>|
            requires { IsIdlePassOf map.now pass.old }
            ensures idle { IsIdlePassOf map.entry.now pass.new }
            ensures same { SameCaller pass.old pass.new }
        { run(rt, map, load, alloc, pass, round, &sums) },
    );
    sums.since(rt, begun)
}

/// Makes a round with one worker.
fn run<
    N: Node,
    T: Ruled
        + Template<N, Arena<N, <T as Ruled>::Rule>>
        + Scanning<N, Arena<N, <T as Ruled>::Rule>>,
    R: Wait,
>(
    rt: &R,
    map: &Dictionary<N, T>,
    load: Load,
    alloc: Global,
    pass: &mut Pass<N, T::Rule>,
    round: Round,
    sums: &Sums,
)
    requires { IsIdlePassOf map.now pass.old }
    ensures idle { IsIdlePassOf map.now pass.new }
    ensures same { SameCaller pass.old pass.new }
{
    match round {
        Round::Puts => fill(rt, map, load, pass, sums),
        Round::Scans => scan_each(rt, map, load, alloc, pass, sums),
        Round::Gets => get_each(rt, map, load, pass, sums),
    }
}

/// Puts the share of one worker, each key with twice the key for its value.
fn fill<N: Node, T: Ruled + Template<N, Arena<N, <T as Ruled>::Rule>>, R: Wait>(
    rt: &R,
    map: &Dictionary<N, T>,
    load: Load,
    pass: &mut Pass<N, T::Rule>,
    sums: &Sums,
)
    requires { IsIdlePassOf map.now pass.old }
    ensures idle { IsIdlePassOf map.now pass.new }
    ensures same { SameCaller pass.old pass.new }
{
    let keys = load.keys();
    let workers = (load.workers as u64).max(1);
    let worker = pass.caller() as u64;
    let mut pairs = 0u64;
    for at in 0..keys {
        let key = at.wrapping_mul(STRIDE) & keys.wrapping_sub(1);
        if at % workers == worker && map.put(rt, pass, key, key as u128 * 2).is_ok() {
            pairs = pairs.saturating_add(1);
        }
    }
    sums.add(pairs, 0);
}

/// Makes the scans of one worker. Without memory for their parts it makes none.
fn scan_each<N: Node, T: Ruled + Scanning<N, Arena<N, <T as Ruled>::Rule>>, R: Wait>(
    rt: &R,
    map: &Dictionary<N, T>,
    load: Load,
    alloc: Global,
    pass: &mut Pass<N, T::Rule>,
    sums: &Sums,
)
    requires { IsIdlePassOf map.now pass.old }
    ensures idle { IsIdlePassOf map.now pass.new }
    ensures same { SameCaller pass.old pass.new }
{
    let Ok(mut parts) = Vec::with_capacity(alloc, PARTS) else {
        return;
    };
    let mut state = first(pass.caller());
    for _ in 0..load.scans {
        state = next(state);
        scan(rt, map, load.low(state), pass, &mut parts);
        sums.add(pairs_in(&parts), sum_of(&parts));
    }
}

/// Lists the span that begins at `low`.
fn scan<N: Node, T: Ruled + Scanning<N, Arena<N, <T as Ruled>::Rule>>, R: Wait>(
    rt: &R,
    map: &Dictionary<N, T>,
    low: u64,
    pass: &mut Pass<N, T::Rule>,
    parts: &mut Vec<Part>,
)
    requires idle { IsIdlePassOf map.now pass.old }
    requires room { 512 ≤ vec_capacity parts.old }
    ensures idle { IsIdlePassOf map.now pass.new }
    ensures same { SameCaller pass.old pass.new }
    ensures room { vec_capacity parts.new ≡ vec_capacity parts.old }
{
    parts.clear();
    let last = low.saturating_add(SPAN - 1);
    let _ = map.scan_into(rt, pass, low, last, PARTS, parts);
}

/// How many pairs the parts have.
fn pairs_in(parts: &[Part]) -> u64 {
    let mut pairs = 0u64;
    for part in parts {
        pairs = pairs.saturating_add(part.pairs.len() as u64);
    }
    pairs
}

/// A value as a number of 64 bits: all that are put here are.
fn low_half(value: u128) -> u64 {
    u64::try_from(value).unwrap_or(u64::MAX)
}

/// The sum of the values of all pairs, modulo 2^64.
fn sum_of(parts: &[Part]) -> u64 {
    let mut sum = 0u64;
    for part in parts {
        for at in 0..part.pairs.len() {
            sum = sum.wrapping_add(low_half(part.pairs.pair(at).value));
        }
    }
    sum
}

/// Makes the gets of one worker.
fn get_each<N: Node, T: Ruled + Template<N, Arena<N, <T as Ruled>::Rule>>, R: Wait>(
    rt: &R,
    map: &Dictionary<N, T>,
    load: Load,
    pass: &mut Pass<N, T::Rule>,
    sums: &Sums,
)
    requires { IsIdlePassOf map.now pass.old }
    ensures idle { IsIdlePassOf map.now pass.new }
    ensures same { SameCaller pass.old pass.new }
{
    let mut state = first(pass.caller());
    for _ in 0..load.scans {
        state = next(state);
        get_span(rt, map, load.low(state), pass, sums);
    }
}

/// Gets the keys of the span that begins at `low`.
fn get_span<N: Node, T: Ruled + Template<N, Arena<N, <T as Ruled>::Rule>>, R: Wait>(
    rt: &R,
    map: &Dictionary<N, T>,
    low: u64,
    pass: &mut Pass<N, T::Rule>,
    sums: &Sums,
)
    requires { IsIdlePassOf map.now pass.old }
    ensures idle { IsIdlePassOf map.now pass.new }
    ensures same { SameCaller pass.old pass.new }
{
    let mut pairs = 0u64;
    let mut sum = 0u64;
    for at in 0..SPAN {
        if let Some(value) = map.get(rt, pass, low.saturating_add(at)).found {
            pairs = pairs.saturating_add(1);
            sum = sum.wrapping_add(low_half(value));
        }
    }
    sums.add(pairs, sum);
}

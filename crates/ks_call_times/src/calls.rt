//! The callers, each on a thread of its own, and the time of each call.
ghost use Rattle.std.specs.Prelude.{◌≤◌};
ghost use Rattle.ks_arena.specs.Of.{SameCaller};
ghost use Rattle.ks_dictionary.specs.Of.{AreOrderedPassesOf, IsIdlePassOf};

use crate::times::nanoseconds;
use ks_arena::{Arena, Pass};
use ks_dictionary::Dictionary;
use ks_generator::made_script;
use ks_history::Op;
use ks_lines::Line;
use ks_node::Node;
use ks_script::Calls;
use ks_shape::{Ruled, Template};
use std::alloc::{AllocError, Global};
use std::io;
use std::sync::atomic::AtomicU64;
use std::sync::atomic::Ordering::SeqCst;
use std::sync::{Barrier, Mutex, Wait};
use std::thread::{Threads, for_each_mut};
use std::time::{Clock, Instant};

/// How many nodes an arena has for each caller.
const NODES: u32 = 1024;

/// The number from which the calls are drawn.
const FIRST: u64 = 7;

/// What was measured.
#[derive(Drop)]
pub struct Measured {
    /// The nanoseconds of each call.
    pub times: Vec<u64>,
    /// How many calls found a value.
    pub found: u64,
    /// How many pairs are left.
    pub pairs: usize,
    /// The nanoseconds from before the first thread starts until all are joined.
    pub span: u64,
}

/// What all callers share beside the dictionary.
#[derive(Drop)]
struct Shared {
    alloc: Global,
    /// The calls of each caller.
    scripts: Vec<Vec<Op>>,
    /// Where the callers wait for one another before their first calls.
    start: Barrier,
    times: Mutex<Vec<u64>>,
    found: AtomicU64,
}

impl Shared {
    /// The calls of the caller with this number.
    fn calls_of(&self, caller: u32) -> &[Op] {
        match self.scripts.get(caller as usize) {
            Some(calls) => calls.as_slice(),
            None => &[],
        }
    }

    /// Keeps what the calls of one caller took, and how many found a value, unless they were broken off.
    fn keep<R: Wait>(&self, rt: &R, mut times: Vec<u64>, found: io::Result<u64>) {
        if let Ok(found) = found {
            self.found.fetch_add(found, SeqCst);
            let _ = self.times.lock(rt).append(&mut times);
        }
    }

    /// What all callers kept.
    fn told(self, pairs: usize, span: u64) -> Measured {
        Measured {
            times: self.times.into_inner(),
            found: self.found.load(SeqCst),
            pairs,
            span,
        }
    }
}

/// The calls of a caller whose lines are all calls.
fn ops_of(alloc: Global, lines: &Calls) -> Result<Vec<Op>, AllocError> {
    let mut ops = Vec::with_capacity(alloc, lines.len())?;
    for at in 0..lines.len() {
        if let Line::Call(op) = lines.get(at) {
            ops.push(op)?;
        }
    }
    Ok(ops)
}

/// Makes the calls of `callers` callers over one dictionary, and takes the time of each.
///
/// # Errors
///
/// Lack of memory, or of a clock.
pub fn measure<
    N: Node + Send,
    T: Ruled + Template<N, Arena<N, <T as Ruled>::Rule>>,
    R: Threads + Wait + Clock + Sync,
>(rt: &R, alloc: Global, callers: u32, calls: u32) -> io::Result<Measured>
where
    N::Places: Send + Sync,
    requires { (1 ≤ callers) × (callers ≤ 64) }
{
    let script = made_script(alloc, callers, calls, FIRST)?;
    let mut scripts = Vec::with_capacity(alloc, script.callers.len())?;
    for lines in &script.callers {
        scripts.push(ops_of(alloc, lines)?)?;
    }
    let shared = Shared {
        alloc,
        scripts,
        start: Barrier::new(callers as usize),
        times: Mutex::new(Vec::new(alloc)),
        found: AtomicU64::new(0),
    };
    let (pairs, span) = run::<N, T, R>(rt, &shared, callers)?;
    Ok(shared.told(pairs, span))
}

/// Serves all callers over a new dictionary, and ends it. Returns how many pairs it has at last, and the nanoseconds of
/// serving.
fn run<
    N: Node + Send,
    T: Ruled + Template<N, Arena<N, <T as Ruled>::Rule>>,
    R: Threads + Wait + Clock + Sync,
>(rt: &R, shared: &Shared, callers: u32) -> io::Result<(usize, u64)>
where
    N::Places: Send + Sync,
    requires { (1 ≤ callers) × (callers ≤ 64) }
{
    let alloc = shared.alloc;
    let (dictionary, mut passes) = Dictionary::<N, T>::start(alloc, callers * NODES, callers)?;
    let span = serve_timed(rt, &dictionary, shared, callers, passes.as_mut_slice());
    dictionary.passes_law();
    let closed = dictionary.close(passes);
    let pairs = closed.pairs(alloc)?;
    Ok((pairs.len(), span?))
}

/// Serves all callers, and returns how many nanoseconds it took.
fn serve_timed<
    N: Node + Send,
    T: Ruled + Template<N, Arena<N, <T as Ruled>::Rule>>,
    R: Threads + Wait + Clock + Sync,
>(
    rt: &R,
    dictionary: &Dictionary<N, T>,
    shared: &Shared,
    callers: u32,
    passes: &mut [Pass<N, T::Rule>],
) -> io::Result<u64>
where
    N::Places: Send + Sync,
    requires some { 1 ≤ callers }
    requires passes { AreOrderedPassesOf dictionary.now passes.old }
    ensures { AreOrderedPassesOf dictionary.now passes.new }
{
    let begun = Instant::now(rt)?;
    serve_all(rt, dictionary, shared, callers, passes);
    Ok(nanoseconds(begun.elapsed(rt)?))
}

/// Serves all callers at once, each in joined work of its own.
fn serve_all<
    N: Node + Send,
    T: Ruled + Template<N, Arena<N, <T as Ruled>::Rule>>,
    R: Threads + Wait + Clock + Sync,
>(
    rt: &R,
    dictionary: &Dictionary<N, T>,
    shared: &Shared,
    callers: u32,
    passes: &mut [Pass<N, T::Rule>],
)
where
    N::Places: Send + Sync,
    requires some { 1 ≤ callers }
    requires passes { AreOrderedPassesOf dictionary.now passes.old }
    ensures { AreOrderedPassesOf dictionary.now passes.new }
{
    for_each_mut(
        rt,
        passes,
        callers as usize,
        &|_: usize, pass: &mut Pass<N, T::Rule>|
            requires { IsIdlePassOf dictionary.now pass.old }
            ensures idle { IsIdlePassOf dictionary.entry.now pass.new }
            ensures same { SameCaller pass.old pass.new }
        { serve(rt, dictionary, shared, pass) },
    );
}

/// Serves one caller: it waits until all are there, and makes its calls.
fn serve<N: Node, T: Ruled + Template<N, Arena<N, <T as Ruled>::Rule>>, R: Wait + Clock>(
    rt: &R,
    dictionary: &Dictionary<N, T>,
    shared: &Shared,
    pass: &mut Pass<N, T::Rule>,
)
    requires { IsIdlePassOf dictionary.now pass.old }
    ensures idle { IsIdlePassOf dictionary.now pass.new }
    ensures same { SameCaller pass.old pass.new }
{
    let calls = shared.calls_of(pass.caller());
    let mut times = Vec::new(shared.alloc);
    let _ = times.reserve(calls.len());
    shared.start.wait(rt);
    let found = call_each(rt, dictionary, calls, pass, &mut times);
    shared.keep(rt, times, found);
}

/// Makes the calls in order, appends the nanoseconds of each, and returns how many found a value.
///
/// # Errors
///
/// Lack of memory, or of a clock.
fn call_each<N: Node, T: Ruled + Template<N, Arena<N, <T as Ruled>::Rule>>, R: Wait + Clock>(
    rt: &R,
    dictionary: &Dictionary<N, T>,
    calls: &[Op],
    pass: &mut Pass<N, T::Rule>,
    times: &mut Vec<u64>,
) -> io::Result<u64>
    requires { IsIdlePassOf dictionary.now pass.old }
    ensures idle { IsIdlePassOf dictionary.now pass.new }
    ensures same { SameCaller pass.old pass.new }
{
    let mut count = 0u64;
    for op in calls {
        let begun = Instant::now(rt)?;
        let found = call(rt, dictionary, pass, *op);
        times.push(nanoseconds(begun.elapsed(rt)?))?;
        count = count.saturating_add(found.is_some() as u64);
    }
    Ok(count)
}

/// Makes one call, and returns the value that its key had.
fn call<N: Node, T: Ruled + Template<N, Arena<N, <T as Ruled>::Rule>>, R: Wait>(
    rt: &R,
    dictionary: &Dictionary<N, T>,
    pass: &mut Pass<N, T::Rule>,
    op: Op,
) -> Option<u128>
    requires { IsIdlePassOf dictionary.now pass.old }
    ensures idle { IsIdlePassOf dictionary.now pass.new }
    ensures same { SameCaller pass.old pass.new }
{
    match op {
        Op::Get(key) => dictionary.get(rt, pass, key).found,
        Op::Put(key, value) => match dictionary.put(rt, pass, key, value) {
            Ok(told) => told.found,
            Err(_) => None,
        },
        Op::Del(key) => dictionary.del(rt, pass, key).found,
        // (none is drawn)
        Op::Add(..) | Op::Swap(..) | Op::Part(..) | Op::Move(..) => None,
    }
}

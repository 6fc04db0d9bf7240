//! What one caller does to a dictionary, and what is left of it.
ghost use Rattle.std.specs.Prelude.{◌≡◌, ◌≤◌, ◌∷◌, [], IfOk};
ghost use Rattle.ks_arena.specs.Sound.{sort_of};
ghost use Rattle.ks_dictionary.specs.Ended.{HasEnded};
ghost use Rattle.ks_compact_tests.specs.Only.{IsOnly};

use ks_arena::{Arena, Pass};
use ks_dictionary::{Closed, Dictionary};
use ks_keysets::Graph;
use ks_node::Node;
use ks_shape::{Compacting, Ruled, Template};
use std::alloc::{AllocError, Global};
use std::sync::Wait;

/// Calls at some keys: the first one, how many, and how far they are apart.
#[derive(Clone, Copy)]
pub(crate) enum Run {
    /// Puts each key as its own value.
    Put(u64, u64, u64),
    /// Deletes each key.
    Del(u64, u64, u64),
}

impl Run {
    /// The first key, how many there are, and how far they are apart.
    fn keys(&self) -> (u64, u64, u64) {
        match *self {
            Run::Put(first, many, stride) | Run::Del(first, many, stride) => (first, many, stride),
        }
    }
}

/// What is left when a dictionary of one caller has ended.
#[derive(Drop)]
pub(crate) struct Left {
    /// Whether each put found no value, and each del the key's own.
    pub(crate) found_all: bool,
    /// How many compactions made nodes free, before one that made none, and how many nodes these were, modulo 2^32.
    pub(crate) rounds: u32,
    pub(crate) freed: u32,
    pub(crate) graph: Graph,
    pub(crate) pairs: Vec<(u64, u128)>,
}

/// A dictionary of one caller, and its pass.
fn start_one<N: Node, T: Ruled + Template<N, Arena<N, <T as Ruled>::Rule>>>(
    alloc: Global,
    nodes: u32,
) -> Result<(Dictionary<N, T>, Pass<N, T::Rule>), AllocError>
    requires nodes { (4 ≤ nodes) × (nodes ≤ 1048576) }
    ensures { IfOk result (λ r. IsOnly r.0 r.1) }
{
    let (dictionary, mut passes) = Dictionary::<N, T>::start(alloc, nodes, 1)?;
    let Some(pass) = passes.pop() else {
        return Err(AllocError);
    };
    Ok((dictionary, pass))
}

/// Makes a call of a run at a key. Returns whether a put found no value, and a del the key's own.
fn make<N: Node, T: Ruled + Template<N, Arena<N, <T as Ruled>::Rule>>, R: Wait>(
    rt: &R,
    dictionary: &Dictionary<N, T>,
    pass: &mut Pass<N, T::Rule>,
    run: &Run,
    key: u64,
) -> bool
    requires { IsOnly dictionary.now pass.old }
    ensures { IsOnly dictionary.now pass.new }
{
    match *run {
        Run::Put(_, _, _) => match dictionary.put(rt, pass, key, u128::from(key)) {
            Ok(told) => told.found.is_none(),
            Err(_) => false,
        },
        Run::Del(_, _, _) => dictionary.del(rt, pass, key).found == Some(u128::from(key)),
    }
}

/// Makes the calls of a run. Returns whether each found what it should.
fn make_each<N: Node, T: Ruled + Template<N, Arena<N, <T as Ruled>::Rule>>, R: Wait>(
    rt: &R,
    dictionary: &Dictionary<N, T>,
    pass: &mut Pass<N, T::Rule>,
    run: &Run,
) -> bool
    requires { IsOnly dictionary.now pass.old }
    ensures { IsOnly dictionary.now pass.new }
{
    let mut found_all = true;
    let (first, many, stride) = run.keys();
    for count in 0..many {
        let key = count.wrapping_mul(stride).wrapping_add(first);
        let found = make(rt, dictionary, pass, run, key);
        found_all = found_all && found;
    }
    found_all
}

/// Makes the calls of all runs. Returns whether each found what it should.
fn make_all<N: Node, T: Ruled + Template<N, Arena<N, <T as Ruled>::Rule>>, R: Wait>(
    rt: &R,
    dictionary: &Dictionary<N, T>,
    pass: &mut Pass<N, T::Rule>,
    runs: &[Run],
) -> bool
    requires { IsOnly dictionary.now pass.old }
    ensures { IsOnly dictionary.now pass.new }
{
    let mut found_all = true;
    for run in runs {
        let found = make_each(rt, dictionary, pass, run);
        found_all = found_all && found;
    }
    found_all
}

/// Compacts until no node is made free, if `compacts`. Returns how often that made some free, and how many.
fn compact_all<N: Node, T: Ruled + Compacting<N, Arena<N, <T as Ruled>::Rule>>, R: Wait>(
    rt: &R,
    dictionary: &Dictionary<N, T>,
    pass: &mut Pass<N, T::Rule>,
    compacts: bool,
) -> (u32, u32)
    requires { IsOnly dictionary.now pass.old }
    ensures { IsOnly dictionary.now pass.new }
{
    if !compacts {
        return (0, 0);
    }
    let mut rounds = 0u32;
    let mut all = 0u32;
    for _ in rt.forever() {
        let freed = dictionary.compact(rt, pass);
        if freed == 0 {
            return (rounds, all);
        }
        rounds = rounds.wrapping_add(1);
        all = all.wrapping_add(freed);
    }
    (rounds, all)
}

/// The one pass in a vector.
fn alone<N, D>(alloc: Global, pass: Pass<N, D>) -> Result<Vec<Pass<N, D>>, AllocError>
    ensures { IfOk result (λ all. all.items ≡ pass ∷ []) }
{
    let mut all = Vec::with_capacity(alloc, 1)?;
    all.push(pass)?;
    Ok(all)
}

/// Ends a dictionary of one caller.
fn end_one<N: Node, T: Ruled + Template<N, Arena<N, <T as Ruled>::Rule>>>(
    alloc: Global,
    dictionary: Dictionary<N, T>,
    pass: Pass<N, T::Rule>,
) -> Result<Closed<N>, AllocError>
    requires { IsOnly dictionary pass }
    ensures { IfOk result (λ closed. HasEnded (sort_of N.layout N.ranged) N.body closed) }
{
    let all = alone(alloc, pass)?;
    Ok(dictionary.close(all))
}

/// Makes the calls of all runs over a dictionary of `nodes` nodes, and compacts it until no node is made free, if `compacts`.
/// Returns what is left.
///
/// # Errors
///
/// Only lack of memory.
pub(crate) fn left_by<N: Node, T: Ruled + Compacting<N, Arena<N, <T as Ruled>::Rule>>, R: Wait>(
    rt: &R,
    alloc: Global,
    nodes: u32,
    runs: &[Run],
    compacts: bool,
) -> Result<Left, AllocError>
    requires { (4 ≤ nodes) × (nodes ≤ 1048576) }
{
    let (dictionary, mut pass) = start_one::<N, T>(alloc, nodes)?;
    let found_all = make_all(rt, &dictionary, &mut pass, runs);
    let (rounds, freed) = compact_all(rt, &dictionary, &mut pass, compacts);
    let closed = end_one(alloc, dictionary, pass)?;
    let graph = closed.graph(alloc)?;
    let pairs = closed.pairs(alloc)?;
    Ok(Left {
        found_all,
        rounds,
        freed,
        graph,
        pairs,
    })
}

//! A dictionary that has ended.
ghost use Rattle.std.specs.Prelude.{◌≡◌, ℕ, length, IfOk};
ghost use Rattle.ks_keysets.specs.Listed.{graph_of};
ghost use Rattle.ks_history.specs.Map.{map_after};
ghost use Rattle.ks_history.specs.Served.{IsListing};
ghost use Rattle.ks_history.specs.Trace.{calls_of, graph_after, number_after};
ghost use Rattle.ks_arena.specs.Sound.{sort_of};
ghost use Rattle.ks_dictionary.specs.Ended.{HasEnded, HasEndedWith, history};

use ks_arena::{Run, RunTrace};
use ks_keysets::Graph;
use ks_node::Node;
use ks_places::Placing;
use std::alloc::{AllocError, Global};

/// What is left of a dictionary that has ended: its nodes and its history.
#[derive(Drop)]
pub struct Closed<N> {
    pub(crate) run: Run<N>,
}

impl<N: Node> Closed<N> {
    /// The keys and values at the end, ascending by key. They are the map after all calls.
    ///
    /// # Errors
    ///
    /// Only lack of memory.
    pub fn pairs(&self, alloc: Global) -> Result<Vec<(u64, u128)>, AllocError>
        requires { HasEnded (sort_of N.layout N.ranged) N.body self.now }
        ensures { IfOk result (λ entries.
            IsListing (λ key. map_after (calls_of (history self.now)) (N.Places.place_of key)) entries.items) }
    {
        let mut entries = self.run.pairs(alloc)?;
        for entry in entries.as_mut_slice() {
            entry.0 = N::Places::key_of(entry.0);
        }
        entries.sort_unstable_by_key(|entry| entry.0);
        Ok(entries)
    }

    /// The graph at the end, with as many nodes as the dictionary had.
    ///
    /// # Errors
    ///
    /// Only lack of memory.
    pub fn graph(&self, alloc: Global) -> Result<Graph, AllocError>
        requires { HasEnded (sort_of N.layout N.ranged) N.body self.now }
        ensures nodes { (nodes : ℕ) → HasEndedWith (sort_of N.layout N.ranged) N.body nodes self.now
            → IfOk result (λ graph. length graph ≡ nodes) }
        ensures states { IfOk result (λ graph.
            (node : ℕ) → graph_of graph node ≡ graph_after (history self.now) node) }
    {
        self.run.graph(alloc)
    }

    /// How many calls were made, modulo 2^64.
    pub fn calls(&self) -> u64
        requires { HasEnded (sort_of N.layout N.ranged) N.body self.now }
        ensures { result ≡ number_after (history self.now) }
    {
        self.run.calls()
    }

    /// The trace of the run, for proofs only.
    pub fn trace(self) -> RunTrace
        ensures { result ≡ history self }
    {
        let Closed { run } = self;
        run.trace()
    }
}

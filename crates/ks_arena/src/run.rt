//! What is left of an arena that has ended.
ghost use Rattle.std.specs.Prelude.{◌≡◌, ℕ};
ghost use Rattle.ks_arena.specs.Sound.{sort_of};
ghost use Rattle.ks_history.specs.Trace.{number_after};
ghost use Rattle.ks_arena.specs.Clauses.{IsRun, trace_of};

use crate::remains::Remains;
use crate::spots::CALLS;
use crate::view::View;
use atomic_table::Badge;
use ks_node::Node;
use std::marker::Model;

/// The trace of a run, only for proofs. Contracts see it as its events, the newest first.
#[derive(Drop)]
pub struct RunTrace {
    pub(crate) badge: Badge<View>,
}

impl Model for RunTrace {
    ghost use Rattle.std.specs.Prelude.{List};
    ghost use Rattle.ks_history.specs.declared.Event.{Event};
    ghost use Rattle.ks_arena.specs.Rule.{seen_first};

    ghost Value = { List Event };

    ghost view = { λ t. seen_first t.badge.views };
}

/// An arena that has ended.
#[derive(Drop)]
pub struct Run<N> {
    pub(crate) remains: Remains<N>,
    pub(crate) trace: RunTrace,
}

impl<N: Node> Run<N> {
    /// How many calls were made, modulo 2^64.
    pub fn calls(&self) -> u64
        requires { (nodes : ℕ) × IsRun (sort_of N.layout N.ranged) N.body nodes self.now }
        ensures { result ≡ number_after (trace_of self.now) }
    {
        self.remains.closed.word(CALLS)
    }

    /// Its trace.
    pub fn trace(self) -> RunTrace
        ensures { result ≡ trace_of self }
    {
        let Run { remains: _, trace } = self;
        trace
    }
}

//! That a discipline fits a node type: a clause that sees an arena knows the members of both by it.
ghost use Rattle.ks_arena.specs.Sound.{sort_of, blank_of};

use ks_flow::Discipline;
use ks_node::Node;
use std::marker::PhantomData;
use std::sync::Mutex;

/// It has no bytes. The marker lets an arena be shared if its nodes can be sent.
#[derive(Drop)]
pub(crate) struct Kin<N: Node, D: Discipline> {
    marker: PhantomData<Mutex<(N, D)>>,
    ghost fits: { ∥ D.begins (blank_of (sort_of N.layout N.ranged)) ∥₁ },
}

impl<N: Node, D: Discipline> Kin<N, D> {
    pub(crate) fn new() -> Kin<N, D>
        requires { D.begins (blank_of (sort_of N.layout N.ranged)) }
    {
        Kin {
            marker: PhantomData,
        }
    }
}

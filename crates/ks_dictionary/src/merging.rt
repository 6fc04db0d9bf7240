//! Merging all over a dictionary.
ghost use Rattle.std.specs.Prelude.{◌≡◌};
ghost use Rattle.ks_dictionary.specs.Of.{IsIdlePassOf, site_of};
ghost use Rattle.ks_shape.specs.Compacts.{HasFreed, HasLeftBy, IsTightIn, WasUndisturbed};
ghost use Rattle.ks_arena.specs.Of.{SameCaller};

use crate::dictionary::Dictionary;
use crate::runtime::Runtime;
use ks_arena::{Arena, Pass};
use ks_node::Node;
use ks_shape::{Compacting, Ruled};

impl<N: Node, T: Ruled + Compacting<N, Arena<N, <T as Ruled>::Rule>>> Dictionary<N, T> {
    /// Merges nodes that fit into one, all over the dictionary, while others use it; returns how many nodes it made
    /// free, modulo 2^32. No key and no value changes: it is no call of the history, and claims no node. If no other
    /// caller did anything meanwhile and it made none free, no node fits with its right neighbour, and the root is no
    /// branch over one child; so a caller repeats it, while no other acts, until it returns 0.
    pub fn compact<R: Runtime>(&self, rt: &R, pass: &mut Pass<N, T::Rule>) -> u32
        requires pass { IsIdlePassOf self.now pass.old }
        ensures pass { IsIdlePassOf self.now pass.new }
        ensures caller { SameCaller pass.old pass.new }
        ensures left { HasLeftBy T.technique pass.old pass.new }
        ensures frees { HasFreed pass.old pass.new result }
        ensures tight { WasUndisturbed pass.old pass.new →
            IsTightIn (site_of self.now) pass.new }
    {
        let (rt, gate) = rt.parts();
        T::compact(rt, &self.arena, pass, gate)
    }
}

//! Dictionaries of two callers: for tests.
#![tactic(auto)]

ghost use Rattle.std.specs.Prelude.{◌≤◌, IfOk};
ghost use Rattle.ks_dictionary.specs.Of.{IsIdlePassOf};

use ks_arena::{Arena, Pass};
use ks_dictionary::Dictionary;
use ks_node::Node;
use ks_shape::{Ruled, Template};
use std::alloc::{AllocError, Global};

/// Looks that no gate of these tests needs, if the other caller comes at all.
pub const LONG: u64 = 50_000_000;

/// A dictionary of two callers, and the passes of callers 0 and 1.
pub fn two_callers<N: Node, T: Ruled + Template<N, Arena<N, <T as Ruled>::Rule>>>(
    alloc: Global,
    nodes: u32,
) -> Result<(Dictionary<N, T>, Pass<N, T::Rule>, Pass<N, T::Rule>), AllocError>
    requires nodes { (4 ≤ nodes) × (nodes ≤ 1048576) }
    ensures one { IfOk result (λ x. IsIdlePassOf x.0 x.1) }
    ensures two { IfOk result (λ x. IsIdlePassOf x.0 x.2) }
{
    let (dictionary, mut passes) = Dictionary::<N, T>::start(alloc, nodes, 2)?;
    let Some(two) = passes.pop() else {
        return Err(AllocError);
    };
    let Some(one) = passes.pop() else {
        return Err(AllocError);
    };
    Ok((dictionary, one, two))
}

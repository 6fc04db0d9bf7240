//! Arenas of one caller.
ghost use Rattle.std.specs.Prelude.{◌≤◌, IfOk};
ghost use Rattle.ks_arena.specs.Sound.{blank_of, sort_of};
ghost use Rattle.ks_arena.specs.Of.{IsEmptyPassOf};

use ks_arena::{Arena, Pass};
use ks_flow::Discipline;
use ks_node::Node;
use std::alloc::{AllocError, Global};

/// An arena of one caller, and its pass.
pub fn one_caller<N: Node, D: Discipline>(
    alloc: Global,
    nodes: u32,
) -> Result<(Arena<N, D>, Pass<N, D>), AllocError>
    requires fits { D.begins (blank_of (sort_of N.layout N.ranged)) }
    requires nodes { (4 ≤ nodes) × (nodes ≤ 1048576) }
    ensures { IfOk result (λ x. IsEmptyPassOf x.0 x.1) }
{
    let (arena, mut passes) = Arena::<N, D>::start(alloc, nodes, 1)?;
    let Some(pass) = passes.pop() else {
        return Err(AllocError);
    };
    Ok((arena, pass))
}

//! A claim in an arena of several free words, with its steps counted.
ghost use Rattle.std.specs.Prelude.{◌≡◌, ◌+◌, ◌≤◌, None};
ghost use Rattle.ks_arena.specs.Of.{IsPassOf, HasClaimedFrom, RestStays, callers_of, nodes_of, SameCaller, caller_of, steps_of};

use ks_arena::{Arena, Held, Pass};
use ks_flow::Discipline;
use ks_node::Node;

/// Claims a node in an arena of 200 nodes and one caller. It takes at most 6 steps on words, and just 4, one for each
/// free word, if every node is taken.
pub fn claim_of_many<N: Node, D: Discipline>(
    arena: &Arena<N, D>,
    pass: &mut Pass<N, D>,
) -> Option<Held<N>>
    requires pass { IsPassOf arena.now pass.old }
    requires size { nodes_of arena.now ≡ 200 }
    requires alone { (callers_of arena.now ≡ 1) × (caller_of pass.old ≡ 0) }
    ensures pass { IsPassOf arena.now pass.new }
    ensures caller { SameCaller pass.old pass.new }
    ensures claimed { HasClaimedFrom arena.now pass.old pass.new result }
    ensures rest { RestStays arena.now pass.old pass.new }
    ensures cost { steps_of pass.new ≤ steps_of pass.old + 6 }
    ensures none { result ≡ None → steps_of pass.new ≡ steps_of pass.old + 4 }
{
    arena.claim(pass)
}

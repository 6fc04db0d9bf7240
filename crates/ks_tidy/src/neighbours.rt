//! What is known of the right neighbour of a held node. The functions compute nothing: their contracts are laws.
ghost use Rattle.std.specs.Prelude.{◌≡◌, None, Some, Any};
ghost use Rattle.ks_node.specs.Body.{chained_of, right_child};
ghost use Rattle.ks_node.specs.Edges.{edges_of};
ghost use Rattle.ks_arena.specs.Of.{Holds, IsPassOf, caller_of};
ghost use Rattle.ks_tidy.specs.Of.{IsPairOf};

use ks_arena::{Arena, Held, Pass};
use ks_bodies::{rights_law, tests_law};
use ks_flow::Tree;
use ks_flow::laws::tree_facts_law;
use ks_node::{Unlinked, node_law, unlinked_law};
use ks_shape::{Path, search_law};

/// The node to which the node of a path leads itself is not held.
pub(crate) fn chained_law<N: Unlinked>(
    arena: &Arena<N, Tree>,
    pass: &Pass<N, Tree>,
    place: u64,
    path: &Path<N>,
    target: u32,
)
    requires pass { IsPassOf arena.now pass.now }
    requires pair { IsPairOf arena.now (caller_of pass.now) place pass.now path.now }
    requires chained { chained_of (N.body path.now.node.body) ≡ Some target }
    ensures edge { Any (λ e. e.node ≡ target) (edges_of (N.body path.now.node.body)) }
    ensures fresh { ¬ Holds pass.now target }
{
    search_law();
    tree_facts_law();
    tests_law();
    unlinked_law::<N>();
    node_law(&path.node.body);
}

/// The node to which a held branch leads next to a held node below it is not held.
pub(crate) fn next_law<N: Unlinked>(
    arena: &Arena<N, Tree>,
    pass: &Pass<N, Tree>,
    place: u64,
    parent: &Held<N>,
    node: &Held<N>,
    target: u32,
)
    requires pass { IsPassOf arena.now pass.now }
    requires pair { IsPairOf arena.now (caller_of pass.now) place pass.now
        (record { parent = Some parent.now; node = node.now }) }
    requires unchained { chained_of (N.body node.now.body) ≡ None }
    requires beside { right_child (N.body parent.now.body) place ≡ Some target }
    ensures edge { Any (λ e. e.node ≡ target) (edges_of (N.body parent.now.body)) }
    ensures fresh { ¬ Holds pass.now target }
{
    search_law();
    tree_facts_law();
    tests_law();
    rights_law();
    unlinked_law::<N>();
    node_law(&parent.body);
    node_law(&node.body);
}

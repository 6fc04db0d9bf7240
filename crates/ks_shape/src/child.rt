//! What is known of the node to which a search goes on. The function computes nothing: its contract is a law.
ghost use Rattle.std.specs.Prelude.{◌≡◌};
ghost use Rattle.ks_node.specs.declared.start.Next.TheVariants.{Go};
ghost use Rattle.ks_node.specs.Body.{next_at};
ghost use Rattle.ks_arena.specs.Of.{IsPassOf, caller_of};
ghost use Rattle.ks_shape.specs.Of.{IsOnWayOf};
ghost use Rattle.ks_shape.specs.Descents.{LeadsOnFrom};

use ks_arena::laws::{beside_law, sound_law, target_law, tree_beside_law};
use ks_arena::{Arena, Held, Pass};
use ks_flow::Tree;
use ks_flow::laws::tree_facts_law;
use ks_node::{Unlinked, node_law};

/// The node to which a search goes on from the one node that it holds is another live node of the arena, not the root,
/// and has the place in its inset; it is not found free as long as only others act.
pub fn child_law<N: Unlinked>(
    arena: &Arena<N, Tree>,
    pass: &Pass<N, Tree>,
    place: u64,
    held: &Held<N>,
    child: u32,
)
    requires pass { IsPassOf arena.now pass.now }
    requires way { IsOnWayOf arena.now (caller_of pass.now) place pass.now held.now }
    requires goes { next_at (N.body held.now.body) place ≡ Go child }
    ensures { LeadsOnFrom arena.now pass.now held.now place child }
{
    sound_law::<Tree>();
    beside_law::<Tree>();
    tree_beside_law();
    target_law::<Tree>();
    tree_facts_law();
    node_law(&held.body);
}

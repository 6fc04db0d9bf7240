//! The end of a descent that took as many nodes as there are.
ghost use Rattle.std.specs.Prelude.{◌≡◌};
ghost use Rattle.ks_node.specs.declared.start.Next.TheVariants.{Go};
ghost use Rattle.ks_node.specs.Body.{next_at};
ghost use Rattle.ks_arena.specs.Of.{IsPassOf, IsEmptyPassOf, SameCaller, caller_of};
ghost use Rattle.ks_shape.specs.Of.{StaysUnderwayAny, IsOnWayOf};
ghost use Rattle.ks_shape.specs.Descents.{IsFarFrom};
ghost use Rattle.ks_shape.specs.Does.{OnlySearches};

use crate::child::child_law;
use crate::steps::give_last;
use ks_arena::{Arena, Held, Pass};
use ks_flow::Tree;
use ks_gate::Gate;
use ks_node::Unlinked;

/// Releases the one held node, from which the search would go on to a child. If at least as many nodes were taken as
/// there are, each a child of the one before, then another caller has made a Shape meanwhile.
pub fn turn_back<N: Unlinked, G: Gate>(
    arena: &Arena<N, Tree>,
    pass: &mut Pass<N, Tree>,
    gate: &G,
    place: u64,
    held: Held<N>,
    child: u32,
)
    requires pass { IsPassOf arena.now pass.old }
    requires way { IsOnWayOf arena.now (caller_of pass.old) place pass.old held }
    requires goes { next_at (N.body held.body) place ≡ Go child }
    ensures pass { IsEmptyPassOf arena.now pass.new }
    ensures caller { SameCaller pass.old pass.new }
    ensures leaves { OnlySearches pass.old pass.new }
    ensures far { IsFarFrom arena.now pass.old pass.new held }
    ensures under { StaysUnderwayAny pass.old pass.new }
{
    child_law(arena, pass, place, &held, child);
    give_last(arena, pass, gate, held);
}

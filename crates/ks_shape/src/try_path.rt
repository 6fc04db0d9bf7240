//! The steps of a non-blocking search that keeps the parent of its node.
ghost use Rattle.std.specs.Prelude.{◌≡◌};
ghost use Rattle.ks_node.specs.declared.start.Next.TheVariants.{Go};
ghost use Rattle.ks_node.specs.Body.{next_at};
ghost use Rattle.ks_arena.specs.Of.{IsPassOf, IsEmptyPassOf, SameCaller, caller_of};
ghost use Rattle.ks_shape.specs.Of.{IsStretch, IsOnWayOf, StaysUnderway, StaysUnderwayAny};
ghost use Rattle.ks_history.specs.Done.{coupling};
ghost use Rattle.ks_shape.specs.TryPaths.{HangsFrom, IsAtRoot, IsBusyDue, StandsOrNone, TookOrGave, TookOrLooked};
ghost use Rattle.ks_shape.specs.Does.{OnlySearches};

use crate::answers::Later;
use crate::child::child_law;
use crate::laws::search_law;
use crate::path::Path;
use crate::steps::give_last;
use ks_arena::laws::root_stays_law;
use ks_arena::{Arena, Held, Pass, Taken, root_law};
use ks_flow::Tree;
use ks_gate::{Gate, Point};
use ks_node::{Unlinked, node_law};

/// Takes the root, unless another caller holds it. It does not notify the gate that a call begins.
pub fn try_enter<N: Unlinked, G: Gate>(
    arena: &Arena<N, Tree>,
    pass: &mut Pass<N, Tree>,
    gate: &G,
    place: u64,
) -> Result<Path<N>, Later>
    requires pass { IsEmptyPassOf arena.now pass.old }
    ensures pass { IsPassOf arena.now pass.new }
    ensures caller { SameCaller pass.old pass.new }
    ensures leaves { OnlySearches pass.old pass.new }
    ensures path { StandsOrNone arena.now (caller_of pass.old) place pass.new result }
    ensures root { IsAtRoot result }
    ensures took { TookOrLooked 0 pass.old pass.new result }
    ensures busy { IsBusyDue arena.now place pass.old pass.new result }
    ensures under { StaysUnderwayAny pass.old pass.new }
    ensures stretch { IsStretch pass.old pass.new }
{
    root_stays_law::<Tree>();
    match arena.try_take(pass, 0) {
        Taken::Held(node) => {
            root_law::<N>(place);
            gate.at(pass.caller(), Point::Taken(0));
            Ok(Path { parent: None, node })
        }
        Taken::Busy { holder } => Err(Later::Busy { node: 0, holder }),
        Taken::Gone => unreachable!(),
    }
}

/// Takes the child to which the search goes on, and keeps the node as its parent; or releases the node, if another caller
/// holds the child.
pub fn try_step_down<N: Unlinked, G: Gate>(
    arena: &Arena<N, Tree>,
    pass: &mut Pass<N, Tree>,
    gate: &G,
    place: u64,
    held: Held<N>,
    child: u32,
) -> Result<Path<N>, Later>
    requires pass { IsPassOf arena.now pass.old }
    requires way { IsOnWayOf arena.now (caller_of pass.old) place pass.old held }
    requires goes { next_at (N.body held.body) place ≡ Go child }
    ensures pass { IsPassOf arena.now pass.new }
    ensures caller { SameCaller pass.old pass.new }
    ensures leaves { OnlySearches pass.old pass.new }
    ensures path { StandsOrNone arena.now (caller_of pass.old) place pass.new result }
    ensures parent { HangsFrom held result }
    ensures took { TookOrGave child held pass.old pass.new result }
    ensures busy { IsBusyDue arena.now place pass.old pass.new result }
    ensures under { StaysUnderway coupling pass.old pass.new }
    ensures stretch { IsStretch pass.old pass.new }
{
    search_law();
    node_law(&held.body);
    child_law(arena, pass, place, &held, child);
    match arena.try_take(pass, child) {
        Taken::Held(below) => {
            gate.at(pass.caller(), Point::Taken(child));
            Ok(Path {
                parent: Some(held),
                node: below,
            })
        }
        Taken::Busy { holder } => {
            give_last(arena, pass, gate, held);
            Err(Later::Busy {
                node: child,
                holder,
            })
        }
        Taken::Gone => unreachable!(),
    }
}

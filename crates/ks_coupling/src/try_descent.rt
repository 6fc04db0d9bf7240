//! The descent from the root to the node where a search ends, without waiting.
ghost use Rattle.std.specs.Prelude.{◌≡◌};
ghost use Rattle.ks_history.specs.Done.{coupling};
ghost use Rattle.ks_node.specs.declared.start.Next.TheVariants.{Go};
ghost use Rattle.ks_node.specs.Body.{next_at};
ghost use Rattle.ks_arena.specs.Of.{IsPassOf, IsEmptyPassOf, SameCaller, caller_of};
ghost use Rattle.ks_shape.specs.Of.{IsUnderway, StaysUnderway, IsOnWayOf};
ghost use Rattle.ks_shape.specs.Descents.{StandsAtRoot, GoesDownFrom, CameToEnd};
ghost use Rattle.ks_shape.specs.Does.{OnlySearches};

use ks_arena::laws::sound_law;
use ks_arena::{Arena, Held, Pass};
use ks_flow::Tree;
use ks_gate::{Gate, Point};
use ks_node::{Next, Unlinked};
use ks_shape::{Later, child_law, let_go, tree_end_law, try_enter, try_step_down, turn_back};

/// Begins a call, and tries to take the root.
fn try_begin<N: Unlinked, G: Gate>(
    arena: &Arena<N, Tree>,
    pass: &mut Pass<N, Tree>,
    gate: &G,
    place: u64,
) -> Result<Held<N>, Later>
    requires pass { IsEmptyPassOf arena.now pass.old }
    ensures pass { IsPassOf arena.now pass.new }
    ensures caller { SameCaller pass.old pass.new }
    ensures leaves { OnlySearches pass.old pass.new }
    ensures came { StandsAtRoot arena.now coupling place pass.old pass.new result }
    ensures under { IsUnderway coupling pass.old pass.new }
{
    gate.at(pass.caller(), Point::Begin);
    match try_enter(arena, pass, gate, place) {
        Ok(root) => Ok(let_go(arena, pass, gate, place, root)),
        Err(later) => Err(later),
    }
}

/// Tries to take the child to which the search goes on, and releases the node, whether the child was taken or not.
fn try_go_on<N: Unlinked, G: Gate>(
    arena: &Arena<N, Tree>,
    pass: &mut Pass<N, Tree>,
    gate: &G,
    place: u64,
    held: Held<N>,
    child: u32,
) -> Result<Held<N>, Later>
    requires pass { IsPassOf arena.now pass.old }
    requires way { IsOnWayOf arena.now (caller_of pass.old) place pass.old held }
    requires goes { next_at (N.body held.body) place ≡ Go child }
    ensures pass { IsPassOf arena.now pass.new }
    ensures caller { SameCaller pass.old pass.new }
    ensures leaves { OnlySearches pass.old pass.new }
    ensures came { GoesDownFrom arena.now coupling place pass.old pass.new held result }
    ensures under { StaysUnderway coupling pass.old pass.new }
{
    sound_law::<Tree>();
    child_law(arena, pass, place, &held, child);
    match try_step_down(arena, pass, gate, place, held, child) {
        Ok(path) => Ok(let_go(arena, pass, gate, place, path)),
        Err(later) => Err(later),
    }
}

/// Takes the node at which the search for a place ends, and holds no other; if put off it holds nothing.
pub(crate) fn try_find<N: Unlinked, G: Gate>(
    arena: &Arena<N, Tree>,
    pass: &mut Pass<N, Tree>,
    gate: &G,
    place: u64,
) -> Result<Held<N>, Later>
    requires pass { IsEmptyPassOf arena.now pass.old }
    ensures pass { IsPassOf arena.now pass.new }
    ensures caller { SameCaller pass.old pass.new }
    ensures leaves { OnlySearches pass.old pass.new }
    ensures came { CameToEnd arena.now coupling place pass.old pass.new result }
    ensures under { IsUnderway coupling pass.old pass.new }
{
    let mut held = match try_begin(arena, pass, gate, place) {
        Ok(root) => root,
        Err(later) => return Err(later),
    };
    for _steps in 0..arena.nodes() - 1 {
        match held.body.next(place) {
            Next::Here => {
                tree_end_law(arena, pass, &held, place);
                return Ok(held);
            }
            Next::Go(child) => match try_go_on(arena, pass, gate, place, held, child) {
                Ok(below) => held = below,
                Err(later) => return Err(later),
            },
        }
    }
    match held.body.next(place) {
        Next::Here => {
            tree_end_law(arena, pass, &held, place);
            Ok(held)
        }
        Next::Go(child) => {
            turn_back(arena, pass, gate, place, held, child);
            Err(Later::Far)
        }
    }
}

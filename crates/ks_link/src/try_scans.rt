//! Non-blocking ordered scans along links: one part of a scan is one call, which lists the pairs of one node.
ghost use Rattle.std.specs.Prelude.{◌≤◌, IfErr, IfOk};
ghost use Rattle.ks_history.specs.declared.Op.TheVariants.{Part as lists};
ghost use Rattle.ks_history.specs.Done.{link_move};
ghost use Rattle.ks_arena.specs.Clauses.{seen_of};
ghost use Rattle.ks_arena.specs.Of.{IsEmptyPassOf, SameCaller, caller_of, nodes_of};
ghost use Rattle.ks_shape.specs.Does.{OnlySearches};
ghost use Rattle.ks_shape.specs.Parts.{DonePartOf};
ghost use Rattle.ks_shape.specs.Tries.{IsPutOff};

use crate::descent::span_law;
use crate::try_descent::try_find;
use ks_arena::laws::sound_law;
use ks_arena::{Arena, Pass};
use ks_flow::Link;
use ks_gate::Gate;
use ks_node::{Linked, Listed};
use ks_shape::{Later, Part, part_here};

/// Lists pairs as `scan_part` does. It holds one node at a time, and does not wait.
///
/// # Errors
///
/// `Busy` names a node on the search path of `low` and the other caller that held it. The call is then no call of the
/// history.
pub fn try_scan_part<N: Linked + Listed, G: Gate>(
    arena: &Arena<N, Link>,
    pass: &mut Pass<N, Link>,
    gate: &G,
    low: u64,
    last: u64,
) -> Result<Part, Later>
    requires pass { IsEmptyPassOf arena.now pass.old }
    requires span { low ≤ last }
    ensures pass { IsEmptyPassOf arena.now pass.new }
    ensures caller { SameCaller pass.old pass.new }
    ensures leaves { OnlySearches pass.old pass.new }
    ensures done { IfOk result (λ part. DonePartOf arena.now link_move low last pass.old pass.new part) }
    ensures put_off { IfErr result (λ later. IsPutOff link_move (nodes_of arena.now) (caller_of pass.old)
        (lists low last) (seen_of pass.old) (seen_of pass.new) later) }
{
    sound_law::<Link>();
    match try_find(arena, pass, gate, low) {
        Ok(held) => {
            let end = last.min(held.body.range().last);
            span_law(arena, pass, &held, low);
            Ok(part_here(arena, pass, gate, low, end, held))
        }
        Err(later) => Err(later),
    }
}

//! Non-blocking ordered scans by giving up.
ghost use Rattle.std.specs.Prelude.{◌≤◌, IfErr, IfOk};
ghost use Rattle.ks_history.specs.declared.Op.TheVariants.{Part as lists};
ghost use Rattle.ks_history.specs.Done.{give_up};
ghost use Rattle.ks_arena.specs.Clauses.{seen_of};
ghost use Rattle.ks_arena.specs.Of.{IsEmptyPassOf, SameCaller, caller_of, nodes_of};
ghost use Rattle.ks_shape.specs.Does.{OnlySearches};
ghost use Rattle.ks_shape.specs.Parts.{DonePartOf};
ghost use Rattle.ks_shape.specs.Tries.{IsPutOff};
ghost use Rattle.ks_giveup.specs.Goes.{GoesTowards};

use crate::try_descent::try_find;
use ks_arena::laws::sound_law;
use ks_arena::{Arena, Pass};
use ks_flow::Tree;
use ks_gate::Gate;
use ks_node::{Listed, Unlinked, listed_law, node_law};
use ks_shape::{Later, Part, part_here};

/// Lists pairs as `scan_part` does. It searches for `low` as `try_get` does, holds one node at a time, and waits for none.
///
/// # Errors
///
/// As for `try_get`, of the search for `low`.
pub fn try_scan_part<N: Listed + Unlinked, G: Gate>(
    arena: &Arena<N, Tree>,
    pass: &mut Pass<N, Tree>,
    gate: &G,
    low: u64,
    last: u64,
) -> Result<Part, Later>
    requires pass { IsEmptyPassOf arena.now pass.old }
    requires span { low ≤ last }
    ensures pass { IsEmptyPassOf arena.now pass.new }
    ensures caller { SameCaller pass.old pass.new }
    ensures leaves { OnlySearches pass.old pass.new }
    ensures done { IfOk result (λ part. DonePartOf arena.now give_up low last pass.old pass.new part) }
    ensures put_off { IfErr result (λ later. IsPutOff give_up (nodes_of arena.now) (caller_of pass.old)
        (lists low last) (seen_of pass.old) (seen_of pass.new) later) }
    ensures goes { GoesTowards low pass.old pass.new }
{
    sound_law::<Tree>();
    listed_law::<N>();
    match try_find(arena, pass, gate, low) {
        Ok(held) => {
            node_law(&held.body);
            let range = held.body.range();
            let end = last.min(range.last);
            Ok(part_here(arena, pass, gate, low, end, held))
        }
        Err(later) => Err(later),
    }
}

//! What callers of one dictionary share: one history.
ghost use Rattle.std.specs.Prelude.{◌≡◌};
ghost use Rattle.ks_arena.specs.Clauses.{seen_of};
ghost use Rattle.ks_history.specs.Trace.{◌⊑◌};
ghost use Rattle.ks_c.specs.Made.{AreKin, IsReadyOver};

use crate::tries::CallerOf;
use ks_flow::Discipline;
use ks_node::Node;

/// Has the second caller see what the first one has seen: all that this has seen is a beginning of what that one then has.
/// No call of C does so; it shows that the callers of one dictionary see one history.
pub fn meet<N: Node, D: Discipline>(first: &mut CallerOf<N, D>, second: &mut CallerOf<N, D>)
    requires kin { AreKin first.old second.old }
    requires first { IsReadyOver first.old }
    requires second { IsReadyOver second.old }
    ensures first { IsReadyOver first.new }
    ensures second { IsReadyOver second.new }
    ensures met { seen_of first.old.pass ⊑ seen_of second.new.pass }
{
    let note = first.arena.note(&mut first.pass);
    second.arena.learn(&mut second.pass, note);
}

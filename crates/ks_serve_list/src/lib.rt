//! Serving callers over sorted lists, by each technique that serves them.
//!
//! There is a function for each technique, since one that made its calls by several would be proved for each in turn.
#![tactic(auto)]

mod reach;

ghost use Rattle.std.specs.Prelude.{◌≤◌, length, IfOk, true, false};
ghost use Rattle.ks_keysets.specs.Layout.{list_layout};
ghost use Rattle.ks_lines.specs.Asked.{AreServedLines};
ghost use Rattle.ks_serving.specs.Served.{IsServedBy};

use crate::reach::Moves;
use ks_aid::Admits;
use ks_coupling::Coupling;
use ks_gate::Gate;
use ks_giveup::GiveUp;
use ks_lines::Setting;
use ks_list::ListNode;
use ks_node::WithRange;
use ks_script::Script;
use ks_serving::{AtOneKey, Told, serve_callers};
use std::alloc::{AllocError, Global};
use std::sync::Wait;
use std::thread::Threads;

/// Serves all callers over a sorted list, by lock coupling.
///
/// # Errors
///
/// Only lack of memory.
pub fn by_coupling<R: Threads + Wait + Sync, G: Gate + Admits + Sync>(
    rt: &R,
    alloc: Global,
    gate: &G,
    setting: Setting,
    script: Script,
) -> Result<Told, AllocError>
    requires callers { length script ≤ 1024 }
    requires served { AreServedLines false false script }
    ensures { IfOk result (IsServedBy list_layout (λ k. k) setting.nodes script) }
{
    serve_callers::<ListNode, Coupling, AtOneKey, R, G>(rt, alloc, gate, &AtOneKey, setting, script)
}

/// Serves all callers over a sorted list, by giving up.
///
/// # Errors
///
/// Only lack of memory.
pub fn by_giving_up<R: Threads + Wait + Sync, G: Gate + Admits + Sync>(
    rt: &R,
    alloc: Global,
    gate: &G,
    setting: Setting,
    script: Script,
) -> Result<Told, AllocError>
    requires callers { length script ≤ 1024 }
    requires served { AreServedLines false true script }
    ensures { IfOk result (IsServedBy list_layout (λ k. k) setting.nodes script) }
{
    serve_callers::<WithRange<ListNode>, GiveUp, Moves, R, G>(
        rt, alloc, gate, &Moves, setting, script,
    )
}

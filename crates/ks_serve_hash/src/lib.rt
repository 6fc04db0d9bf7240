//! Serving callers over hash tables, by each technique that serves them.
//!
//! There is a function for each technique, since one that made its calls by several would be proved for each in turn.
#![tactic(auto)]

mod reach;

ghost use Rattle.std.specs.Prelude.{◌≤◌, length, IfOk, true, false};
ghost use Rattle.ks_keysets.specs.Layout.{hash_layout};
ghost use Rattle.ks_places.specs.Golden.{golden_place};
ghost use Rattle.ks_lines.specs.Asked.{AreServedLines};
ghost use Rattle.ks_serving.specs.Served.{IsServedBy};

use crate::reach::Moves;
use ks_aid::Admits;
use ks_boxed::Boxed;
use ks_coupling::Coupling;
use ks_gate::Gate;
use ks_giveup::GiveUp;
use ks_hash::HNode;
use ks_lines::Setting;
use ks_link::LinkMove;
use ks_linked::WithLink;
use ks_node::WithRange;
use ks_script::Script;
use ks_serving::{AtOneKey, Told, serve_callers};
use std::alloc::{AllocError, Global};
use std::sync::Wait;
use std::thread::Threads;

/// Serves all callers over a hash table, by lock coupling.
///
/// # Errors
///
/// Only lack of memory.
pub fn by_coupling<R: Threads + Wait + Sync, G: Gate + Admits + Sync>(
    rt: &R,
    alloc: Global,
    gate: &G,
    setting: Setting,
    script: Script,
) -> Result<Told, AllocError>
    requires callers { length script ≤ 1024 }
    requires served { AreServedLines false false script }
    ensures { IfOk result (IsServedBy hash_layout golden_place setting.nodes script) }
{
    serve_callers::<Boxed<HNode>, Coupling, AtOneKey, R, G>(
        rt, alloc, gate, &AtOneKey, setting, script,
    )
}

/// Serves all callers over a hash table, by giving up.
///
/// # Errors
///
/// Only lack of memory.
pub fn by_giving_up<R: Threads + Wait + Sync, G: Gate + Admits + Sync>(
    rt: &R,
    alloc: Global,
    gate: &G,
    setting: Setting,
    script: Script,
) -> Result<Told, AllocError>
    requires callers { length script ≤ 1024 }
    requires served { AreServedLines false true script }
    ensures { IfOk result (IsServedBy hash_layout golden_place setting.nodes script) }
{
    serve_callers::<WithRange<HNode>, GiveUp, Moves, R, G>(rt, alloc, gate, &Moves, setting, script)
}

/// Serves all callers over a hash table, along links.
///
/// # Errors
///
/// Only lack of memory.
pub fn along_links<R: Threads + Wait + Sync, G: Gate + Admits + Sync>(
    rt: &R,
    alloc: Global,
    gate: &G,
    setting: Setting,
    script: Script,
) -> Result<Told, AllocError>
    requires callers { length script ≤ 1024 }
    requires served { AreServedLines false false script }
    ensures { IfOk result (IsServedBy hash_layout golden_place setting.nodes script) }
{
    serve_callers::<WithLink<HNode>, LinkMove, AtOneKey, R, G>(
        rt, alloc, gate, &AtOneKey, setting, script,
    )
}

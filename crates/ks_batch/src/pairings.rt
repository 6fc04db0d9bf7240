//! The function that serves callers by each pairing.

ghost use Rattle.std.specs.Prelude.{◌≤◌, length, IfOk};
ghost use Rattle.ks_lines.specs.Asked.{AreServedLines};
ghost use Rattle.ks_serving.specs.Served.{IsServedBy};
ghost use Rattle.ks_words.specs.Pairings.{structure_row, technique_row, does_scan};

use ks_aid::Admits;
use ks_gate::Gate;
use ks_lines::Setting;
use ks_script::Script;
use ks_serving::Told;
use ks_words::Pairing;
use ks_words::Structure::{Bplus, Bst, Hash, List};
use ks_words::Technique::{Coupling, GiveUp, LinkMove};
use std::alloc::{AllocError, Global};
use std::sync::Wait;
use std::thread::Threads;

/// Serves all callers of the script over an empty dictionary of the pairing.
///
/// # Errors
///
/// Only lack of memory.
pub fn serve_by<R: Threads + Wait + Sync, G: Gate + Admits + Sync>(
    rt: &R,
    alloc: Global,
    gate: &G,
    pairing: Pairing,
    setting: Setting,
    script: Script,
) -> Result<Told, AllocError>
    requires callers { length script ≤ 1024 }
    requires served { AreServedLines (does_scan pairing.structure pairing.technique) (technique_row pairing.technique).moves script }
    ensures { IfOk result
        (IsServedBy (structure_row pairing.structure).layout (structure_row pairing.structure).place setting.nodes script) }
{
    match (pairing.structure, pairing.technique) {
        (List, Coupling) => ks_serve_list::by_coupling(rt, alloc, gate, setting, script),
        (List, GiveUp) => ks_serve_list::by_giving_up(rt, alloc, gate, setting, script),
        (Bplus, Coupling) => ks_serve_bplus::by_coupling(rt, alloc, gate, setting, script),
        (Bplus, GiveUp) => ks_serve_bplus::by_giving_up(rt, alloc, gate, setting, script),
        (Bplus, LinkMove) => ks_serve_bplus::along_links(rt, alloc, gate, setting, script),
        (Hash, Coupling) => ks_serve_hash::by_coupling(rt, alloc, gate, setting, script),
        (Hash, GiveUp) => ks_serve_hash::by_giving_up(rt, alloc, gate, setting, script),
        (Hash, LinkMove) => ks_serve_hash::along_links(rt, alloc, gate, setting, script),
        (Bst, Coupling) => ks_serve_bst::by_coupling(rt, alloc, gate, setting, script),
        (Bst, GiveUp) => ks_serve_bst::by_giving_up(rt, alloc, gate, setting, script),
        (List | Bst, LinkMove) => unreachable!(),
    }
}

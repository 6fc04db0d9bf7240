//! What is to be served.

ghost use Rattle.std.specs.Prelude.{ℕ, ◌≡◌, ◌≤◌, length, Some, [], IfOk, OnOk, IfErr, IfSome};
ghost use Rattle.ks_lines.specs.Asked.{AreServedLines};
ghost use Rattle.ks_script.specs.Outside.{Rose};
ghost use Rattle.ks_generator.specs.Made.{made};
ghost use Rattle.ks_words.specs.Pairings.{technique_row, does_scan};
ghost use Rattle.ks_ends.specs.Printing.{IsSummaryOf};
ghost use Rattle.ks_ends.specs.Serve.{Accepts, UnfitAt};
ghost use Rattle.ks_ends.specs.Stop.{IsHaltCause, IsOneHalt, HaltsAtEnd};

use crate::input::{Stop, load};
use crate::printing::Printing;
use ks_generator::{Size, made_script};
use ks_lines::Setting;
use ks_script::{Script, Source};
use ks_words::{Draft, Pairing};
use std::alloc::{AllocError, Global};

/// A script that is to be served, how, and what is printed of its run.
#[derive(Drop)]
pub struct Request {
    pub pairing: Pairing,
    pub setting: Setting,
    pub script: Script,
    pub printing: Printing,
}

impl Request {
    /// Asks for the summary of the run of a script that is made.
    ///
    /// # Errors
    ///
    /// Only lack of memory.
    pub fn made(
        alloc: Global,
        pairing: Pairing,
        setting: Setting,
        draft: Draft,
    ) -> Result<Request, AllocError>
        requires { draft.callers ≤ 64 }
        ensures pairing { IfOk result (λ request. request.pairing ≡ pairing) }
        ensures setting { IfOk result (λ request. request.setting ≡ setting) }
        ensures script { IfOk result (λ request. request.script ≡ made draft.callers draft.calls draft.first) }
        ensures printing { IfOk result (λ request. IsSummaryOf request.printing request.script) }
        ensures callers { IfOk result (λ request. length request.script ≤ 1024) }
        ensures served { IfOk result (λ request.
            AreServedLines (does_scan pairing.structure pairing.technique) (technique_row pairing.technique).moves request.script) }
    {
        let script = made_script(alloc, draft.callers, draft.calls, draft.first)?;
        let size = Size::of(&script);
        Ok(Request {
            pairing,
            setting,
            script,
            printing: Printing::Summary(size),
        })
    }
}

/// Why a script is not served.
#[derive(Clone, Copy, Debug)]
pub enum Halt {
    /// It was not read, for this cause.
    Unread(Stop),
    /// The pairing does not serve this line.
    Unfit { line: u64 },
}

/// Reads a script, and refuses one that the pairing does not serve.
///
/// # Errors
///
/// `Unread` as for `load`; `Unfit` with the first line that the pairing does not serve.
pub(crate) fn load_served<S: Source>(
    alloc: Global,
    pairing: Pairing,
    source: &mut S,
) -> Result<Script, Halt>
    ensures ok { IfOk result (λ script. IfSome (S.left source.old) (λ bytes. Accepts bytes script)) }
    ensures callers { IfOk result (λ script. length script ≤ 1024) }
    ensures served { IfOk result
        (AreServedLines (does_scan pairing.structure pairing.technique) (technique_row pairing.technique).moves) }
    ensures fit { OnOk result (IfSome (S.left source.old) (λ bytes. (n : ℕ) → ¬ UnfitAt pairing bytes n)) }
    ensures once { IfErr result (λ halt. IsOneHalt pairing halt (S.left source.old)) }
    ensures end { OnOk result (IfSome (S.left source.old) (λ _. S.left source.new ≡ Some [])) }
    ensures line { IfErr result (λ halt. HaltsAtEnd halt (S.left source.old) (S.left source.new)) }
    ensures cause { IfErr result
        (λ halt. IsHaltCause pairing halt (S.left source.old) (Rose (S.faults source.old) (S.faults source.new))) }
{
    let script = match load(alloc, source) {
        Ok(script) => script,
        Err(stop) => return Err(Halt::Unread(stop)),
    };
    match script.unfit_line(pairing.scans(), pairing.technique.moves()) {
        Some(line) => Err(Halt::Unfit { line }),
        None => Ok(script),
    }
}

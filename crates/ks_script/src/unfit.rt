//! The first line of a script that a pairing does not serve: not all of them scan, or move a value.

ghost use Rattle.std.specs.Prelude.{ℕ, ◌≡◌, ◌+◌, ◌≤◌, ◌↔◌, List, length, Some, IfNone, IfSome, IfOk, IfErr, IsTrue, All};
ghost use Rattle.ks_script.specs.Words.{IsServedLine, AreServedLines, Version, IsScript, ScriptOf, IsUnfitAt, FirstUnserved};

use crate::{Calls, Script};
use ks_history::Op;
use ks_lines::Line;

// Whether a pairing that scans, or moves, if they say so, serves the line.
#[inline(always)]
fn is_served(line: Line, scans: bool, moves: bool) -> bool
    ensures { IsTrue result ↔ IsServedLine scans moves line }
{
    match line {
        Line::Scan(..) => scans,
        Line::Call(Op::Move(..)) => moves,
        Line::Call(_) => true,
    }
}

// The number of the first line that it does not serve, or else that of the line behind; `caller` is that of `caller`.
fn unserved_in(calls: &Calls, scans: bool, moves: bool, caller: u64) -> Result<u64, u64>
    requires { caller + length calls.now ≤ 1049601 }
    ensures served { IfOk result
        (λ next. (next ≡ caller + (1 + length calls.now)) × All (IsServedLine scans moves) calls.now) }
    ensures unserved { IfErr result (FirstUnserved scans moves calls.now caller) }
{
    for at in 0..calls.len() {
        if !is_served(calls.get(at), scans, moves) {
            return Err(caller + 1 + at as u64);
        }
    }
    Ok(caller + 1 + calls.len() as u64)
}

impl Script {
    /// The number of the first line, in the text of the script, that a pairing does not serve, where `scans` and `moves`
    /// say whether it scans and whether it moves values.
    pub fn unfit_line(&self, scans: bool, moves: bool) -> Option<u64>
        requires { (version : Version) × IsScript version self.now }
        ensures unfit { IfSome result
            (λ n. (bytes : List ℕ) → ScriptOf bytes self.now → IsUnfitAt scans moves bytes n) }
        ensures due { (bytes : List ℕ) (n : ℕ) → ScriptOf bytes self.now → IsUnfitAt scans moves bytes n →
            result ≡ Some n }
        ensures fit { IfNone result (AreServedLines scans moves self.now) }
        ensures unserved { IfSome result (λ n. AreServedLines scans moves self.now → ⊥) }
    {
        // One line says the version, if there is any such line.
        let mut caller = 2;
        for calls in &self.callers {
            match unserved_in(calls, scans, moves, caller) {
                Ok(next) => caller = next,
                Err(line) => return Some(line),
            }
        }
        None
    }
}

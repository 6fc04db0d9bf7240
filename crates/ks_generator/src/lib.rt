//! Scripts that are made, from a first state: callers share no key, so that their replies do not depend on each other.
//!
//! Numbers are drawn one after another by a linear congruence. Each call draws its kind, then its key, and a put draws
//! its value.
#![tactic(auto)]

mod summing;

ghost use Rattle.std.specs.Prelude.{◌≡◌, IfOk, OnOk};
ghost use Rattle.ks_generator.specs.Made.{draw, drawn, call_made, after_call, calls_made, after_calls, made};

use ks_history::Op;
use ks_lines::Line;
use ks_script::{Calls, Script};
use std::alloc::{AllocError, Global};
pub use summing::{Kind, Size, summary};

/// Draws a number: the state goes on, and its upper bits are the number.
fn drawn(state: &mut u64) -> u64
    ensures state { state.new ≡ draw state.old }
    ensures number { result ≡ drawn (draw state.old) }
{
    let next = u128::from(*state) * 6364136223846793005 + 1442695040888963407;
    *state = (next % 18446744073709551616) as u64;
    *state / 8589934592
}

/// Makes a call of a caller.
fn call(state: &mut u64, callers: u32, caller: u32) -> Op
    ensures call { result ≡ call_made callers caller state.old }
    ensures state { state.new ≡ after_call state.old }
{
    let kind = drawn(state) % 4;
    let key = u64::from(caller) + u64::from(callers) * (drawn(state) % 256);
    if kind < 2 {
        let value = drawn(state);
        return Op::Put(key, u128::from(value));
    }
    if kind == 2 {
        return Op::Get(key);
    }
    Op::Del(key)
}

/// Makes the lines of a caller, each of which is a call.
fn calls(
    alloc: Global,
    state: &mut u64,
    callers: u32,
    caller: u32,
    count: u32,
) -> Result<Calls, AllocError>
    ensures calls { IfOk result (λ lines. lines ≡ calls_made callers caller count state.old) }
    ensures state { OnOk result (state.new ≡ after_calls count state.old) }
{
    let mut lines = Calls::with_capacity(alloc, count as usize)?;
    for done in 0..count {
        lines.push(Line::Call(call(state, callers, caller)))?;
    }
    Ok(lines)
}

/// The script of `callers` callers with `calls` calls each, made one after another; `first` is the state before the
/// first draw. It fails only if memory runs out.
pub fn made_script(
    alloc: Global,
    callers: u32,
    calls: u32,
    first: u64,
) -> Result<Script, AllocError>
    ensures { IfOk result (λ script. script ≡ made callers calls first) }
{
    let mut state = first;
    let mut scripts = Vec::with_capacity(alloc, callers as usize)?;
    for caller in 0..callers {
        scripts.push(self::calls(alloc, &mut state, callers, caller, calls)?)?;
    }
    Ok(Script { callers: scripts })
}

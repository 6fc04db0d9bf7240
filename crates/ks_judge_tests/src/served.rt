//! A run that says what a trace served: by the law it is judged legal.
ghost use Rattle.std.specs.Prelude.{◌≡◌, [], ◌∷◌, IfOk};
ghost use Rattle.ks_history.specs.declared.Op.TheVariants.{Put, Get};
ghost use Rattle.ks_history.specs.declared.Reply.TheVariants.{Nothing, Value};
ghost use Rattle.ks_lines.specs.declared.Line.TheVariants as line;
ghost use Rattle.ks_lines.specs.declared.Said.TheVariants as said;
ghost use Rattle.ks_judge.specs.declared.judging.Judged.TheVariants as verdict;

use ks_history::{Op, Reply};
use ks_judge::{Judged, judge, served_is_legal};
use ks_lines::{Line, Said};
use ks_places::Golden;
use ks_script::{Calls, Printed, Replies, Script};
use std::alloc::{AllocError, Global};
use std::test::Fail;

/// A script of one caller, which puts a value and gets it.
fn asked(alloc: Global) -> Result<Script, AllocError>
    ensures { IfOk result (λ script. script ≡ (line.Call (Put 5 50) ∷ line.Call (Get 5) ∷ []) ∷ []) }
{
    let mut calls = Calls::new(alloc);
    calls.push(Line::Call(Op::Put(5, 50)))?;
    calls.push(Line::Call(Op::Get(5)))?;
    let mut callers = Vec::with_capacity(alloc, 1)?;
    callers.push(calls)?;
    Ok(Script { callers })
}

/// What is said of it, and the map at the end.
fn told(alloc: Global) -> Result<Printed, AllocError>
    ensures callers { IfOk result (λ printed.
        printed.callers ≡ (said.Call 0 Nothing ∷ said.Call 1 (Value 50) ∷ []) ∷ []) }
    ensures pairs { IfOk result (λ printed. printed.pairs ≡ (5, 50) ∷ []) }
{
    let mut replies = Replies::new(alloc);
    replies.push(Said::Call(0, Reply::Nothing))?;
    replies.push(Said::Call(1, Reply::Value(50)))?;
    let mut callers = Vec::with_capacity(alloc, 1)?;
    callers.push(replies)?;
    let mut pairs = Vec::with_capacity(alloc, 1)?;
    pairs.push((5, 50))?;
    Ok(Printed { callers, pairs })
}

/// Judges the run. A trace of the two calls served it, so that it is legal follows from the law, not from how it is judged.
fn judged_by_law(alloc: Global, script: &Script, printed: &Printed) -> Result<Judged, AllocError>
    requires script { script.now ≡ (line.Call (Put 5 50) ∷ line.Call (Get 5) ∷ []) ∷ [] }
    requires callers { printed.now.callers ≡ (said.Call 0 Nothing ∷ said.Call 1 (Value 50) ∷ []) ∷ [] }
    requires pairs { printed.now.pairs ≡ (5, 50) ∷ [] }
    ensures { IfOk result (λ judged. judged ≡ verdict.Legal 2) }
{
    served_is_legal::<Golden>();
    judge(alloc, script, printed)
}

#[test]
fn what_a_trace_served_is_judged_legal(rt: HostRuntime) -> Result<(), Fail> {
    let script = asked(rt.alloc())?;
    let printed = told(rt.alloc())?;
    let judged = judged_by_law(rt.alloc(), &script, &printed)?;
    assert!(rt; judged == Judged::Legal { calls: 2 });
    Ok(())
}

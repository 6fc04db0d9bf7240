ghost use Rattle.std.specs.Prelude.{◌≡◌, ◌≤◌, ◌<◌, length, All, IfOk, OnOk, false};
ghost use Rattle.ks_lines.specs.declared.Line.TheVariants.{Call};
ghost use Rattle.ks_lines.specs.Lines.{IsServedLine};
ghost use Rattle.ks_lines.specs.Asked.{AreServedLines, IsLine};

use ks_coupling::Coupling;
use ks_crews::LONG;
use ks_gate::{Meet, NoGate, Point};
use ks_history::{Op, Reply};
use ks_lines::{Aiding, Line, Setting};
use ks_list::ListNode;
use ks_script::{Calls, Replies, Script};
use ks_serving::{AtOneKey, serve_callers};
use std::alloc::{AllocError, Global};
use std::test::Fail;

/// Puts a call at one key behind the other lines of a caller.
fn ask(lines: &mut Calls, op: Op) -> Result<(), AllocError>
    requires before { All (λ line. IsLine line × IsServedLine false false line) lines.old }
    requires line { IsLine (Call op) × IsServedLine false false (Call op) }
    ensures { OnOk result (All (λ line. IsLine line × IsServedLine false false line) lines.new) }
{
    lines.push(Line::Call(op))?;
    Ok(())
}

/// The calls of one caller, at two keys of its own.
fn script(alloc: Global, key: u64) -> Result<Calls, AllocError>
    ensures { IfOk result (λ lines. All (λ line. IsLine line × IsServedLine false false line) lines) }
{
    let mut lines = Calls::new(alloc);
    ask(&mut lines, Op::Put(key, 10))?;
    ask(&mut lines, Op::Add(key, 15))?;
    ask(&mut lines, Op::Add(key ^ 64, 20))?;
    ask(&mut lines, Op::Get(key))?;
    ask(&mut lines, Op::Swap(key, 15, 25))?;
    ask(&mut lines, Op::Swap(key, 10, 30))?;
    ask(&mut lines, Op::Put(key, 40))?;
    ask(&mut lines, Op::Del(key ^ 64))?;
    Ok(lines)
}

/// The scripts of four callers.
fn four(alloc: Global) -> Result<Script, AllocError>
    ensures few { IfOk result (λ script. length script ≤ 4) }
    ensures served { IfOk result (λ script. AreServedLines false false script) }
{
    let callers = vec![in alloc;
        script(alloc, 0)?,
        script(alloc, 1)?,
        script(alloc, 2)?,
        script(alloc, 3)?,
    ]?;
    Ok(Script { callers })
}

/// The number and the reply that are said of a line, or `None` if it is a scan.
fn reply(said: &Replies, at: usize) -> Option<(u64, Option<u128>)>
    requires { at < length said.now }
{
    match said.scan_at(at) {
        Some(_) => None,
        None => match said.call_at(at) {
            (number, Reply::Value(value)) => Some((number, Some(value))),
            (number, _) => Some((number, None)),
        },
    }
}

/// Whether what is said of a caller's lines has these values, and numbers that ascend, none of which was seen before.
fn ascend(seen: &mut [bool; 32], lines: &Replies, values: &[Option<u128>]) -> bool {
    let mut least = 0;
    for at in 0..lines.len() {
        let Some((number, value)) = reply(lines, at) else {
            return false;
        };
        if number < least || number >= 32 || values.get(at) != Some(&value) {
            return false;
        }
        let at = number as usize;
        if seen[at] {
            return false;
        }
        seen[at] = true;
        least = number + 1;
    }
    lines.len() == values.len()
}

/// Four nodes, and this number of workers.
fn setting(workers: u32) -> Setting
    requires { (1 ≤ workers) × (workers ≤ 64) }
    ensures { result.nodes ≡ 4 }
{
    Setting {
        nodes: 4,
        workers,
        aiding: Aiding::Guides,
    }
}

#[test]
fn four_callers_are_served_at_once(rt: HostRuntime) -> Result<(), Fail> {
    let alloc = rt.alloc();
    let scripts = four(alloc)?;
    let told = serve_callers::<ListNode, Coupling, AtOneKey, HostRuntime, NoGate>(
        &rt,
        alloc,
        &NoGate,
        &AtOneKey,
        setting(64),
        scripts,
    )?;
    assert!(rt; told.printed.callers.len() == 4);
    let values = [
        None,
        Some(10),
        None,
        Some(10),
        Some(10),
        Some(10),
        Some(30),
        Some(20),
    ];
    let mut seen = [false; 32];
    for lines in told.printed.callers.iter() {
        assert!(rt; ascend(&mut seen, lines, &values));
    }
    assert!(rt; seen == [true; 32]);
    assert!(rt; told.printed.pairs.len() == 4);
    for (key, entry) in told.printed.pairs.iter().enumerate() {
        assert!(rt; entry.0 == key as u64 && entry.1 == 40);
    }
    Ok(())
}

#[test]
fn nobody_is_served(rt: HostRuntime) -> Result<(), Fail> {
    let alloc = rt.alloc();
    let script = Script {
        callers: Vec::new(alloc),
    };
    let told = serve_callers::<ListNode, Coupling, AtOneKey, HostRuntime, NoGate>(
        &rt,
        alloc,
        &NoGate,
        &AtOneKey,
        setting(1),
        script,
    )?;
    assert!(rt; told.printed.callers.is_empty() && told.printed.pairs.is_empty());
    Ok(())
}

/// A get of each of two callers.
fn two(alloc: Global) -> Result<Script, AllocError>
    ensures few { IfOk result (λ script. length script ≤ 4) }
    ensures served { IfOk result (λ script. AreServedLines false false script) }
{
    let callers = vec![in alloc; one_get(alloc, 0)?, one_get(alloc, 1)?]?;
    Ok(Script { callers })
}

fn one_get(alloc: Global, key: u64) -> Result<Calls, AllocError>
    ensures { IfOk result (λ lines. All (λ line. IsLine line × IsServedLine false false line) lines) }
{
    let mut lines = Calls::new(alloc);
    ask(&mut lines, Op::Get(key))?;
    Ok(lines)
}

/// Caller 0 is stopped, once its get is decided and the root released, until caller 1 has decided its own: so neither waits for
/// the other's end.
#[test]
fn callers_run_beside_each_other(rt: HostRuntime) -> Result<(), Fail> {
    let alloc = rt.alloc();
    let gate = Meet::of(0, 0, Point::Given(0), 1, LONG);
    let scripts = two(alloc)?;
    let told = serve_callers::<ListNode, Coupling, AtOneKey, HostRuntime, Meet>(
        &rt,
        alloc,
        &gate,
        &AtOneKey,
        setting(2),
        scripts,
    )?;
    assert!(rt; !gate.failed());
    assert!(rt; told.printed.callers.len() == 2);
    assert!(rt; told.printed.callers[0].len() == 1 && told.printed.callers[1].len() == 1);
    assert!(rt; reply(&told.printed.callers[0], 0) == Some((0, None)));
    assert!(rt; reply(&told.printed.callers[1], 0) == Some((1, None)));
    Ok(())
}

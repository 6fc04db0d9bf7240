//! Callers that are served with hints, with guides and without: what their calls return, and how seldom they take the root.
ghost use Rattle.std.specs.Prelude.{◌≤◌, ◌<◌, length, All, IfOk, false};
ghost use Rattle.ks_lines.specs.Lines.{IsServedLine};
ghost use Rattle.ks_lines.specs.Asked.{AreServedLines, IsLine};

use ks_aid::Admits;
use ks_bplus::BNode;
use ks_gate::{Gate, Point};
use ks_giveup::GiveUp;
use ks_history::{Op, Reply};
use ks_lines::{Aiding, Line, Setting};
use ks_link::LinkMove;
use ks_linked::WithLink;
use ks_node::WithRange;
use ks_script::{Calls, Replies, Script};
use ks_serving::{AtOneKey, serve_callers};
use std::alloc::{AllocError, Global};
use std::sync::Wait;
use std::sync::atomic::AtomicU64;
use std::sync::atomic::Ordering::SeqCst;
use std::test::Fail;
use std::thread::{Threads, yield_now};

/// How often a caller looks before it has waited in vain: more often than these tests need.
const LONG: u64 = 20_000_000;

/// Counts how often the root is taken by the first caller and by others. It stops the others until the first has put all its
/// keys. It says whether calls may begin elsewhere than at the root.
#[derive(Drop)]
struct Roots {
    by_first: AtomicU64,
    by_others: AtomicU64,
    /// How many calls of the first caller were decided.
    decided: AtomicU64,
    /// 1 once a caller has waited in vain.
    failures: AtomicU64,
    admits: bool,
}

impl Roots {
    /// How often the first caller took it, and how often others did; nothing if one of them has waited in vain.
    fn taken(&self) -> Option<(u64, u64)> {
        if self.failures.load(SeqCst) > 0 {
            return None;
        }
        Some((self.by_first.load(SeqCst), self.by_others.load(SeqCst)))
    }

    fn first_at(&self, point: Point) {
        match point {
            Point::Taken(0) => {
                self.by_first.fetch_add(1, SeqCst);
            }
            Point::Decided(_) => {
                self.decided.fetch_add(1, SeqCst);
            }
            _ => {}
        }
    }

    /// Waits until the first caller has put all its keys.
    fn wait(&self) {
        for _ in 0..LONG {
            if self.decided.load(SeqCst) >= KEYS {
                return;
            }
            yield_now();
        }
        self.failures.store(1, SeqCst);
    }

    fn other_at(&self, point: Point) {
        match point {
            Point::Begin => self.wait(),
            Point::Taken(0) => {
                self.by_others.fetch_add(1, SeqCst);
            }
            _ => {}
        }
    }
}

impl Gate for Roots {
    fn at(&self, caller: u32, point: Point) {
        if caller == 0 {
            self.first_at(point);
        } else {
            self.other_at(point);
        }
    }
}

impl Admits for Roots {
    fn admits_aid(&self) -> bool {
        self.admits
    }
}

/// A gate that has counted nothing.
fn none_taken(admits: bool) -> Roots {
    Roots {
        by_first: AtomicU64::new(0),
        by_others: AtomicU64::new(0),
        decided: AtomicU64::new(0),
        failures: AtomicU64::new(0),
        admits,
    }
}

/// The draw after this one.
fn next(draw: u64) -> u64 {
    draw.wrapping_mul(6364136223846793005)
        .wrapping_add(1442695040888963407)
}

/// How many keys a caller has.
const KEYS: u64 = 64;

/// How often it gets one of them.
const GETS: u64 = 1000;

/// Puts the keys `first`, `first + 4` and so on, and then gets drawn ones of them.
fn script(alloc: Global, first: u64) -> Result<Calls, AllocError>
    ensures { IfOk result (λ lines. All (λ line. IsLine line × IsServedLine false false line) lines) }
{
    let mut lines = Calls::with_capacity(alloc, 1064)?;
    for key in 0..KEYS {
        let key = key * 4 ^ first;
        lines.push(Line::Call(Op::Put(key, key as u128)))?;
    }
    let mut draw = 7;
    for _ in 0..GETS {
        draw = next(draw);
        lines.push(Line::Call(Op::Get((draw >> 40) % KEYS * 4 ^ first)))?;
    }
    Ok(lines)
}

/// The scripts of some callers.
fn scripts(alloc: Global, callers: u64) -> Result<Script, AllocError>
    requires { callers ≤ 4 }
    ensures few { IfOk result (λ script. length script ≤ 4) }
    ensures served { IfOk result (λ script. AreServedLines false false script) }
{
    let mut each = Vec::with_capacity(alloc, callers as usize)?;
    for first in 0..callers {
        each.push(script(alloc, first)?)?;
    }
    Ok(Script { callers: each })
}

/// The reply to the call at a place, or nothing if a scan is there.
fn reply_at(said: &Replies, at: usize) -> Option<Reply>
    requires { at < length said.now }
{
    match said.scan_at(at) {
        Some(_) => None,
        None => Some(said.call_at(at).1),
    }
}

/// Whether each put found nothing, and each get the value that was put.
fn are_right(said: &Replies, first: u64) -> bool {
    let mut draw = 7;
    for at in 0..said.len() {
        let right = if (at as u64) < KEYS {
            Reply::Nothing
        } else {
            draw = next(draw);
            Reply::Value(((draw >> 40) % KEYS * 4 ^ first) as u128)
        };
        if reply_at(said, at) != Some(right) {
            return false;
        }
    }
    said.len() as u64 == KEYS + GETS
}

/// Whether it is so for each caller.
fn all_right(callers: &[Replies]) -> bool {
    for (first, said) in callers.iter().enumerate() {
        if !are_right(said, first as u64) {
            return false;
        }
    }
    true
}

/// Serves callers by giving up, and returns how often the first took the root, and how often the others did; nothing if a reply
/// is wrong, or if one has waited in vain.
fn taken_by_giving_up<R: Threads + Wait + Sync>(
    rt: &R,
    alloc: Global,
    callers: u64,
    workers: u32,
    aiding: Aiding,
    admits: bool,
) -> Result<Option<(u64, u64)>, AllocError>
    requires { (callers ≤ 4) × ((1 ≤ workers) × (workers ≤ 64)) }
{
    let gate = none_taken(admits);
    let scripts = scripts(alloc, callers)?;
    let setting = Setting {
        nodes: 256,
        workers,
        aiding,
    };
    let told = serve_callers::<WithRange<BNode>, GiveUp, AtOneKey, R, Roots>(
        rt, alloc, &gate, &AtOneKey, setting, scripts,
    )?;
    if !all_right(&told.printed.callers) {
        return Ok(None);
    }
    Ok(gate.taken())
}

/// Serves one caller along links with hints, and returns the same.
fn taken_along_links<R: Threads + Wait + Sync>(
    rt: &R,
    alloc: Global,
) -> Result<Option<(u64, u64)>, AllocError> {
    let gate = none_taken(true);
    let scripts = scripts(alloc, 1)?;
    let setting = Setting {
        nodes: 256,
        workers: 1,
        aiding: Aiding::Hints,
    };
    let told = serve_callers::<WithLink<BNode>, LinkMove, AtOneKey, R, Roots>(
        rt, alloc, &gate, &AtOneKey, setting, scripts,
    )?;
    if !all_right(&told.printed.callers) {
        return Ok(None);
    }
    Ok(gate.taken())
}

#[test]
fn the_root_is_seldom_taken_with_hints(rt: HostRuntime) -> Result<(), Fail> {
    let Some((taken, _)) = taken_by_giving_up(&rt, rt.alloc(), 1, 1, Aiding::Hints, true)? else {
        panic!(rt; "a wrong reply by giving up")
    };
    assert!(rt; taken < 200);
    let Some((taken, _)) = taken_along_links(&rt, rt.alloc())? else {
        panic!(rt; "a wrong reply along links")
    };
    assert!(rt; taken < 200);
    Ok(())
}

#[test]
fn the_root_is_seldom_taken_with_guides(rt: HostRuntime) -> Result<(), Fail> {
    let Some((taken, _)) = taken_by_giving_up(&rt, rt.alloc(), 1, 1, Aiding::Guides, true)? else {
        panic!(rt; "a wrong reply")
    };
    assert!(rt; taken < 200);
    Ok(())
}

#[test]
fn a_gate_that_admits_no_aid_gets_none(rt: HostRuntime) -> Result<(), Fail> {
    let Some((taken, _)) = taken_by_giving_up(&rt, rt.alloc(), 1, 1, Aiding::Hints, false)? else {
        panic!(rt; "a wrong reply")
    };
    assert!(rt; taken >= KEYS + GETS);
    Ok(())
}

/// A call that begins at no hint takes the root. Of the calls of the others fewer than half do.
#[test]
fn four_callers_read_the_hints_of_the_first(rt: HostRuntime) -> Result<(), Fail> {
    let taken = taken_by_giving_up(&rt, rt.alloc(), 4, 3, Aiding::Hints, true)?;
    let Some((_, by_others)) = taken else {
        panic!(rt; "a wrong reply, or the first caller did not come")
    };
    assert!(rt; by_others < 3 * (KEYS + GETS) / 2);
    Ok(())
}

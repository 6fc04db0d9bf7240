//! The time of each call of a dictionary, for `bench/latencies`.
//!
//! The words are a technique (`coupling`, `giveup` or `link`, over B+ nodes), a number of callers, 1 to 64, and how
//! many calls each of them makes: those that `make` draws with FIRST 7. What is printed is how many calls were made,
//! how many of them found a value, and how many pairs are left; then a summary of their times, in nanoseconds. A fourth
//! word, `untimed`, leaves the times out: what is then printed is the same each time.
//!
//! Each caller has a thread, and all wait for one another before their first calls: if the system refuses one of the
//! threads they wait forever.
#![tactic(auto)]

mod calls;
mod times;

ghost use Rattle.std.specs.Prelude.{◌≤◌};

use calls::{Measured, measure};
use ks_boxed::Boxed;
use ks_bplus::BNode;
use ks_coupling::Coupling;
use ks_giveup::GiveUp;
use ks_link::LinkMove;
use ks_linked::WithLink;
use ks_node::WithRange;
use std::alloc::Global;
use std::sync::Wait;
use std::thread::Threads;
use std::time::Clock;
use std::{env, io};
use times::Sums;

/// The words after the program's name.
fn words(rt: &HostRuntime) -> io::Result<Vec<String>> {
    let words = env::args(rt)?.skip(1).collect(rt.alloc())?;
    Ok(words)
}

/// Measures the calls of `callers` callers by the technique; `None` if there is no such technique.
fn measure_by<R: Threads + Wait + Clock + Sync>(
    rt: &R,
    alloc: Global,
    technique: &str,
    callers: u32,
    calls: u32,
) -> io::Result<Option<Measured>>
    requires { (1 ≤ callers) × (callers ≤ 64) }
{
    let measured = match technique {
        "coupling" => measure::<Boxed<BNode>, Coupling, R>(rt, alloc, callers, calls)?,
        "giveup" => measure::<WithRange<BNode>, GiveUp, R>(rt, alloc, callers, calls)?,
        "link" => measure::<WithLink<BNode>, LinkMove, R>(rt, alloc, callers, calls)?,
        _ => return Ok(None),
    };
    Ok(Some(measured))
}

/// Prints what was measured.
fn print(rt: &HostRuntime, measured: Measured, is_timed: bool) -> io::Result<()> {
    let Measured {
        times,
        found,
        pairs,
        span,
    } = measured;
    println!(rt; "calls {} found {found} pairs {pairs}", times.len())?;
    if is_timed {
        let sums = Sums::of(times);
        println!(rt;
            "p50 {} p90 {} p99 {} p99.9 {} p99.99 {} max {} mean {} span {span}",
            sums.p50, sums.p90, sums.p99, sums.p999, sums.p9999, sums.max, sums.mean
        )?;
    }
    Ok(())
}

fn main(rt: HostRuntime) -> anyhow::Result<()> {
    let words = words(&rt)?;
    let is_timed = words.len() == 3;
    if is_timed || words.len() == 4 && words[3].as_str() == "untimed" {
        let callers = words[1].as_str().parse::<u32>().unwrap_or(0);
        let calls = words[2].as_str().parse::<u32>().unwrap_or(0);
        if callers >= 1 && callers <= 64 {
            if let Some(measured) = measure_by(
                &rt,
                rt.alloc(),
                words[0].as_str(),
                callers,
                calls,
            )? {
                print(&rt, measured, is_timed)?;
                return Ok(());
            }
        }
    }
    anyhow::bail!("usage: ks_call_times TECHNIQUE CALLERS CALLS [untimed]")
}

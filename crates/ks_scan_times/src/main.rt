//! The time of ordered scans and of gets of a large tree, for `bench/scans`.
//!
//! The words are a technique (`giveup` or `link`, over B+ nodes), how many keys the tree has, as a power of two, 10 to 20,
//! a number of workers, 1 to 64, and how many scans each of them makes. The workers put all keys, in an order that jumps
//! about. Then each scans spans of 1,000 keys that it draws, and then each gets the keys of the same spans, one by one.
//! What is printed is how many pairs there are, how many were listed and how many were got, and the sums of their values;
//! then the nanoseconds that all scans and all gets took. A fifth word, `untimed`, leaves the times out: what is then
//! printed is the same each time.
#![tactic(auto)]

mod workers;

ghost use Rattle.std.specs.Prelude.{◌≤◌};

use ks_arena::Arena;
use ks_bplus::BNode;
use ks_dictionary::Dictionary;
use ks_giveup::GiveUp;
use ks_link::LinkMove;
use ks_linked::WithLink;
use ks_node::{Node, WithRange};
use ks_shape::{Ruled, Scanning, Template};
use std::alloc::Global;
use std::sync::Wait;
use std::thread::Threads;
use std::time::Clock;
use std::{env, io};
use workers::{Load, Round, Seen, run_all};

/// What was measured: how many keys were put, and what the scans and the gets saw.
#[derive(Drop)]
struct Measured {
    pairs: u64,
    scans: Seen,
    gets: Seen,
}

/// Fills a tree, and measures scans and gets of it.
fn measure<
    N: Node + Send,
    T: Ruled
        + Template<N, Arena<N, <T as Ruled>::Rule>>
        + Scanning<N, Arena<N, <T as Ruled>::Rule>>,
    R: Threads + Wait + Clock + Sync,
>(rt: &R, alloc: Global, load: Load) -> io::Result<Measured>
where
    N::Places: Send + Sync,
    requires workers { (1 ≤ load.workers) × (load.workers ≤ 64) }
    requires bits { load.bits ≤ 20 }
{
    let (map, mut passes) = Dictionary::<N, T>::start(alloc, load.nodes(), load.workers)?;
    let puts = run_all(rt, &map, load, alloc, passes.as_mut_slice(), Round::Puts)?;
    let scans = run_all(rt, &map, load, alloc, passes.as_mut_slice(), Round::Scans)?;
    let gets = run_all(rt, &map, load, alloc, passes.as_mut_slice(), Round::Gets)?;
    Ok(Measured {
        pairs: puts.pairs,
        scans,
        gets,
    })
}

/// Measures by the technique; `None` if none of this name scans.
fn measure_by<R: Threads + Wait + Clock + Sync>(
    rt: &R,
    alloc: Global,
    technique: &str,
    load: Load,
) -> io::Result<Option<Measured>>
    requires workers { (1 ≤ load.workers) × (load.workers ≤ 64) }
    requires bits { load.bits ≤ 20 }
{
    let measured = match technique {
        "giveup" => measure::<WithRange<BNode>, GiveUp, R>(rt, alloc, load)?,
        "link" => measure::<WithLink<BNode>, LinkMove, R>(rt, alloc, load)?,
        _ => return Ok(None),
    };
    Ok(Some(measured))
}

/// Prints what was measured.
fn print(rt: &HostRuntime, measured: &Measured, is_timed: bool) -> io::Result<()> {
    let scans = &measured.scans;
    let gets = &measured.gets;
    println!(rt;
        "pairs {} listed {} sum {} got {} sum {}",
        measured.pairs, scans.pairs, scans.sum, gets.pairs, gets.sum
    )?;
    if is_timed {
        println!(rt; "scans {} gets {}", scans.nanoseconds, gets.nanoseconds)?;
    }
    Ok(())
}

/// The number that a word spells; 0 if it spells none.
fn number(word: &str) -> u32 {
    word.parse::<u32>().unwrap_or(0)
}

fn main(rt: HostRuntime) -> anyhow::Result<()> {
    let words = env::args(&rt)?.skip(1).collect::<Vec<String>>(rt.alloc())?;
    let is_timed = words.len() == 4;
    if is_timed || words.len() == 5 && words[4].as_str() == "untimed" {
        let load = Load {
            bits: number(words[1].as_str()),
            workers: number(words[2].as_str()),
            scans: number(words[3].as_str()),
        };
        if load.is_admitted() {
            if let Some(measured) = measure_by(&rt, rt.alloc(), words[0].as_str(), load)? {
                print(&rt, &measured, is_timed)?;
                return Ok(());
            }
        }
    }
    anyhow::bail!("usage: ks_scan_times TECHNIQUE BITS WORKERS SCANS [untimed]")
}

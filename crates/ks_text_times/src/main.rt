//! One work on a text, done many times over: for measuring what reading, writing and judging take.
//!
//! The words are a work (`read`, `write` or `check`) and how often it is done, over the text on standard input, which is
//! read into memory once. `read` takes a script; `write` and `check` take a script and a run of it, and `write` writes
//! that run. What is printed is how many bytes were read or written and a sum of what the work found, so that none of it
//! is left out when the program is built.
#![tactic(auto)]

mod ends;

use ends::{Counter, Input};
use ks_judge::{Judged, judge};
use ks_script::{read_all, read_checked, read_script, write_run};
use std::alloc::Global;
use std::{env, io};

/// The most bytes of a text.
const MOST: u64 = 134_217_728;

/// The words after the program's name.
fn words(rt: &HostRuntime) -> io::Result<Vec<String>> {
    let words = env::args(rt)?.skip(1).collect(rt.alloc())?;
    Ok(words)
}

/// Reads the script `times` times, and counts its calls; none where it is no script.
fn read(alloc: Global, text: &[u8], times: u64) -> Option<Counter> {
    let mut counter = Counter::new();
    for _ in 0..times {
        let script = read_script(alloc, text).ok()?;
        for calls in &script.callers {
            counter.sum = counter.sum.wrapping_add(calls.len() as u64);
        }
        counter.bytes = counter.bytes.wrapping_add(text.len() as u64);
    }
    Some(counter)
}

/// Reads the run of a script, and writes it `times` times; none where there is no such run.
fn write(alloc: Global, text: &[u8], times: u64) -> Option<Counter> {
    let (_, printed) = read_checked(alloc, text).ok()?;
    let mut counter = Counter::new();
    for _ in 0..times {
        write_run(&mut counter, &printed).ok()?;
    }
    Some(counter)
}

/// What a judgment adds to the sum.
fn told(judged: Judged) -> u64 {
    match judged {
        Judged::Legal { calls } => calls,
        Judged::Wrong { number } => !number,
    }
}

/// Reads a script and a run of it, and judges the run; none where there is no such run.
fn judged(alloc: Global, text: &[u8]) -> Option<Judged> {
    let Ok((script, printed)) = read_checked(alloc, text) else {
        return None;
    };
    judge(alloc, &script, &printed).ok()
}

/// Reads a script and a run of it and judges the run, `times` times; none where there is no such run.
fn check(alloc: Global, text: &[u8], times: u64) -> Option<Counter> {
    let mut counter = Counter::new();
    for _ in 0..times {
        let judged = judged(alloc, text)?;
        counter.sum = counter.sum.wrapping_add(told(judged));
        counter.bytes = counter.bytes.wrapping_add(text.len() as u64);
    }
    Some(counter)
}

/// Does the work `times` times; none where there is no such work, or the text does not fit it.
fn repeat(alloc: Global, work: &str, text: &[u8], times: u64) -> Option<Counter> {
    match work {
        "read" => read(alloc, text, times),
        "write" => write(alloc, text, times),
        "check" => check(alloc, text, times),
        _ => None,
    }
}

fn main(rt: HostRuntime) -> anyhow::Result<()> {
    let words = words(&rt)?;
    if words.len() == 2 {
        let times = words[1].as_str().parse::<u64>().unwrap_or(0);
        let mut input = Input::new(rt.stdin());
        let Ok(text) = read_all(rt.alloc(), &mut input, MOST) else {
            anyhow::bail!("the text is not read")
        };
        if let Some(counter) = repeat(rt.alloc(), words[0].as_str(), &text, times) {
            println!(rt; "{} {}", counter.bytes, counter.sum)?;
            return Ok(());
        }
    }
    anyhow::bail!(
        "usage: ks_text_times WORK TIMES, and a text that fits the work on standard input"
    )
}

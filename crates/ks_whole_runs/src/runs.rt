//! Runs of the program on ends in memory.

ghost use Rattle.std.specs.Prelude.{◌<◌};

use ks_aid::Admits;
use ks_batch::serve;
use ks_gate::{Gate, NoGate};
use ks_script::{MemSink, MemSource};
use std::alloc::{AllocError, Global};
use std::sync::Wait;
use std::thread::Threads;

/// What a run of the program left.
#[derive(Drop)]
pub struct Ended {
    pub status: u8,
    pub line: u64,
    pub number: u64,
    /// Whether there is the trace of a run.
    pub has_run: bool,
    pub out: Vec<u8>,
    pub err: Vec<u8>,
}

/// How many bytes the ends of a run return and take at a time.
#[derive(Clone, Copy)]
pub enum Ends {
    /// 4,096 bytes.
    Whole,
    /// One byte.
    Bytewise,
}

impl Ends {
    fn most(self) -> usize
        ensures { 0 < result }
    {
        match self {
            Ends::Whole => 4096,
            Ends::Bytewise => 1,
        }
    }
}

fn split(alloc: Global, words: &str) -> Result<Vec<String>, AllocError> {
    let mut all = Vec::new(alloc);
    for word in words.split_whitespace() {
        all.push(String::from_str(alloc, word)?)?;
    }
    Ok(all)
}

/// Runs the program on these ends, with the gate for its callers.
pub fn run_ends<R: Threads + Wait + Sync, G: Gate + Admits + Sync>(
    rt: &R,
    alloc: Global,
    words: &str,
    mut source: MemSource,
    mut out: MemSink,
    mut err: MemSink,
    gate: &G,
) -> Result<Ended, AllocError> {
    let words = split(alloc, words)?;
    let outcome = serve(rt, alloc, &words, &mut source, &mut out, &mut err, gate);
    Ok(Ended {
        status: outcome.status,
        line: outcome.line,
        number: outcome.number,
        has_run: outcome.run.is_some(),
        out: Vec::from_slice(alloc, out.taken())?,
        err: Vec::from_slice(alloc, err.taken())?,
    })
}

/// Runs the program with the gate for its callers. The error output takes all at once.
pub(crate) fn run_at<R: Threads + Wait + Sync, G: Gate + Admits + Sync>(
    rt: &R,
    alloc: Global,
    words: &str,
    input: &[u8],
    ends: Ends,
    gate: &G,
) -> Result<Ended, AllocError> {
    let most = ends.most();
    let source = MemSource::new(Vec::from_slice(alloc, input)?, most, Vec::new(alloc));
    let out = MemSink::new(alloc, 65536, most, Vec::new(alloc))?;
    let err = MemSink::new(alloc, 4096, 4096, Vec::new(alloc))?;
    run_ends(rt, alloc, words, source, out, err, gate)
}

/// Runs the program with a gate that stops no caller.
pub fn run<R: Threads + Wait + Sync>(
    rt: &R,
    alloc: Global,
    words: &str,
    input: &[u8],
    ends: Ends,
) -> Result<Ended, AllocError> {
    run_at(rt, alloc, words, input, ends, &NoGate)
}

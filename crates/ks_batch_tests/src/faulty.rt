//! Runs by ends that fail at a call, or pass few bytes at a time.

ghost use Rattle.std.specs.Prelude.{◌<◌};

use ks_gate::NoGate;
use ks_script::{MemSink, MemSource};
use ks_whole_runs::{Ended, Piece, Wanted, Wrong, run_ends, text_of};
use std::alloc::{AllocError, Global};
use std::sync::Wait;
use std::thread::Threads;

/// An end of a run.
#[derive(Clone, Copy)]
pub struct End {
    /// How many bytes a call passes at most.
    pub most: usize,
    /// The number of the call that fails.
    pub fails: u64,
}

/// The number of a call that no run reaches.
pub const NEVER: u64 = u64::MAX;

/// An end that does not fail.
pub const SOUND: End = End {
    most: 4096,
    fails: NEVER,
};

impl End {
    fn most(self) -> usize
        ensures { 0 < result }
    {
        if self.most == 0 { 1 } else { self.most }
    }
}

/// Runs the program from this source to this output and this error output.
pub fn run_by<R: Threads + Wait + Sync>(
    rt: &R,
    alloc: Global,
    words: &str,
    input: &[u8],
    source: End,
    sink: End,
    err: End,
) -> Result<Ended, AllocError> {
    let bytes = Vec::from_slice(alloc, input)?;
    let source = MemSource::new(bytes, source.most(), vec![in alloc; source.fails]?);
    let out = MemSink::new(alloc, 65536, sink.most(), vec![in alloc; sink.fails]?)?;
    let err = MemSink::new(alloc, 4096, err.most(), vec![in alloc; err.fails]?)?;
    run_ends(rt, alloc, words, source, out, err, &NoGate)
}

/// A run by these ends, and what it leaves. No line is named.
#[derive(Clone, Copy)]
pub struct Faulty {
    pub words: &'static str,
    pub input: &'static [Piece],
    pub source: End,
    pub sink: End,
    pub status: u8,
    pub out: &'static [u8],
    pub err: &'static [u8],
    /// Whether there is the trace of a run.
    pub has_run: bool,
}

/// Runs each row.
pub fn fail_each<R: Threads + Wait + Sync>(
    rt: &R,
    alloc: Global,
    rows: &[Faulty],
) -> Result<(), Wrong> {
    for row in rows {
        let input = text_of(alloc, row.input)?;
        let ended = run_by(rt, alloc, row.words, &input, row.source, row.sink, SOUND)?;
        let wanted = Wanted {
            status: row.status,
            out: row.out,
            err: row.err,
        };
        if !ended.is(wanted) || ended.has_run != row.has_run || ended.line != 0 {
            return Err(Wrong::run(alloc, row.words, &input, &ended));
        }
    }
    Ok(())
}

//! The standard streams as a source and as sinks.
//!
//! No proof can say what the system does with bytes, so over the streams of a process nothing is ensured of which bytes come
//! and go. Over a stream of std whose bytes are known these are the source's and the sink's. So each error has to be reported
//! as a fault: one that was taken for the end, or for bytes that were written, would contradict what the stream still has.
#![tactic(auto)]

ghost use Rattle.std.specs.Prelude.{ℕ, ◌≡◌};

use ks_script::{Failed, Sink, Source};
use std::io::{Read, Write};

/// Reads from a stream, and counts its faults.
#[derive(Drop)]
pub struct StdSource<R: Read + Drop> {
    stream: R,
    faults: u64,
}

impl<R: Read + Drop> StdSource<R> {
    pub fn new(stream: R) -> StdSource<R>
        ensures tells { ⟦<StdSource<R> as Source>⟧.left result ≡ R.remaining stream }
        ensures clean { ⟦<StdSource<R> as Source>⟧.faults result ≡ 0 }
    {
        StdSource { stream, faults: 0 }
    }
}

impl<R: Read + Drop> Source for StdSource<R> {
    ghost left = { λ s. R.remaining s.stream };

    ghost faults = { λ s. s.faults };

    fn read(&mut self, into: &mut [u8]) -> Result<usize, Failed> {
        match self.stream.read(into) {
            Ok(count) => Ok(count),
            Err(_) => {
                self.faults = self.faults.saturating_add(1);
                Err(Failed)
            }
        }
    }
}

/// Writes to a stream, and counts its faults. A write that takes nothing of a piece that is not empty is one.
#[derive(Drop)]
pub struct StdSink<W: Write + Drop> {
    stream: W,
    faults: u64,
}

impl<W: Write + Drop> StdSink<W> {
    pub fn new(stream: W) -> StdSink<W>
        ensures tells { ⟦<StdSink<W> as Sink>⟧.taken result ≡ W.contents stream }
        ensures clean { ⟦<StdSink<W> as Sink>⟧.faults result ≡ 0 }
    {
        StdSink { stream, faults: 0 }
    }
}

impl<W: Write + Drop> Sink for StdSink<W> {
    ghost taken = { λ s. W.contents s.stream };

    ghost faults = { λ s. s.faults };

    fn write(&mut self, piece: &[u8]) -> Result<usize, Failed> {
        match self.stream.write(piece) {
            Ok(count) if count > 0 || piece.is_empty() => Ok(count),
            _ => {
                self.faults = self.faults.saturating_add(1);
                Err(Failed)
            }
        }
    }
}

#[cfg(test)]
mod tests;

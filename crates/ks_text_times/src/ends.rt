//! Where the text comes from, and a sink that keeps no bytes.

use ks_script::{Failed, Sink, Source};
use std::io::Read;

/// Reads from a stream, and counts its faults.
#[derive(Drop)]
pub struct Input<R: Read + Drop> {
    stream: R,
    faults: u64,
}

impl<R: Read + Drop> Input<R> {
    pub fn new(stream: R) -> Input<R> {
        Input { stream, faults: 0 }
    }
}

impl<R: Read + Drop> Source for Input<R> {
    ghost left = { λ s. R.remaining s.stream };

    ghost faults = { λ s. s.faults };

    fn read(&mut self, into: &mut [u8]) -> Result<usize, Failed> {
        match self.stream.read(into) {
            Ok(count) => Ok(count),
            Err(_) => {
                self.faults = self.faults.saturating_add(1);
                Err(Failed)
            }
        }
    }
}

/// Takes all bytes, and keeps how many they were, and a sum of them.
#[derive(Clone, Copy, Drop)]
pub struct Counter {
    pub bytes: u64,
    pub sum: u64,
}

impl Counter {
    pub fn new() -> Counter {
        Counter { bytes: 0, sum: 0 }
    }
}

impl Sink for Counter {
    ghost faults = { λ _. 0 };

    fn write(&mut self, piece: &[u8]) -> Result<usize, Failed> {
        for byte in piece {
            self.sum = self.sum.wrapping_add(*byte as u64);
        }
        self.bytes = self.bytes.wrapping_add(piece.len() as u64);
        Ok(piece.len())
    }
}

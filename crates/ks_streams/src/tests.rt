//! The adapters over streams that fail, and over one that does not.

use super::{StdSink, StdSource};
use ks_script::{ReadFault, Source, read_all, send};
use std::io;
use std::io::{Cursor, Read, Write};
use std::test::Fail;

/// Returns one byte a read. Fails once, after `failing` bytes, if that is a number.
#[derive(Drop)]
struct FailingReader {
    bytes: &'static [u8],
    at: usize,
    failing: Option<usize>,
}

impl Read for FailingReader {
    fn read(&mut self, buf: &mut [u8]) -> io::Result<usize> {
        if self.failing == Some(self.at) {
            self.failing = None;
            return Err(io::ErrorKind::Other.into());
        }
        if self.at >= self.bytes.len() || buf.is_empty() {
            return Ok(0);
        }
        buf[0] = self.bytes[self.at];
        self.at += 1;
        Ok(1)
    }
}

/// What a writer does once it has taken what it takes.
#[derive(Clone, Copy, PartialEq, Eq)]
enum Then {
    Fails,
    TakesNothing,
}

/// Takes one byte a write, as long as `takes` is not 0, and then does what `then` says.
#[derive(Drop)]
struct FailingWriter {
    takes: usize,
    then: Then,
}

impl Write for FailingWriter {
    fn write(&mut self, buf: &[u8]) -> io::Result<usize> {
        if buf.is_empty() {
            return Ok(0);
        }
        if self.takes > 0 {
            self.takes -= 1;
            return Ok(1);
        }
        match self.then {
            Then::Fails => Err(io::ErrorKind::Other.into()),
            Then::TakesNothing => Ok(0),
        }
    }

    fn flush(&mut self) -> io::Result<()> {
        Ok(())
    }
}

#[test]
fn a_read_error_at_any_byte_is_no_end(rt: HostRuntime) {
    for failing in 0..4 {
        let mut source = StdSource::new(FailingReader {
            bytes: b"abc",
            at: 0,
            failing: Some(failing),
        });
        let fault = read_all(rt.alloc(), &mut source, 10).err();
        assert_eq!(rt; fault, Some(ReadFault::Failed));
    }
}

#[test]
fn a_stream_is_read_to_its_end(rt: HostRuntime) -> Result<(), Fail> {
    let mut source = StdSource::new(FailingReader {
        bytes: b"abc",
        at: 0,
        failing: None,
    });
    let bytes = read_all(rt.alloc(), &mut source, 10)
        .ok()
        .ok_or("it has 3 bytes")?;
    assert_eq!(rt; bytes.as_slice(), b"abc".as_slice());
    Ok(())
}

#[test]
fn a_write_that_fails_or_takes_nothing_is_a_fault(rt: HostRuntime) {
    for then in [Then::Fails, Then::TakesNothing] {
        for takes in 0..5 {
            let mut out = StdSink::new(FailingWriter { takes, then });
            assert_eq!(rt; send(&mut out, b"abc").is_ok(), takes >= 3);
            assert_eq!(rt; out.faults > 0, takes < 3);
        }
    }
}

//! Texts that runs read and print, and texts as data.

use itoa::Buffer;
use std::alloc::{AllocError, Global};

/// Words that serve a script over four nodes.
pub const RUN: &str = "run bplus coupling 4";

/// A script, and the text of its run.
pub const FIRST: &[u8] = b"caller\nput 5 50\nget 5\n";

pub const FIRST_RUN: &[u8] = b"caller 0\n0 none\n1 50\nmap\n5 50\nend\n";

/// What is said of words that are no command.
pub const USAGE: &[u8] =
    b"usage: run NODES TEMPLATE ARENA [WORKERS], hinted NODES TEMPLATE ARENA WORKERS, make NODES TEMPLATE ARENA CALLERS CALLS FIRST, or check\n";

/// A piece of a text. Two numbers are the first and the last key, or number of a call, each of which has a line.
#[derive(Clone, Copy)]
pub enum Piece {
    /// These bytes.
    Bytes(&'static [u8]),
    /// As many times these bytes.
    Times(u64, &'static [u8]),
    /// Puts of the keys, each as its own value.
    Puts(u64, u64),
    /// Adds of the keys, each as its own value.
    Adds(u64, u64),
    /// Dels of the keys.
    Dels(u64, u64),
    /// Calls that found no value.
    Nones(u64, u64),
    /// Calls, numbered from the first number on, that found the keys as their own values.
    Found(u64, u64, u64),
    /// Pairs of a map: the keys, each as its own value.
    Pairs(u64, u64),
}

/// The text of these pieces.
pub fn text_of(alloc: Global, pieces: &[Piece]) -> Result<Vec<u8>, AllocError> {
    let mut text = Vec::new(alloc);
    for piece in pieces {
        put_piece(&mut text, *piece)?;
    }
    Ok(text)
}

fn put_piece(text: &mut Vec<u8>, piece: Piece) -> Result<(), AllocError> {
    match piece {
        Piece::Bytes(bytes) => text.extend_from_slice(bytes),
        Piece::Times(times, bytes) => put_times(text, times, bytes),
        Piece::Puts(first, last) => put_pairs(text, b"put ", first, last),
        Piece::Adds(first, last) => put_pairs(text, b"add ", first, last),
        Piece::Dels(first, last) => put_lines(text, b"del ", first, last, b"\n"),
        Piece::Nones(first, last) => put_lines(text, b"", first, last, b" none\n"),
        Piece::Found(number, first, last) => put_found(text, number, first, last),
        Piece::Pairs(first, last) => put_pairs(text, b"", first, last),
    }
}

fn put_times(text: &mut Vec<u8>, times: u64, bytes: &[u8]) -> Result<(), AllocError> {
    for _ in 0..times {
        text.extend_from_slice(bytes)?;
    }
    Ok(())
}

/// Appends a number.
fn put_number(text: &mut Vec<u8>, number: u64) -> Result<(), AllocError> {
    text.extend_from_slice(Buffer::new().format(number).as_bytes())
}

/// Appends for each number what comes before it, the number, and what comes behind it.
fn put_lines(
    text: &mut Vec<u8>,
    before: &[u8],
    first: u64,
    last: u64,
    behind: &[u8],
) -> Result<(), AllocError> {
    for number in first..=last {
        text.extend_from_slice(before)?;
        put_number(text, number)?;
        text.extend_from_slice(behind)?;
    }
    Ok(())
}

/// Appends for each key a line: the word, the key and the key again as its value.
fn put_pairs(text: &mut Vec<u8>, word: &[u8], first: u64, last: u64) -> Result<(), AllocError> {
    for key in first..=last {
        text.extend_from_slice(word)?;
        put_pair(text, key, key)?;
    }
    Ok(())
}

/// Appends for each key a line: the number of the call that found it, and the key.
fn put_found(text: &mut Vec<u8>, number: u64, first: u64, last: u64) -> Result<(), AllocError> {
    let mut number = number;
    for key in first..=last {
        put_pair(text, number, key)?;
        number = number.saturating_add(1);
    }
    Ok(())
}

/// Appends a line of two numbers.
fn put_pair(text: &mut Vec<u8>, first: u64, second: u64) -> Result<(), AllocError> {
    put_number(text, first)?;
    text.push(b' ')?;
    put_number(text, second)?;
    text.push(b'\n')?;
    Ok(())
}

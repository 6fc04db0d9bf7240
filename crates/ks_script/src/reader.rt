//! The script at the front of a text: callers with their lines, as far as these go.

ghost use Rattle.std.specs.Prelude.{◌≡◌, ◌≤◌, ◌<◌, ◌+◌, ◌-◌, ◌++◌, length, map, IfOk};
ghost use Rattle.ks_script.specs.Words.{sum_by, AllByRecursion, lines_of, IsLineOf, IsScript, line_text, script_lines, parts_of, NoneFirst, Reads, HasBegun, IsLineWithin, Stops, version_line, calls_in, parts_in, Amiss};

use crate::Calls;
use crate::lines::{first_line, word_line};
use crate::reasons::{Reason, why};
use crate::version::Version;
use ks_lines::Line;
use std::alloc::{AllocError, Global};

// How many parts the line asks for.
#[inline(always)]
fn asked_parts(line: Line) -> u32
    ensures { result ≡ parts_of line }
{
    match line {
        Line::Call(_) => 0,
        Line::Scan(_, _, most) => most,
    }
}

/// The lines at the front, as many as there is room for, which ask for no more parts than these; the bytes after them,
/// and how many parts are left.
pub fn calls(
    alloc: Global,
    version: Version,
    bytes: &[u8],
    room: usize,
    parts: u32,
) -> Result<(Calls, &[u8], u32), AllocError>
    ensures each { IfOk result (λ x. AllByRecursion (IsLineOf version) x.0) }
    ensures within { IfOk result (λ x. length x.0 ≤ room) }
    ensures parts { IfOk result (λ x. x.2 + sum_by parts_of x.0 ≡ parts) }
    ensures reads { IfOk result (λ x. Reads (map line_text x.0) bytes.now x.1.now (length x.0)) }
    ensures stops { IfOk result (λ x. length x.0 < room →
        NoneFirst (IsLineWithin version x.2) line_text (lines_of x.1.now)) }
    ensures shorter { IfOk result (λ x. length x.1.now ≤ length bytes.now) }
{
    let mut calls = Calls::new(alloc);
    let mut rest = bytes;
    let mut left = parts;
    'calls: while calls.len() < room {
        let Some((asked, more)) = first_line(version, left, rest) else {
            return Ok((calls, rest, left));
        };
        calls.push(asked)?;
        rest = more;
        left -= asked_parts(asked);
    }
    Ok((calls, rest, left))
}

// How many calls a script may have, and how many parts they may ask for.
pub const MOST_CALLS: usize = 1_048_576;

const MOST_PARTS: u32 = 65_536;

/// The script at the front of a text: its version, its callers, how many calls they have, for how many parts more they may
/// ask, how many lines it takes, and the bytes after it.
#[derive(Drop)]
pub struct Front<'a> {
    pub version: Version,
    pub callers: Vec<Calls>,
    pub calls: usize,
    pub parts: u32,
    pub lines: u64,
    pub rest: &'a [u8],
}

impl Front<'_> {
    /// Why the line after it does not go on with it.
    pub fn why(&self) -> Reason
        requires calls { self.now.calls ≡ calls_in self.now.callers.items }
        requires parts { self.now.parts ≡ 65536 - parts_in self.now.callers.items }
        requires stops { Stops self.now.version self.now.callers.items (lines_of self.now.rest.now) }
        ensures { Amiss self.now.version (length self.now.callers.items) (calls_in self.now.callers.items)
            (65536 - parts_in self.now.callers.items) (lines_of self.now.rest.now) result }
    {
        why(
            self.version,
            self.callers.len(),
            self.calls,
            self.parts,
            self.rest,
        )
    }
}

// The version that the first line says, how many lines do so, and the bytes after them.
fn version_of(bytes: &[u8]) -> (Version, u64, &[u8])
    ensures reads { Reads (version_line result.0) bytes.now result.2.now result.1 }
    ensures begun { HasBegun result.0 (lines_of result.2.now) }
    ensures few { result.1 ≤ 1 }
{
    if let Some(rest) = word_line(bytes, b"script 2") {
        return (Version::Second, 1, rest);
    }
    if let Some(rest) = word_line(bytes, b"script 3") {
        return (Version::Third, 1, rest);
    }
    if let Some(rest) = word_line(bytes, b"script 4") {
        return (Version::Fourth, 1, rest);
    }
    (Version::First, 0, bytes)
}

/// The script at the front, as far as the lines go.
pub fn callers(alloc: Global, bytes: &[u8]) -> Result<Front<'_>, AllocError>
    ensures is { IfOk result (λ f. IsScript f.version f.callers.items) }
    ensures reads { IfOk result
        (λ f. Reads (version_line f.version ++ script_lines f.callers.items) bytes.now f.rest.now f.lines) }
    ensures stops { IfOk result (λ f. Stops f.version f.callers.items (lines_of f.rest.now)) }
    ensures few { IfOk result (λ f. f.lines ≤ 1 + 1024 + 1048576) }
    ensures calls { IfOk result (λ f. f.calls ≡ calls_in f.callers.items) }
    ensures parts { IfOk result (λ f. f.parts ≡ 65536 - parts_in f.callers.items) }
{
    let (version, lines, rest) = version_of(bytes);
    let mut front = Front {
        version,
        callers: Vec::new(alloc),
        calls: 0,
        parts: MOST_PARTS,
        lines,
        rest,
    };
    'callers: while front.callers.len() < front.version.most_callers() {
        let Some(more) = word_line(front.rest, b"caller") else {
            return Ok(front);
        };
        let room = MOST_CALLS - front.calls;
        let (lines, behind, left) = calls(alloc, front.version, more, room, front.parts)?;
        front.calls += lines.len();
        front.lines += 1 + lines.len() as u64;
        front.callers.push(lines)?;
        front.rest = behind;
        front.parts = left;
    }
    Ok(front)
}

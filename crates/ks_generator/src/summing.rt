//! The summary of a run: how many replies of each kind, and what the map came to.

ghost use Rattle.std.specs.Prelude.{◌≡◌, ◌≤◌, ◌<◌, ◌%◌, ◌^◌, List, length, ◌++◌, true, false, count_by, IfOk, OnOk};
ghost use Rattle.std.specs.Fmt.{decimal};
ghost use Rattle.ks_script.specs.Script.{calls_in};
ghost use Rattle.ks_lines.specs.declared.Line.{Line};
ghost use Rattle.ks_script.specs.PackedReplies.{said_at};
ghost use Rattle.ks_generator.specs.Size.{IsSize};
ghost use Rattle.ks_generator.specs.Summary.{is_some_of, reply_in, replies_of, sum_of, summary_text, lines_of_summary};
ghost use Rattle.ks_generator.specs.declared.summing.Kind.TheVariants as kinds;

use itoa::Buffer;
use ks_history::Reply;
use ks_script::{Calls, Printed, Replies, Script};
use std::alloc::{AllocError, Global};

/// A kind of reply: a value, nothing, or that no free node was found. Clauses count replies by it; those of parts, and
/// that a move kept both values, are of no kind.
#[derive(Clone, Copy, Debug, PartialEq, Eq)]
pub enum Kind {
    Found,
    Missing,
    NoRoom,
}

/// How many replies there are of each kind.
#[derive(Clone, Copy, Debug)]
struct Tally {
    found: u128,
    none: u128,
    full: u128,
}

// 1 for a reply of the kind, and 0 for another, and for none.
#[inline(always)]
fn counted(reply: &Option<Reply>, kind: Kind) -> usize
    ensures same { is_some_of kind reply.now ≡ true → result ≡ 1 }
    ensures other { is_some_of kind reply.now ≡ false → result ≡ 0 }
    ensures few { result ≤ 1 }
{
    match (reply, kind) {
        (Some(Reply::Value(_)), Kind::Found) => 1,
        (Some(Reply::Nothing), Kind::Missing) => 1,
        (Some(Reply::Full), Kind::NoRoom) => 1,
        _ => 0,
    }
}

// The reply to the line at a place, if it is a call.
#[inline(always)]
fn reply_at(said: &Replies, at: usize) -> Option<Reply>
    requires { at < length said.now }
    ensures { result ≡ reply_in (said_at said.now at) }
{
    if said.scan_at(at).is_some() {
        return None;
    }
    let (_, reply) = said.call_at(at);
    Some(reply)
}

/// The replies to the lines of one caller.
fn replies_in(said: &Replies) -> Tally
    ensures found { result.found ≡ count_by (λ s. is_some_of kinds.Found (reply_in s)) said.now }
    ensures none { result.none ≡ count_by (λ s. is_some_of kinds.Missing (reply_in s)) said.now }
    ensures full { result.full ≡ count_by (λ s. is_some_of kinds.NoRoom (reply_in s)) said.now }
    ensures few { (result.found < 2 ^ 64) × ((result.none < 2 ^ 64) × (result.full < 2 ^ 64)) }
{
    let mut found: usize = 0;
    let mut none: usize = 0;
    let mut full: usize = 0;
    for at in 0..said.len() {
        let reply = reply_at(said, at);
        found += counted(&reply, Kind::Found);
        none += counted(&reply, Kind::Missing);
        full += counted(&reply, Kind::NoRoom);
    }
    Tally {
        found: found as u128,
        none: none as u128,
        full: full as u128,
    }
}

/// The replies that the callers were given.
fn replies(callers: &[Replies]) -> Tally
    ensures found { result.found ≡ replies_of kinds.Found callers.now }
    ensures none { result.none ≡ replies_of kinds.Missing callers.now }
    ensures full { result.full ≡ replies_of kinds.NoRoom callers.now }
{
    let mut found = 0;
    let mut none = 0;
    let mut full = 0;
    for said in callers {
        let more = replies_in(said);
        found += more.found;
        none += more.none;
        full += more.full;
    }
    Tally { found, none, full }
}

/// How many calls the callers have together.
fn calls(callers: &[Calls]) -> u128
    ensures { result ≡ calls_in callers.now }
{
    let mut total = 0;
    for lines in callers {
        total += lines.len() as u128;
    }
    total
}

/// The sum of each key times its value, by its lower 64 bits.
fn sum(pairs: &[(u64, u128)]) -> u64
    ensures { result ≡ sum_of pairs.now % 2 ^ 64 }
{
    let mut sum: u64 = 0;
    for pair in pairs {
        let value = (pair.1 % 18446744073709551616) as u64;
        sum = sum.wrapping_add(pair.0.wrapping_mul(value));
    }
    sum
}

/// The numbers of a summary.
#[derive(Clone, Copy, Debug)]
struct Counts {
    callers: usize,
    calls: u128,
    found: u128,
    none: u128,
    full: u128,
    pairs: usize,
    sum: u64,
}

/// Appends a word and a number.
fn put(text: &mut Vec<u8>, word: &[u8], number: u128) -> Result<(), AllocError>
    ensures { OnOk result (text.new.items ≡ text.old.items ++ (word.now ++ decimal number)) }
{
    text.extend_from_slice(word)?;
    text.extend_from_slice(Buffer::new().format(number).as_bytes())
}

fn text(alloc: Global, counts: &Counts) -> Result<Vec<u8>, AllocError>
    ensures { IfOk result
        (λ text. text.items
        ≡ lines_of_summary counts.now.callers counts.now.calls counts.now.found counts.now.none counts.now.full
        counts.now.pairs counts.now.sum) }
{
    let mut text = Vec::new(alloc);
    put(&mut text, b"callers ", counts.callers as u128)?;
    put(&mut text, b"\ncalls ", counts.calls)?;
    put(&mut text, b"\nfound ", counts.found)?;
    put(&mut text, b"\nnone ", counts.none)?;
    put(&mut text, b"\nfull ", counts.full)?;
    put(&mut text, b"\npairs ", counts.pairs as u128)?;
    put(&mut text, b"\nsum ", u128::from(counts.sum))?;
    text.extend_from_slice(b"\n")?;
    Ok(text)
}

/// How many callers a script has, and how many calls they have together.
#[derive(Clone, Copy, Debug, PartialEq, Eq)]
pub struct Size {
    callers: usize,
    calls: u128,
}

impl Size {
    /// The size of the script.
    pub fn of(script: &Script) -> Size
        ensures { IsSize result script.now }
    {
        Size {
            callers: script.callers.len(),
            calls: calls(&script.callers),
        }
    }
}

/// The text of the summary of a run, of a script of this size.
pub fn summary(alloc: Global, size: Size, printed: &Printed) -> Result<Vec<u8>, AllocError>
    ensures { (script : List (List Line)) → IsSize size script →
        IfOk result (λ text. text.items ≡ summary_text script printed.now) }
{
    let summary = count(size, &printed.callers, &printed.pairs);
    text(alloc, &summary)
}

fn count(size: Size, said: &[Replies], pairs: &[(u64, u128)]) -> Counts
    ensures callers { result.callers ≡ size.callers }
    ensures calls { result.calls ≡ size.calls }
    ensures found { result.found ≡ replies_of kinds.Found said.now }
    ensures none { result.none ≡ replies_of kinds.Missing said.now }
    ensures full { result.full ≡ replies_of kinds.NoRoom said.now }
    ensures pairs { result.pairs ≡ length pairs.now }
    ensures sum { result.sum ≡ sum_of pairs.now % 2 ^ 64 }
{
    let told = replies(said);
    Counts {
        callers: size.callers,
        calls: size.calls,
        found: told.found,
        none: told.none,
        full: told.full,
        pairs: pairs.len(),
        sum: sum(pairs),
    }
}

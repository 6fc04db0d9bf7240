//! What readers find after posts, also beside them and if memory runs out.
ghost use Rattle.std.specs.Prelude.{◌≡◌, ◌<◌, length, IfOk};

use crate::starting::{blanks, readers_of};
use crate::{HintReader, HintWriter, Hints, fits_threads};
use std::alloc::{AllocError, Global};
use std::sync::Wait;
use std::sync::atomic::AtomicBool;
use std::sync::atomic::Ordering::SeqCst;
use std::test::Fail;
use std::thread::join_mut;

/// A writer with one reader.
fn start_one<R: Wait>(rt: &R, alloc: Global) -> Result<(HintWriter, HintReader), AllocError> {
    let (writer, mut readers) = Hints::start(alloc, 1)?;
    match readers.pop() {
        Some(reader) => Ok((writer, reader)),
        None => {
            writer.end(rt);
            Err(AllocError)
        }
    }
}

/// Posts the lows from 0 to `last`, each with the node after it.
fn post_row<R: Wait>(rt: &R, writer: &mut HintWriter, last: u32) -> Result<(), AllocError>
    requires { last < 1000 }
{
    for n in 0..last + 1 {
        writer.post(rt, n as u64, n + 1)?;
    }
    Ok(())
}

#[test]
fn the_hint_is_that_of_the_greatest_low_not_above_the_place(rt: HostRuntime) -> Result<(), Fail> {
    let (mut writer, mut reader) = start_one(&rt, rt.alloc())?;
    let before = reader.hint(7);
    let first = writer.post(&rt, 0, 1);
    let second = writer.post(&rt, 8, 2);
    let found = (reader.hint(7), reader.hint(8));
    writer.end(&rt);
    let ended = reader.hint(8);
    first?;
    second?;
    assert_eq!(rt; before, None);
    assert_eq!(rt; found, (Some(1), Some(2)));
    assert_eq!(rt; ended, Some(2));
    Ok(())
}

#[test]
fn a_full_list_is_emptied_before_one_more_low(rt: HostRuntime) -> Result<(), Fail> {
    let (mut writer, mut reader) = start_one(&rt, rt.alloc())?;
    let posted = post_row(&rt, &mut writer, 64);
    let found = (reader.hint(63), reader.hint(64));
    writer.end(&rt);
    posted?;
    assert_eq!(rt; found, (None, Some(65)));
    Ok(())
}

#[test]
fn readers_read_apart(rt: HostRuntime) -> Result<(), Fail> {
    let (mut writer, mut readers) = Hints::start(rt.alloc(), 2)?;
    let (Some(mut one), Some(mut other)) = (readers.pop(), readers.pop()) else {
        writer.end(&rt);
        panic!(rt; "no readers")
    };
    let first = writer.post(&rt, 4, 1);
    let early = one.hint(9);
    let second = writer.post(&rt, 4, 2);
    let late = (one.hint(9), other.hint(4), other.hint(3));
    drop(other);
    let third = writer.post(&rt, 5, 3);
    writer.end(&rt);
    let ended = one.hint(9);
    first?;
    second?;
    third?;
    assert_eq!(rt; early, Some(1));
    assert_eq!(rt; late, (Some(2), Some(2), None));
    assert_eq!(rt; ended, Some(2));
    Ok(())
}

#[test]
fn a_reader_without_a_place_has_no_hints(rt: HostRuntime) -> Result<(), Fail> {
    let more = blanks(rt.alloc(), 1)?;
    let into = Vec::with_capacity(rt.alloc(), 1)?;
    let (mut writer, mut reader) = start_one(&rt, rt.alloc())?;
    let mut apart = readers_of(&writer.writer, more, into);
    let posted = writer.post(&rt, 0, 1);
    let found = reader.hint(0);
    let nothing = match apart.pop() {
        Some(mut without) => without.hint(0),
        None => Some(0),
    };
    writer.end(&rt);
    posted?;
    assert_eq!(rt; found, Some(1));
    assert_eq!(rt; nothing, None);
    Ok(())
}

/// A writer with three readers. If memory runs out, it is started once more.
fn start_again(alloc: Global) -> Result<(HintWriter, Vec<HintReader>), AllocError>
    ensures { IfOk result (λ made. length made.1.items ≡ 3) }
{
    match Hints::start(alloc, 3) {
        Ok(made) => Ok(made),
        Err(_) => Hints::start(alloc, 3),
    }
}

/// Posts the lows from 0 to 7, each with the node after it. A post for which memory runs out is made once more. Returns
/// whether the reader finds each post at once, and after a refused post what it found before.
fn post_again<R: Wait>(rt: &R, writer: &mut HintWriter, reader: &mut HintReader) -> bool {
    let mut newest = None;
    let mut same = reader.hint(9) == None;
    for n in 0..8u32 {
        if writer.post(rt, n as u64, n + 1).is_err() {
            same = same && reader.hint(9) == newest;
            same = same && writer.post(rt, n as u64, n + 1).is_ok();
        }
        newest = Some(n + 1);
        same = same && reader.hint(9) == newest;
    }
    same
}

// By `rt try --test --fail-alloc N` each request for memory is refused in turn: the test passes whichever it is.
#[test]
fn a_refused_request_leaves_what_was_posted(rt: HostRuntime) -> Result<(), Fail> {
    let (mut writer, mut readers) = start_again(rt.alloc())?;
    let mut same = true;
    let mut last = None;
    if let Some(mut reader) = readers.pop() {
        same = post_again(&rt, &mut writer, &mut reader);
    }
    if let Some(mut other) = readers.pop() {
        last = other.hint(6);
    }
    writer.end(&rt);
    assert!(rt; same);
    assert_eq!(rt; last, Some(7));
    Ok(())
}

/// By which a writer and a reader wait for one another.
#[derive(Drop)]
struct Meeting {
    found_one: AtomicBool,
    ended: AtomicBool,
}

/// The node of the last post at the one low.
const LAST: u32 = 4_999;

/// Posts node numbers in their order at one low. Half-way it waits until the reader has found one.
fn post_rising<R: Wait>(rt: &R, writer: &mut HintWriter, at: &Meeting) -> Result<(), AllocError> {
    for node in 0..LAST + 1 {
        if node == LAST / 2 {
            for _ in rt.forever() {
                if at.found_one.load(SeqCst) {
                    break;
                }
            }
        }
        writer.post(rt, 8, node)?;
    }
    Ok(())
}

/// Posts, and says when it has ended.
fn post_all<R: Wait>(rt: &R, writer: &mut HintWriter, at: &Meeting) -> Result<(), AllocError> {
    let posted = post_rising(rt, writer, at);
    at.ended.store(true, SeqCst);
    posted
}

/// Asks until the posts have ended. Returns the first node that it found, and whether no hint was below the one before.
fn never_falls<R: Wait>(rt: &R, reader: &mut HintReader, at: &Meeting) -> (Option<u32>, bool) {
    let mut first = None;
    let mut last = 0;
    let mut rises = true;
    for _ in rt.forever() {
        if let Some(found) = reader.hint(9) {
            first = first.or(Some(found));
            at.found_one.store(true, SeqCst);
            rises = rises && last <= found;
            last = found;
        }
        if at.ended.load(SeqCst) {
            break;
        }
    }
    (first, rises)
}

#[test]
fn hints_never_fall_beside_rising_posts(rt: HostRuntime) -> Result<(), Fail> {
    let (mut writer, mut reader) = start_one(&rt, rt.alloc())?;
    fits_threads(&writer, &reader);
    let at = Meeting {
        found_one: AtomicBool::new(false),
        ended: AtomicBool::new(false),
    };
    let ((first, rises), posted) = join_mut(
        &rt,
        &mut || never_falls(&rt, &mut reader, &at),
        &mut || post_all(&rt, &mut writer, &at),
    );
    let last = reader.hint(8);
    writer.end(&rt);
    posted?;
    assert!(rt; rises);
    assert!(rt; matches!(first, Some(node) if node < LAST / 2));
    assert_eq!(rt; last, Some(LAST));
    Ok(())
}

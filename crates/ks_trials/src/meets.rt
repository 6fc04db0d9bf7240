//! Trials in which one caller is stopped within a call until others have acted: what that call then returns.
use crate::calls::{Answer, Op};
use crate::scripts::Script;
use crate::trial::{Due, Trial};
use crate::trials::{WHOLE, decided_at, gated};
use ks_gate::Point::{self, Begin, Decided, Given, Taken};
use ks_shape::{Later, PutLater};
use std::alloc::{AllocError, Global};

/// One call of each kind.
const EACH: [Op; 5] = [Op::Get, Op::Put(3), Op::Add(3), Op::Swap(3, 4), Op::Del];

/// Those that are no put and no add.
const NO_FILL: [Op; 3] = [Op::Get, Op::Swap(3, 4), Op::Del];

/// How many keys there are at most.
const KEYS: usize = 32;

/// The answer of a call that was put off.
fn later(cause: Later) -> Answer {
    Err(PutLater::Later(cause))
}

/// A trial that begins with a script, in which callers are stopped in this order; as many calls are put off.
fn meet_after(
    alloc: Global,
    nodes: u32,
    first: Script,
    parts: Vec<Script>,
    points: Vec<(u32, Point)>,
    put_off: u64,
) -> Result<Trial, AllocError> {
    let mut scripts = Vec::new(alloc);
    scripts.push(first)?;
    for part in parts {
        scripts.push(part)?;
    }
    let mut last = Script::of(alloc, 1);
    last.empty(KEYS)?;
    scripts.push(last)?;
    let due = Due {
        put_off: Some(put_off),
        ..WHOLE
    };
    gated(alloc, nodes, KEYS, 1, scripts, points, due)
}

/// Such a trial over the keys below `keys`.
fn meet(
    alloc: Global,
    nodes: u32,
    keys: usize,
    parts: Vec<Script>,
    points: Vec<(u32, Point)>,
    put_off: u64,
) -> Result<Trial, AllocError> {
    let mut first = Script::of(alloc, 1);
    first.fill(keys)?;
    meet_after(alloc, nodes, first, parts, points, put_off)
}

/// Caller 0 is stopped at the point at which it holds node 1 and nothing else, until caller 1 has tried a call of each kind at
/// a key there, and has found a key of node 2: so a get that has come to its leaf does not hold the root.
pub(crate) fn busy(alloc: Global, at: Point) -> Result<Trial, AllocError> {
    let mut held = Script::of(alloc, 1);
    held.returns(0, Op::Get, decided_at(18, Some(0)))?;
    let mut tried = Script::of(alloc, 1);
    for op in EACH {
        tried.try_returns(0, op, later(Later::Busy { node: 1, holder: 0 }))?;
    }
    tried.try_returns(16, Op::Get, decided_at(17, Some(16)))?;
    let points = vec![in alloc; (0, at), (1, Begin), (1, Decided(17)), (0, at)]?;
    meet(alloc, 64, 17, vec![in alloc; held, tried]?, points, 5)
}

/// The keys below 24 are in nodes 1 and 2, and caller 0 splits node 2, which is full, by putting the next key. The first call
/// of caller 1 is at the last key of that node. It has released the root, and is stopped until caller 0 has split.
fn split(alloc: Global, meant: Script, put_off: u64) -> Result<Trial, AllocError> {
    let mut splits = Script::of(alloc, 1);
    splits.returns(24, Op::Put(24), decided_at(24, None))?;
    splits.returns(0, Op::Get, decided_at(25, Some(0)))?;
    let points = vec![in alloc; (1, Given(0)), (0, Begin), (0, Decided(25)), (1, Given(0))]?;
    meet(
        alloc,
        64,
        24,
        vec![in alloc; splits, meant]?,
        points,
        put_off,
    )
}

/// By giving up a try of each kind is put off, and a call of each kind that waits is decided after the split.
pub(crate) fn splits_by_giving_up(alloc: Global, into: &mut Vec<Trial>) -> Result<(), AllocError> {
    for op in EACH {
        let mut tried = Script::of(alloc, 1);
        tried.try_returns(23, op, later(Later::Moved { node: 2 }))?;
        tried.try_returns(23, Op::Get, decided_at(26, Some(23)))?;
        into.push(split(alloc, tried, 1)?)?;
    }
    for op in EACH {
        let mut waits = Script::of(alloc, 1);
        waits.returns(23, op, decided_at(26, Some(23)))?;
        into.push(split(alloc, waits, 0)?)?;
    }
    Ok(())
}

/// Along links each moves right: it is decided after the split, and no try is put off.
pub(crate) fn splits_along_links(alloc: Global, into: &mut Vec<Trial>) -> Result<(), AllocError> {
    for op in EACH {
        let mut tried = Script::of(alloc, 1);
        tried.try_returns(23, op, decided_at(26, Some(23)))?;
        into.push(split(alloc, tried, 0)?)?;
        let mut waits = Script::of(alloc, 1);
        waits.returns(23, op, decided_at(26, Some(23)))?;
        into.push(split(alloc, waits, 0)?)?;
    }
    Ok(())
}

/// By lock coupling caller 1 holds node 2 when it has released the root: a put that is to split the node comes after it.
pub(crate) fn splits_by_coupling(alloc: Global, into: &mut Vec<Trial>) -> Result<(), AllocError> {
    for op in NO_FILL {
        let mut splits = Script::of(alloc, 1);
        splits.returns(24, Op::Put(24), decided_at(25, None))?;
        let mut waits = Script::of(alloc, 1);
        waits.returns(23, op, decided_at(24, Some(23)))?;
        let points = vec![in alloc; (1, Given(0)), (0, Begin), (0, Taken(0)), (1, Given(0))]?;
        into.push(meet(alloc, 64, 24, vec![in alloc; splits, waits]?, points, 0)?)?;
    }
    Ok(())
}

/// The keys below 17 are in nodes 1 and 2. The del of key 0 merges them, and the root takes over all; with `again` a put lets
/// the root grow again, and node 2 has other keys. The first call of caller 1 is at key 8. It has released the root, and has
/// the number of node 2, when it is stopped until all that is done.
fn merged(alloc: Global, again: bool, meant: Script, put_off: u64) -> Result<Trial, AllocError> {
    let mut merges = Script::of(alloc, 1);
    merges.returns(0, Op::Del, decided_at(17, Some(0)))?;
    if again {
        merges.returns(17, Op::Put(17), decided_at(18, None))?;
    } else {
        merges.returns(17, Op::Get, decided_at(18, None))?;
    }
    merges.returns(1, Op::Get, decided_at(19, Some(1)))?;
    let points = vec![in alloc; (1, Given(0)), (0, Begin), (0, Decided(19)), (1, Given(0))]?;
    meet(
        alloc,
        64,
        17,
        vec![in alloc; merges, meant]?,
        points,
        put_off,
    )
}

/// By giving up: the node is free, or has other keys, when the call comes to it.
pub(crate) fn merges_by_giving_up(alloc: Global, into: &mut Vec<Trial>) -> Result<(), AllocError> {
    for again in [false, true] {
        for op in EACH {
            let mut tried = Script::of(alloc, 1);
            tried.try_returns(8, op, later(Later::Moved { node: 2 }))?;
            tried.try_returns(8, Op::Get, decided_at(20, Some(8)))?;
            into.push(merged(alloc, again, tried, 1)?)?;
            let mut waits = Script::of(alloc, 1);
            waits.returns(8, op, decided_at(20, Some(8)))?;
            into.push(merged(alloc, again, waits, 0)?)?;
        }
    }
    Ok(())
}

/// Puts five keys in a binary tree of five nodes, and deletes two of them, so that beside a leaf with key 10 node 1 is a fork
/// over leaves with keys 0 and 1; the latter is node 4. The del of key 0 merges the leaves, node 1 takes that over, and is
/// merged into the root, which takes over all. The first call of caller 1 is at key 1. It has released node 1, and has the
/// number of node 4, when it is stopped until all that is done.
fn merged_below(alloc: Global, meant: Script, put_off: u64) -> Result<Trial, AllocError> {
    let mut merges = Script::of(alloc, 1);
    merges.returns(0, Op::Del, decided_at(7, Some(7)))?;
    merges.returns(10, Op::Get, decided_at(8, Some(7)))?;
    let points = vec![in alloc; (1, Given(1)), (0, Begin), (0, Decided(8)), (1, Given(1))]?;
    let mut first = Script::of(alloc, 1);
    for key in [0, 10, 20, 1, 2] {
        first.call(key, Op::Put(7))?;
    }
    for key in [20, 2] {
        first.call(key, Op::Del)?;
    }
    meet_after(
        alloc,
        5,
        first,
        vec![in alloc; merges, meant]?,
        points,
        put_off,
    )
}

/// By giving up: the node below the root is free when the call comes to it. A try of each kind is put off, and a call of each
/// kind that waits is decided after the merge.
pub(crate) fn merges_below_by_giving_up(
    alloc: Global,
    into: &mut Vec<Trial>,
) -> Result<(), AllocError> {
    for op in EACH {
        let mut tried = Script::of(alloc, 1);
        tried.try_returns(1, op, later(Later::Moved { node: 4 }))?;
        tried.try_returns(1, Op::Get, decided_at(9, Some(7)))?;
        into.push(merged_below(alloc, tried, 1)?)?;
        let mut waits = Script::of(alloc, 1);
        waits.returns(1, op, decided_at(9, Some(7)))?;
        into.push(merged_below(alloc, waits, 0)?)?;
    }
    Ok(())
}

/// Over a list of five nodes caller 2 merges nodes 0 and 1, and caller 0 splits node 4, whose upper half becomes node 1,
/// while caller 1 searches from node 2 for key 23.
fn far(alloc: Global, op: Op, points: Vec<(u32, Point)>) -> Result<Trial, AllocError> {
    let mut splits = Script::of(alloc, 1);
    splits.returns(24, Op::Put(24), decided_at(26, None))?;
    splits.returns(0, Op::Get, decided_at(27, None))?;
    let mut tried = Script::of(alloc, 1);
    tried.try_returns(23, op, later(Later::Far))?;
    let mut merges = Script::of(alloc, 1);
    merges.returns(0, Op::Del, decided_at(24, Some(0)))?;
    merges.returns(1, Op::Get, decided_at(25, Some(1)))?;
    meet(
        alloc,
        5,
        24,
        vec![in alloc; splits, tried, merges]?,
        points,
        1,
    )
}

/// By lock coupling nobody overtakes: caller 0 is ahead of caller 1 and holds nodes 3 and 4, and caller 2 behind it.
pub(crate) fn far_by_coupling(alloc: Global, into: &mut Vec<Trial>) -> Result<(), AllocError> {
    for op in NO_FILL {
        let points = vec![in alloc;
            (0, Given(2)),
            (1, Begin),
            (1, Given(1)),
            (2, Begin),
            (2, Decided(25)),
            (0, Taken(4)),
            (0, Decided(27)),
            (1, Given(1)),
        ]?;
        into.push(far(alloc, op, points)?)?;
    }
    Ok(())
}

/// By giving up caller 1 holds nothing when it is stopped.
pub(crate) fn far_by_giving_up(alloc: Global, into: &mut Vec<Trial>) -> Result<(), AllocError> {
    for op in EACH {
        let points = vec![in alloc;
            (1, Given(2)),
            (2, Begin),
            (2, Decided(25)),
            (0, Begin),
            (0, Decided(27)),
            (1, Given(2)),
        ]?;
        into.push(far(alloc, op, points)?)?;
    }
    Ok(())
}

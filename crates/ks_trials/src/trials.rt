//! Trials of any nodes: over a wide arena, over one that is full, and with many callers at once.
use crate::board::Board;
use crate::calls::{Answer, Op};
use crate::order::InOrder;
use crate::scripts::Script;
use crate::trial::{Due, Trial};
use ks_gate::Point;
use ks_shape::{Numbered, PutLater};
use std::alloc::{AllocError, Global};

/// The answer of a call that was decided.
pub(crate) fn decided_at(number: u64, found: Option<u128>) -> Answer {
    Ok(Numbered { number, found })
}

/// The answer of a call that was full.
fn full_at(number: u64) -> Answer {
    Err(PutLater::Full { number })
}

/// No call is full or put off. How many nodes are live or were made free is not tested.
pub(crate) const WHOLE: Due = Due {
    fulls: Some(0),
    put_off: Some(0),
    live: None,
    freed: None,
};

/// Nothing is due.
const ANY: Due = Due {
    fulls: None,
    put_off: None,
    live: None,
    freed: None,
};

/// A trial of these scripts, with callers stopped in this order.
pub(crate) fn gated(
    alloc: Global,
    nodes: u32,
    keys: usize,
    stride: u64,
    scripts: Vec<Script>,
    points: Vec<(u32, Point)>,
    due: Due,
) -> Result<Trial, AllocError> {
    let mut calls = 0usize;
    for script in scripts.iter() {
        calls = calls.saturating_add(script.steps.len());
    }
    Ok(Trial {
        nodes,
        stride,
        keys,
        scripts,
        gate: InOrder::of(points),
        board: Board::of(alloc, calls)?,
        due,
    })
}

/// The keys are put, calls of all kinds are made, and all keys are deleted, so that nodes are merged if the technique merges.
/// Then the keys are put and deleted again. No call is full or put off.
pub(crate) fn wide(
    alloc: Global,
    nodes: u32,
    keys: usize,
    stride: u64,
    live: Option<u64>,
) -> Result<Trial, AllocError> {
    let mut first = Script::of(alloc, stride);
    first.fill(keys)?;
    first.draw(1, keys, keys, false)?;
    first.empty(keys)?;
    let mut again = Script::of(alloc, stride);
    again.fill(keys)?;
    let mut last = Script::of(alloc, stride);
    last.empty(keys)?;
    let due = Due { live, ..WHOLE };
    gated(
        alloc,
        nodes,
        keys,
        stride,
        vec![in alloc; first, again, last]?,
        Vec::new(alloc),
        due,
    )
}

/// After the first `fits` keys there is no room for the next: it is full, in each way of putting it. Calls of all other kinds
/// are made. Then the keys are deleted and put again, and the next is full again.
pub(crate) fn full(
    alloc: Global,
    nodes: u32,
    fits: usize,
    stride: u64,
    live: Option<u64>,
) -> Result<Trial, AllocError> {
    let mut first = Script::of(alloc, stride);
    first.fill(fits)?;
    let mut over = Script::of(alloc, stride);
    let number = fits as u64;
    over.returns(fits, Op::Put(7), full_at(number))?;
    over.returns(fits, Op::Add(7), full_at(number.wrapping_add(1)))?;
    over.try_returns(fits, Op::Put(7), full_at(number.wrapping_add(2)))?;
    over.try_returns(fits, Op::Add(7), full_at(number.wrapping_add(3)))?;
    over.returns(fits, Op::Get, decided_at(number.wrapping_add(4), None))?;
    over.returns(0, Op::Put(8), decided_at(number.wrapping_add(5), Some(0)))?;
    over.try_returns(0, Op::Put(9), decided_at(number.wrapping_add(6), Some(8)))?;
    over.try_returns(0, Op::Add(8), decided_at(number.wrapping_add(7), Some(9)))?;
    over.returns(
        0,
        Op::Swap(9, u128::MAX),
        decided_at(number.wrapping_add(8), Some(9)),
    )?;
    over.try_returns(
        0,
        Op::Swap(9, 1),
        decided_at(number.wrapping_add(9), Some(u128::MAX)),
    )?;
    over.try_returns(
        0,
        Op::Swap(u128::MAX, 0),
        decided_at(number.wrapping_add(10), Some(u128::MAX)),
    )?;
    over.try_returns(0, Op::Get, decided_at(number.wrapping_add(11), Some(0)))?;
    over.empty(fits)?;
    let mut last = Script::of(alloc, stride);
    last.fill(fits)?;
    last.call(fits, Op::Put(7))?;
    last.empty(fits)?;
    let due = Due {
        fulls: Some(5),
        live,
        ..WHOLE
    };
    gated(
        alloc,
        nodes,
        fits.saturating_add(1),
        stride,
        vec![in alloc; first, over, last]?,
        Vec::new(alloc),
        due,
    )
}

/// These keys are put and some are deleted: compaction makes `freed` nodes free, and leaves `live`.
pub(crate) fn thinned(
    alloc: Global,
    nodes: u32,
    put: &[usize],
    deleted: &[usize],
    live: u64,
    freed: u64,
) -> Result<Trial, AllocError> {
    let mut first = Script::of(alloc, 1);
    for at in 0..put.len() {
        first.call(put[at], Op::Put(1))?;
    }
    for at in 0..deleted.len() {
        first.call(deleted[at], Op::Del)?;
    }
    let none = Script::of(alloc, 1);
    let last = Script::of(alloc, 1);
    let due = Due {
        live: Some(live),
        freed: Some(freed),
        ..WHOLE
    };
    gated(
        alloc,
        nodes,
        32,
        1,
        vec![in alloc; first, none, last]?,
        Vec::new(alloc),
        due,
    )
}

/// The first `many` keys are put and some are deleted: compaction makes `freed` nodes free, and leaves `live`.
pub(crate) fn held(
    alloc: Global,
    nodes: u32,
    many: usize,
    stride: u64,
    deleted: &[usize],
    live: u64,
    freed: u64,
) -> Result<Trial, AllocError> {
    let mut first = Script::of(alloc, stride);
    first.fill(many)?;
    for at in 0..deleted.len() {
        first.call(deleted[at], Op::Del)?;
    }
    let none = Script::of(alloc, stride);
    let last = Script::of(alloc, stride);
    let due = Due {
        live: Some(live),
        freed: Some(freed),
        ..WHOLE
    };
    gated(
        alloc,
        nodes,
        many,
        stride,
        vec![in alloc; first, none, last]?,
        Vec::new(alloc),
        due,
    )
}

/// Drawn calls of many callers at once over keys that they share; with `grows` most of them put or add.
fn crowd(
    alloc: Global,
    nodes: u32,
    callers: u64,
    keys: usize,
    stride: u64,
    many: usize,
    grows: bool,
    due: Due,
) -> Result<Trial, AllocError> {
    let mut scripts = Vec::new(alloc);
    let mut first = Script::of(alloc, stride);
    first.fill(keys / 2)?;
    scripts.push(first)?;
    for caller in 0..callers {
        let mut script = Script::of(alloc, stride);
        script.draw(caller.wrapping_add(2), keys, many, grows)?;
        scripts.push(script)?;
    }
    let mut last = Script::of(alloc, stride);
    last.empty(keys)?;
    scripts.push(last)?;
    gated(alloc, nodes, keys, stride, scripts, Vec::new(alloc), due)
}

/// Crowds of four callers, over nodes that suffice and over too few, and one of 64.
pub(crate) fn crowds(
    alloc: Global,
    into: &mut Vec<Trial>,
    few: u32,
    stride: u64,
    live: Option<u64>,
) -> Result<(), AllocError> {
    let whole = Due {
        fulls: Some(0),
        put_off: None,
        live,
        freed: None,
    };
    into.push(crowd(alloc, 512, 4, 40, stride, 400, false, whole)?)?;
    into.push(crowd(alloc, few, 4, 80, stride, 400, true, Due { live, ..ANY })?)?;
    into.push(crowd(alloc, 1024, 64, 200, stride, 40, false, whole)?)?;
    Ok(())
}

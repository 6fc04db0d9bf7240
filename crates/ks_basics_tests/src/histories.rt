//! Worked histories.

use crate::wrong::Wrong;
use ks_history::{Answered, BoxedFew, Op, Reply, Verdict, legal, lists_span, map_after};
use ks_keysets::{Few, Pair};
use std::alloc::{AllocError, Global};
use std::collections::BTreeMap;

/// A reply, of which a part's pairs are in a table.
#[derive(Clone, Copy)]
enum Replied {
    Nothing,
    Value(u128),
    Full,
    Listed(&'static [(u64, u128)]),
    Kept,
}

/// A history with its verdict.
#[derive(Clone, Copy)]
struct Worked {
    calls: &'static [(Op, Replied)],
    verdict: Verdict,
    /// The pairs of the map that the calls leave, if that is looked at.
    left: Option<&'static [(u64, u128)]>,
}

/// The list of these pairs, of which there are sixteen at most.
fn few_of(pairs: &[(u64, u128)]) -> Few {
    let mut few = Few::new();
    for &(place, value) in pairs {
        if few.len() < 16 {
            few.push(Pair { place, value });
        }
    }
    few
}

fn reply_of(alloc: Global, replied: Replied) -> Result<Reply, AllocError> {
    Ok(match replied {
        Replied::Nothing => Reply::Nothing,
        Replied::Value(value) => Reply::Value(value),
        Replied::Full => Reply::Full,
        Replied::Listed(pairs) => Reply::Listed(BoxedFew::new(alloc, few_of(pairs))?),
        Replied::Kept => Reply::Kept,
    })
}

fn calls_of(alloc: Global, rows: &[(Op, Replied)]) -> Result<Vec<Answered>, AllocError> {
    let mut calls = Vec::new(alloc);
    for &(op, replied) in rows {
        let reply = reply_of(alloc, replied)?;
        calls.push(Answered { op, reply })?;
    }
    Ok(calls)
}

/// Whether the map has these pairs and no other.
fn has_pairs(map: &BTreeMap<u64, u128>, pairs: &[(u64, u128)]) -> bool {
    if map.len() != pairs.len() {
        return false;
    }
    for (place, value) in pairs {
        if map.get(place).copied() != Some(*value) {
            return false;
        }
    }
    true
}

/// Judges the history of a row.
fn judge(alloc: Global, row: usize, worked: &Worked) -> Result<(), Wrong> {
    let calls = calls_of(alloc, worked.calls)?;
    let verdict = legal(alloc, &calls)?;
    if verdict != worked.verdict {
        return Err(Wrong::Verdict { row, verdict });
    }
    if let Some(pairs) = worked.left {
        if !has_pairs(&map_after(alloc, &calls)?, pairs) {
            return Err(Wrong::Row(row));
        }
    }
    Ok(())
}

/// Judges the history of each row.
fn judge_each(alloc: Global, rows: &[Worked]) -> Result<(), Wrong> {
    for (row, worked) in rows.iter().enumerate() {
        judge(alloc, row, worked)?;
    }
    Ok(())
}

static REPLAYED: [Worked; 2] = [
    Worked {
        calls: &[
            (Op::Put(5, 50), Replied::Nothing),
            (Op::Put(6, 60), Replied::Full),
            (Op::Get(5), Replied::Value(50)),
        ],
        verdict: Verdict::Legal,
        left: Some(&[(5, 50)]),
    },
    Worked {
        calls: &[],
        verdict: Verdict::Legal,
        left: None,
    },
];

#[test]
fn replays_a_history(rt: HostRuntime) -> Result<(), Wrong> {
    judge_each(rt.alloc(), &REPLAYED)
}

static WRONG: [Worked; 2] = [
    Worked {
        calls: &[
            (Op::Put(5, 50), Replied::Nothing),
            (Op::Get(5), Replied::Nothing),
            (Op::Get(5), Replied::Full),
        ],
        verdict: Verdict::Wrong { number: 1 },
        left: None,
    },
    Worked {
        calls: &[(Op::Get(5), Replied::Full)],
        verdict: Verdict::Wrong { number: 0 },
        left: None,
    },
];

#[test]
fn names_the_first_wrong_reply(rt: HostRuntime) -> Result<(), Wrong> {
    judge_each(rt.alloc(), &WRONG)
}

static ADDED: [Worked; 1] = [Worked {
    calls: &[
        (Op::Add(5, 1), Replied::Nothing),
        (Op::Add(5, 2), Replied::Value(1)),
        (Op::Add(6, 2), Replied::Full),
        (Op::Swap(5, 1, 7), Replied::Value(1)),
        (Op::Swap(5, 1, 0), Replied::Value(7)),
        (Op::Swap(6, 1, 0), Replied::Nothing),
        (Op::Del(5), Replied::Value(7)),
        (Op::Get(5), Replied::Nothing),
    ],
    verdict: Verdict::Legal,
    left: Some(&[]),
}];

#[test]
fn adds_where_nothing_stands_and_swaps_what_stands(rt: HostRuntime) -> Result<(), Wrong> {
    judge_each(rt.alloc(), &ADDED)
}

/// Two places, pairs, and whether these are what the map has from the one place to the other.
type Listing = (u64, u64, &'static [(u64, u128)], bool);

static MAP: [(u64, u128); 3] = [(5, 50), (6, 60), (9, 90)];

static LISTINGS: [Listing; 7] = [
    (4, 8, &[(5, 50)], false),
    (4, 8, &[(5, 50), (6, 60)], true),
    (4, 8, &[(5, 50), (6, 60), (9, 90)], false),
    (5, 9, &[(5, 50), (6, 60), (9, 90)], true),
    (4, 8, &[(5, 50), (6, 61)], false),
    (8, 4, &[], true),
    (8, 4, &[(5, 50), (6, 60), (9, 90)], false),
];

/// The map of these pairs.
fn map_of(alloc: Global, pairs: &[(u64, u128)]) -> Result<BTreeMap<u64, u128>, AllocError> {
    let mut map = BTreeMap::new(alloc);
    for &(place, value) in pairs {
        map.insert(place, value)?;
    }
    Ok(map)
}

/// Lists the spans of each row in the map of these pairs.
fn list_each(alloc: Global, pairs: &[(u64, u128)], rows: &[Listing]) -> Result<(), Wrong> {
    let map = map_of(alloc, pairs)?;
    for (row, &(low, last, pairs, listed)) in rows.iter().enumerate() {
        if lists_span(&map, low, last, &few_of(pairs)) != listed {
            return Err(Wrong::Row(row));
        }
    }
    Ok(())
}

#[test]
fn lists_what_the_map_has_from_one_place_to_another(rt: HostRuntime) -> Result<(), Wrong> {
    list_each(rt.alloc(), &MAP, &LISTINGS)
}

static MOVED: [Worked; 2] = [
    Worked {
        calls: &[
            (Op::Put(5, 50), Replied::Nothing),
            (Op::Move(5, 6), Replied::Value(50)),
            (Op::Move(5, 7), Replied::Nothing),
            (Op::Put(7, 70), Replied::Nothing),
            (Op::Move(6, 7), Replied::Kept),
            (Op::Move(6, 6), Replied::Kept),
            (Op::Move(6, 8), Replied::Full),
        ],
        verdict: Verdict::Legal,
        left: Some(&[(6, 50), (7, 70)]),
    },
    Worked {
        calls: &[
            (Op::Put(5, 50), Replied::Nothing),
            (Op::Put(6, 60), Replied::Nothing),
            (Op::Move(5, 6), Replied::Value(50)),
        ],
        verdict: Verdict::Wrong { number: 2 },
        left: None,
    },
];

#[test]
fn a_move_takes_out_and_puts_in_at_once(rt: HostRuntime) -> Result<(), Wrong> {
    judge_each(rt.alloc(), &MOVED)
}

static PARTS: [Worked; 2] = [
    Worked {
        calls: &[
            (Op::Put(5, 50), Replied::Nothing),
            (Op::Put(9, 90), Replied::Nothing),
            (Op::Part(0, 8), Replied::Listed(&[(5, 50)])),
            (Op::Part(0, 9), Replied::Listed(&[])),
        ],
        verdict: Verdict::Wrong { number: 3 },
        left: None,
    },
    Worked {
        calls: &[(Op::Part(5, 5), Replied::Nothing)],
        verdict: Verdict::Wrong { number: 0 },
        left: None,
    },
];

#[test]
fn a_part_has_the_pairs_of_its_places(rt: HostRuntime) -> Result<(), Wrong> {
    judge_each(rt.alloc(), &PARTS)
}

#[test]
fn a_reply_is_32_bytes(rt: HostRuntime) {
    assert!(rt; std::mem::size_of::<Reply>() == 32);
    assert!(rt; std::mem::size_of::<(u64, Reply)>() == 48);
}

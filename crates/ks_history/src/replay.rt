//! The map after a history of calls, and whether the history is legal: the calls are made again on a map that is empty at
//! first, and each reply is compared with what the map has before its call.

ghost use Rattle.std.specs.Prelude.{ℕ, ◌≡◌, ◌↔◌, IsTrue, IfOk, OnOk};
ghost use Rattle.std.specs.Ordering.{nat_cmp};
ghost use Rattle.std.specs.BTreeMap.{get};
ghost use Rattle.ks_history.specs.Write.{map_with, written};
ghost use Rattle.ks_history.specs.Map.{IsAnswer, map_after};
ghost use Rattle.ks_history.specs.Verdict.{IsVerdict};

use crate::{Answered, Op, Reply, lists_span, reply_of, reply_of_move};
use std::alloc::{AllocError, Global};
use std::collections::BTreeMap;

/// Whether a history is legal, or else the position of the first reply that is wrong.
#[derive(Clone, Copy, Debug, PartialEq, Eq)]
pub enum Verdict {
    Legal,
    Wrong { number: u64 },
}

/// The map that these calls leave, from the empty one on.
pub fn map_after(alloc: Global, calls: &[Answered]) -> Result<BTreeMap<u64, u128>, AllocError>
    ensures map { IfOk result (λ m. (p : ℕ) → get nat_cmp m p ≡ map_after calls.now p) }
{
    let mut map = BTreeMap::new(alloc);
    for call in calls {
        make(&mut map, call)?;
    }
    Ok(map)
}

/// Writes what the call with this reply writes.
fn make(map: &mut BTreeMap<u64, u128>, call: &Answered) -> Result<(), AllocError>
    ensures ok { OnOk result
        ((p : ℕ) → get nat_cmp map.new p ≡ map_with (get nat_cmp map.old) (written call.now.op call.now.reply) p) }
{
    match call.op {
        Op::Get(_) => {}
        Op::Put(place, value) => match call.reply {
            Reply::Full => {}
            _ => {
                map.insert(place, value)?;
            }
        },
        Op::Del(place) => {
            map.remove(&place);
        }
        Op::Add(place, value) => match call.reply {
            Reply::Nothing => {
                map.insert(place, value)?;
            }
            _ => {}
        },
        Op::Swap(place, old, new) => match call.reply {
            Reply::Value(found) if found == old => {
                map.insert(place, new)?;
            }
            _ => {}
        },
        Op::Part(_, _) => {}
        Op::Move(from, to) => match call.reply {
            Reply::Value(value) => {
                map.remove(&from);
                map.insert(to, value)?;
            }
            _ => {}
        },
    }
    Ok(())
}

/// Whether the reply is the map's, or a Full where the operation may have it.
fn is_answer(map: &BTreeMap<u64, u128>, call: &Answered) -> bool
    ensures { IsTrue result ↔ IsAnswer (get nat_cmp map.now) call.now.op call.now.reply }
{
    match call.op {
        Op::Get(place) => call.reply == reply_of(map.get(&place).copied()),
        Op::Put(place, _) => {
            call.reply == Reply::Full || call.reply == reply_of(map.get(&place).copied())
        }
        Op::Del(place) => call.reply == reply_of(map.get(&place).copied()),
        Op::Add(place, _) => {
            call.reply == Reply::Full || call.reply == reply_of(map.get(&place).copied())
        }
        Op::Swap(place, _, _) => call.reply == reply_of(map.get(&place).copied()),
        Op::Part(low, last) => match &call.reply {
            Reply::Listed(pairs) => lists_span(map, low, last, pairs.few()),
            _ => false,
        },
        Op::Move(from, to) => {
            call.reply == Reply::Full
                || call.reply == reply_of_move(map.get(&from).copied(), map.get(&to).copied())
        }
    }
}

/// Whether the calls are legal, or else the least position whose reply is not that of the map after the calls before it.
/// Only a Put, an Add or a Move may have the reply Full.
pub fn legal(alloc: Global, calls: &[Answered]) -> Result<Verdict, AllocError>
    ensures verdict { IfOk result (λ v. IsVerdict calls.now v) }
{
    let mut map = BTreeMap::new(alloc);
    for (number, call) in calls.iter().enumerate() {
        if !is_answer(&map, call) {
            return Ok(Verdict::Wrong {
                number: number as u64,
            });
        }
        make(&mut map, call)?;
    }
    Ok(Verdict::Legal)
}

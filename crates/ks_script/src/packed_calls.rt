//! The lines of one caller in little room: 8 bytes for a Get or a Del of a key below 2^32, and for a Put of a key below
//! 2^24 and a value below 2^32; of others 8 bytes say where they are in a list.

ghost use Rattle.std.specs.Prelude.{ℕ, ◌≡◌, ◌<◌, List, [], ◌∷◌, ◌++◌, length, slice_index_or, IfOk, IfSome, OnOk, OnErr};
ghost use Rattle.ks_script.specs.Words.{Get, Call, call_in, IsCallIn, KeepsCalls};

use crate::packed::{joined, kept_at, parts};
use ks_history::Op;
use ks_lines::Line;
use std::alloc::{AllocError, Global};
use std::marker::Model;

/// A short call, or the place of a longer one in a list.
#[derive(Clone, Copy, Debug, PartialEq, Eq)]
pub enum SmallCall {
    Get(u32),
    /// The upper 8 and the lower 16 bits of the key, and the value.
    Put(u8, u16, u32),
    Del(u32),
    LongGet(u32),
    LongPut(u32),
    LongDel(u32),
    Other(u32),
}

const _: () = prove!(size_of::<SmallCall>() == 8);

/// The longer lines of one caller.
#[derive(Drop)]
pub struct LongCalls {
    /// The key and the value of a Put of a value below 2^64; the key of a Get or a Del.
    pairs: Vec<(u64, u64)>,
    /// All others.
    others: Vec<Line>,
}

/// The lines of one caller, each of which asks for a call or for a scan, in their order.
#[derive(Drop)]
pub struct Calls {
    small: Vec<SmallCall>,
    long: LongCalls,
}

impl Model for Calls {
    ghost use Rattle.std.specs.Prelude.{List, map, All};
    ghost use Rattle.ks_lines.specs.declared.Line.{Line};
    ghost use Rattle.ks_script.specs.PackedCalls.{call_in, IsCallIn};

    ghost Value = { List Line };

    ghost view = { λ c. map (call_in c.long) c.small.items };

    ghost invariant = { λ c. All (IsCallIn c.long) c.small.items };
}

// The small call that is this one, if it is short.
#[inline(always)]
fn small_of(line: Line) -> Option<SmallCall>
    ensures stands { IfSome result (λ s. (long : LongCalls) → call_in long s ≡ line) }
    ensures fits { IfSome result (λ s. (long : LongCalls) → IsCallIn long s) }
{
    match line {
        Line::Call(Op::Get(key)) => Some(SmallCall::Get(u32::try_from(key).ok()?)),
        Line::Call(Op::Put(key, value)) => {
            let (high, low) = parts(key)?;
            Some(SmallCall::Put(high, low, u32::try_from(value).ok()?))
        }
        Line::Call(Op::Del(key)) => Some(SmallCall::Del(u32::try_from(key).ok()?)),
        Line::Call(_) | Line::Scan(..) => None,
    }
}

impl LongCalls {
    ghost use Rattle.ks_script.specs.declared.packed_calls.LongCalls.{LongCalls};

    // The small call that represents this one, which is kept if it is longer.
    #[inline(always)]
    fn small_for(&mut self, line: Line) -> Result<SmallCall, AllocError>
        ensures stands { IfOk result (λ s. call_in self.new s ≡ line) }
        ensures fits { IfOk result (IsCallIn self.new) }
        ensures others { KeepsCalls self.old self.new }
    {
        if let Some(small) = small_of(line) {
            return Ok(small);
        }
        let pairs = &mut self.pairs;
        match line {
            Line::Call(Op::Get(key)) => Ok(SmallCall::LongGet(kept_at(pairs, (key, 0))?)),
            Line::Call(Op::Put(key, value)) if value <= u64::MAX as u128 => {
                Ok(SmallCall::LongPut(kept_at(pairs, (key, value as u64))?))
            }
            Line::Call(Op::Del(key)) => Ok(SmallCall::LongDel(kept_at(pairs, (key, 0))?)),
            Line::Call(_) | Line::Scan(..) => Ok(SmallCall::Other(kept_at(
                &mut self.others,
                line,
            )?)),
        }
    }
}

impl Calls {
    pub fn new(alloc: Global) -> Calls
        ensures { result ≡ [] }
    {
        Calls {
            small: Vec::new(alloc),
            long: LongCalls {
                pairs: Vec::new(alloc),
                others: Vec::new(alloc),
            },
        }
    }

    /// With room for `count` lines.
    pub fn with_capacity(alloc: Global, count: usize) -> Result<Calls, AllocError>
        ensures { IfOk result (λ calls. calls ≡ []) }
    {
        let mut calls = Calls::new(alloc);
        calls.small.reserve_exact(count)?;
        Ok(calls)
    }

    /// Puts a line behind the others. If memory runs out all stays as it was.
    #[inline(always)]
    pub fn push(&mut self, line: Line) -> Result<(), AllocError>
        ensures ok { OnOk result (self.new ≡ self.old ++ line ∷ []) }
        ensures err { OnErr result (self.new ≡ self.old) }
    {
        let small = self.long.small_for(line)?;
        self.small.push(small)?;
        Ok(())
    }

    #[inline(always)]
    pub fn len(&self) -> usize
        ensures { result ≡ length self.now }
    {
        self.small.len()
    }

    /// These lines, each by itself.
    pub fn to_lines(&self, alloc: Global) -> Result<Vec<Line>, AllocError>
        ensures { IfOk result (λ lines. lines.items ≡ self.now) }
    {
        let mut lines = Vec::with_capacity(alloc, self.len())?;
        for at in 0..self.len() {
            lines.push(self.get(at))?;
        }
        Ok(lines)
    }

    /// The line at a place.
    #[inline(always)]
    pub fn get(&self, at: usize) -> Line
        requires { at < length self.now }
        ensures { result ≡ slice_index_or self.now at (Call (Get 0)) }
    {
        let op = match self.small[at] {
            SmallCall::Get(key) => Op::Get(u64::from(key)),
            SmallCall::Put(high, low, value) => Op::Put(joined(high, low), u128::from(value)),
            SmallCall::Del(key) => Op::Del(u64::from(key)),
            SmallCall::LongGet(at) => Op::Get(self.long.pairs[at as usize].0),
            SmallCall::LongPut(at) => {
                let (key, value) = self.long.pairs[at as usize];
                Op::Put(key, u128::from(value))
            }
            SmallCall::LongDel(at) => Op::Del(self.long.pairs[at as usize].0),
            SmallCall::Other(at) => return self.long.others[at as usize],
        };
        Line::Call(op)
    }
}

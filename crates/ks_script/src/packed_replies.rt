//! What is said to one caller in little room: 8 bytes for a reply without a value of a number below 2^32, and for one of a
//! number below 2^24 with a value below 2^32. All else is kept whole, beside 8 bytes that say where.

ghost use Rattle.std.specs.Prelude.{ℕ, ◌≡◌, ◌^◌, ◌<◌, List, [], ◌∷◌, ◌++◌, length, All, IfOk, IfSome, IfNone, OnOk, OnErr};
ghost use Rattle.ks_script.specs.Words.{Said, said_at, said_in, IsSaidIn, KeepsReplies, IsPlain, IsPrintable, IsOfCall, number_of};
ghost use Rattle.ks_lines.specs.declared.Said.TheVariants.{Call, Scan};

use crate::packed::{joined, kept_at, parts};
use ks_history::Reply;
use ks_lines::{Parts, Said, Scanned};
use std::alloc::{AllocError, Global};
use std::marker::Model;

/// A short reply, or the place of what is said else.
#[derive(Clone, Copy, Debug, PartialEq, Eq)]
pub enum SmallReply {
    Nothing(u32),
    /// The upper 8 and the lower 16 bits of the number, and the value.
    Value(u8, u16, u32),
    Full(u32),
    Other(u32),
}

const _: () = prove!(size_of::<SmallReply>() == 8);

/// What is said to one caller, in the order of its lines: the number and the reply of a call, or the parts of a scan.
#[derive(Drop)]
pub struct Replies {
    small: Vec<SmallReply>,
    others: Vec<Said>,
}

impl Model for Replies {
    ghost use Rattle.std.specs.Prelude.{List, map, All};
    ghost use Rattle.ks_lines.specs.declared.Said.{Said};
    ghost use Rattle.ks_script.specs.PackedReplies.{said_in, IsSaidIn};

    ghost Value = { List Said };

    ghost view = { λ r. map (said_in r.others.items) r.small.items };

    ghost invariant = { λ r. All (IsSaidIn r.others.items) r.small.items };
}

// The number and the plain reply of a call, made anew.
#[inline(always)]
fn again(said: &Said) -> (u64, Reply)
    requires plain { IsPrintable said.now }
    requires call { IsOfCall said.now }
    ensures said { said.now ≡ Call result.0 result.1 }
    ensures plain { IsPlain result.1 }
{
    match said {
        Said::Call(number, Reply::Nothing) => (*number, Reply::Nothing),
        Said::Call(number, Reply::Value(value)) => (*number, Reply::Value(*value)),
        Said::Call(number, Reply::Full) => (*number, Reply::Full),
        Said::Call(number, Reply::Kept) => (*number, Reply::Kept),
        Said::Call(_, Reply::Listed(_)) | Said::Scan(..) => unreachable!(),
    }
}

// The small entry that is this one, if it is short.
#[inline(always)]
fn small_of(said: &Said) -> Option<SmallReply>
    ensures stands { IfSome result (λ s. (others : List Said) → said_in others s ≡ said.now) }
    ensures fits { IfSome result (λ s. (others : List Said) → IsSaidIn others s) }
{
    match said {
        Said::Call(number, Reply::Nothing) => Some(SmallReply::Nothing(u32::try_from(
            *number,
        ).ok()?)),
        Said::Call(number, Reply::Value(value)) => {
            let (high, low) = parts(*number)?;
            Some(SmallReply::Value(high, low, u32::try_from(*value).ok()?))
        }
        Said::Call(number, Reply::Full) => Some(SmallReply::Full(u32::try_from(*number).ok()?)),
        Said::Call(_, Reply::Listed(_) | Reply::Kept) | Said::Scan(..) => None,
    }
}

// The small entry that represents this one, which is kept among the others if it is not short.
#[inline(always)]
fn small_for(others: &mut Vec<Said>, said: Said) -> Result<SmallReply, AllocError>
    requires { IsPrintable said }
    ensures stands { IfOk result (λ s. said_in others.new.items s ≡ said) }
    ensures fits { IfOk result (IsSaidIn others.new.items) }
    ensures others { KeepsReplies others.old.items others.new.items }
{
    if let Some(small) = small_of(&said) {
        return Ok(small);
    }
    Ok(SmallReply::Other(kept_at(others, said)?))
}

impl Replies {
    pub fn new(alloc: Global) -> Replies
        ensures { result ≡ [] }
    {
        Replies {
            small: Vec::new(alloc),
            others: Vec::new(alloc),
        }
    }

    /// With room for `count` entries.
    pub fn with_capacity(alloc: Global, count: usize) -> Result<Replies, AllocError>
        ensures { IfOk result (λ replies. replies ≡ []) }
    {
        let mut replies = Replies::new(alloc);
        replies.small.reserve_exact(count)?;
        Ok(replies)
    }

    /// What is said, packed. Each entry is moved, so that none is left to be dropped.
    pub fn from_said(alloc: Global, said: Vec<Said>) -> Result<Replies, AllocError>
        requires { All IsPrintable said.items }
        ensures { IfOk result (λ packed. packed ≡ said.items) }
    {
        let mut packed = Replies::with_capacity(alloc, said.len())?;
        for entry in said {
            packed.push(entry)?;
        }
        Ok(packed)
    }

    /// Puts an entry behind the others. If memory runs out all stays as it was.
    #[inline(always)]
    pub fn push(&mut self, said: Said) -> Result<(), AllocError>
        requires { IsPrintable said }
        ensures ok { OnOk result (self.new ≡ self.old ++ said ∷ []) }
        ensures err { OnErr result (self.new ≡ self.old) }
    {
        let small = small_for(&mut self.others, said)?;
        self.small.push(small)?;
        Ok(())
    }

    #[inline(always)]
    pub fn len(&self) -> usize
        ensures { result ≡ length self.now }
    {
        self.small.len()
    }

    /// The parts of a scan and where it stopped, if the entry at a place is of a scan.
    #[inline(always)]
    pub fn scan_at(&self, at: usize) -> Option<(&Parts, Scanned)>
        requires { at < length self.now }
        ensures some { IfSome result (λ x. said_at self.now at ≡ Scan x.0.now x.1) }
        ensures none { IfNone result (IsOfCall (said_at self.now at)) }
    {
        let SmallReply::Other(at) = self.small[at] else {
            return None;
        };
        match &self.others[at as usize] {
            Said::Scan(parts, stop) => Some((parts, *stop)),
            Said::Call(..) => None,
        }
    }

    /// The number of the call at a place.
    #[inline(always)]
    pub fn number_at(&self, at: usize) -> u64
        requires within { at < length self.now }
        requires call { IsOfCall (said_at self.now at) }
        ensures { result ≡ number_of (said_at self.now at) }
    {
        match self.small[at] {
            SmallReply::Nothing(number) | SmallReply::Full(number) => u64::from(number),
            SmallReply::Value(high, low, _) => joined(high, low),
            SmallReply::Other(at) => match &self.others[at as usize] {
                Said::Call(number, _) => *number,
                Said::Scan(..) => unreachable!(),
            },
        }
    }

    /// The number and the reply of the call at a place.
    #[inline(always)]
    pub fn call_at(&self, at: usize) -> (u64, Reply)
        requires within { at < length self.now }
        requires call { IsOfCall (said_at self.now at) }
        ensures said { said_at self.now at ≡ Call result.0 result.1 }
        ensures plain { IsPlain result.1 }
        ensures few { length self.now < 2 ^ 64 }
    {
        match self.small[at] {
            SmallReply::Nothing(number) => (u64::from(number), Reply::Nothing),
            SmallReply::Value(high, low, value) => {
                (joined(high, low), Reply::Value(u128::from(value)))
            }
            SmallReply::Full(number) => (u64::from(number), Reply::Full),
            SmallReply::Other(at) => again(&self.others[at as usize]),
        }
    }
}

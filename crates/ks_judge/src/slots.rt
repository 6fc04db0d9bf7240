//! For each number the caller one of whose lines carries it, found in one pass over all lines.

ghost use Rattle.std.specs.Prelude.{ℕ, ◌≡◌, ◌<◌, ◌≤◌, ◌+◌, ◌^◌, [], ◌++◌, List, length, slice_index_or, IfOk};
ghost use Rattle.ks_history.specs.declared.Reply.{Reply};
ghost use Rattle.ks_lines.specs.declared.Scanned.{Scanned};
ghost use Rattle.ks_lines.specs.declared.Said.TheVariants.{Scan};
ghost use Rattle.ks_judge.specs.Judgment.{Lines, carriers};
ghost use Rattle.ks_judge.specs.Flat.{replies_of, lines_said};
ghost use Rattle.ks_judge.specs.Slots.{Carries, Notes, slot_in, carriers_to, if_carries, noted_slot};

use ks_lines::Part;
use ks_script::Replies;
use std::alloc::{AllocError, Global};

/// Which lines carry a number: none, one of this caller, or more than one.
#[derive(Clone, Copy, Debug, PartialEq, Eq)]
pub enum Slot {
    Empty,
    One { caller: u32 },
    Many,
}

/// A slot in 4 bytes: 0 for none, the greatest number for more than one, and else the caller's number and 1.
#[derive(Clone, Copy, Debug, PartialEq, Eq)]
pub struct PackedSlot {
    code: u32,
}

// More than one line.
const MANY: u32 = u32::MAX;

/// What the slot says.
#[inline(always)]
pub fn told_by(slot: PackedSlot) -> Slot
    ensures { result ≡ slot_in slot }
{
    match slot.code {
        0 => Slot::Empty,
        MANY => Slot::Many,
        code => Slot::One { caller: code - 1 },
    }
}

/// The slot when one line more carries its number.
#[inline(always)]
fn noted(slot: PackedSlot, caller: u32) -> PackedSlot
    requires { caller < 4294967294 }
    ensures { slot_in result ≡ noted_slot (slot_in slot) caller }
{
    if slot.code == 0 {
        return PackedSlot { code: caller + 1 };
    }
    PackedSlot { code: MANY }
}

/// Notes a line of the caller in the slot of its number, if there is one.
#[inline(always)]
fn note(slots: &mut [PackedSlot], number: u64, caller: u32)
    requires { caller < 4294967294 }
    ensures { (lines : Lines) (j : ℕ) (P : ℕ → List (ℕ × ℕ)) → Carries lines caller j number →
        Notes lines slots.old P → Notes lines slots.new (λ n. P n ++ if_carries number n (caller, j)) }
{
    if number < slots.len() as u64 {
        let at = number as usize;
        slots[at] = noted(slots[at], caller);
    }
}

/// Notes the parts of a scan of the caller.
fn note_parts(slots: &mut [PackedSlot], parts: &[Part], caller: u32)
    requires { caller < 4294967294 }
    ensures { (lines : Lines) (front back : List (ℕ × Reply)) (stop : Scanned) → caller < length lines →
        slice_index_or lines caller [] ≡ front ++ (replies_of (Scan parts.now stop) ++ back) →
        Notes lines slots.old (carriers_to lines caller (length front)) →
        Notes lines slots.new (carriers_to lines caller (length front + length parts.now)) }
{
    'parts: for at in 0..parts.len() {
        note(slots, parts[at].number, caller);
    }
}

/// Notes the lines of one caller.
fn note_caller(slots: &mut [PackedSlot], callers: &[Replies], caller: u32)
    requires which { caller < length callers.now }
    requires small { caller < 4294967294 }
    requires noted { Notes (lines_said callers.now) slots.old (carriers_to (lines_said callers.now) caller 0) }
    ensures { Notes (lines_said callers.now) slots.new (carriers_to (lines_said callers.now) (caller + 1) 0) }
{
    let said = &callers[caller as usize];
    for at in 0..said.len() {
        match said.scan_at(at) {
            Some((parts, _)) => note_parts(slots, parts.as_slice(), caller),
            None => note(slots, said.number_at(at), caller),
        }
    }
}

/// For each number below `count` whose lines carry it. More callers than 32 bits can number take more
/// memory than there is.
pub fn slots(
    alloc: Global,
    callers: &[Replies],
    count: usize,
) -> Result<Vec<PackedSlot>, AllocError>
    ensures count { IfOk result (λ v. length v.items ≡ count) }
    ensures noted { IfOk result
        (λ v. Notes (lines_said callers.now) v.items (carriers (lines_said callers.now))) }
{
    let mut slots = vec![in alloc; PackedSlot { code: 0 }; count]?;
    for caller in 0..callers.len() {
        let Ok(number) = u32::try_from(caller) else {
            return Err(AllocError);
        };
        if number >= MANY - 1 {
            return Err(AllocError);
        }
        note_caller(&mut slots, callers, number);
    }
    Ok(slots)
}

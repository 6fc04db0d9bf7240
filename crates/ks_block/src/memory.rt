//! Memory for a fixed number of pairs, with the right to free it.
//!
//! A contract sees a `Memory` as the list of its places, each empty or holding a pair. It is not `Drop`, and only
//! `Source::give_back` consumes it: so it can be neither forgotten nor freed twice.
ghost use Rattle.std.specs.Prelude.{◌≡◌, ◌+◌, ◌<◌, ◌≤◌, ◌++◌, Some, None, length, take, drop, replicate, get_or, slice_set, IfOk};
ghost use Rattle.ks_block.specs.Places.{IsFilled, IsRun, run, spliced, raised, lowered};

use crate::cells::{Cells, Deed, allocate, deallocate};
use std::alloc::{AllocError, Global};
use std::marker::Model;

/// A place and a value.
pub type Pair = (u64, u128);

/// Memory for pairs.
pub struct Memory {
    cells: Cells<Pair>,
    deed: Deed<Pair, Global>,
    room: usize,
}

impl Model for Memory {
    ghost use Rattle.std.specs.Prelude.{◌≡◌, ◌≤◌, ℕ, List, Option, length};
    ghost use denote.RawPtr.{count_of};

    ghost Value = { List (Option (ℕ × ℕ)) };

    ghost view = { λ m. m.cells.slots };

    ghost invariant = { λ m. (m.deed.at ≡ m.cells.base) × (m.deed.len ≡ m.room) × (length m.cells.slots ≡ m.room)
        × (m.room ≤ 1024) × (count_of m.cells.base ≡ 0) };
}

/// Where blocks take their memory: `Global` in programs, others in tests.
pub trait Source: Drop {
    /// Takes memory with `room` empty places, or fails if memory runs out.
    fn take_memory(&self, room: usize) -> Result<Memory, AllocError>
        requires { room ≤ 1024 }
        ensures { IfOk result (λ m. m ≡ replicate room None) };

    /// Frees memory, whatever it holds.
    fn give_back(&self, memory: Memory);
}

impl Source for Global {
    fn take_memory(&self, room: usize) -> Result<Memory, AllocError> {
        let (cells, deed) = allocate(self, room)?;
        Ok(Memory {
            cells,
            deed: deed.located(),
            room,
        })
    }

    fn give_back(&self, memory: Memory) {
        let Memory { cells, deed, room } = memory;
        deallocate(self, room, cells, deed);
    }
}

impl Memory {
    /// Returns the number of places.
    pub(crate) fn room(&self) -> usize
        ensures { result ≡ length self.now }
    {
        self.room
    }

    /// Fills the empty place `at`.
    pub(crate) fn write(&mut self, at: usize, pair: Pair)
        requires { (at < length self.old) × (get_or self.old at None ≡ None) }
        ensures { self.new ≡ slice_set self.old at (Some pair) }
    {
        self.cells.write(at, pair);
    }

    /// Moves the pair at `at` out, which leaves the place empty.
    pub(crate) fn read(&mut self, at: usize) -> Pair
        requires { IsFilled self.old at }
        ensures value { get_or self.old at None ≡ Some result }
        ensures places { self.new ≡ slice_set self.old at None }
    {
        self.cells.read(at)
    }

    /// Returns a copy of the pair at `at`.
    pub(crate) fn get(&self, at: usize) -> Pair
        requires { IsFilled self.now at }
        ensures { get_or self.now at None ≡ Some result }
    {
        *self.cells.get(at)
    }

    /// Moves the `count` pairs from `at` on up by one place, which leaves the place `at` empty.
    pub(crate) fn raise(&mut self, at: usize, count: usize)
        requires { IsRun self.old at count × (at + count < length self.old)
            × (get_or self.old (at + count) None ≡ None) }
        ensures { self.new ≡ raised self.old at count }
    {
        self.cells.raise(at, count);
    }

    /// Moves the `count` pairs behind the empty place `at` down by one place.
    pub(crate) fn lower(&mut self, at: usize, count: usize)
        requires { (get_or self.old at None ≡ None) × IsRun self.old (at + 1) count }
        ensures { self.new ≡ lowered self.old at count }
    {
        self.cells.lower(at, count);
    }

    /// Moves the `count` pairs from `from` on to the first places of `into`, which are empty.
    pub(crate) fn hand_over(&mut self, from: usize, count: usize, into: &mut Memory)
        requires { IsRun self.old from count × (take count into.old ≡ replicate count None) }
        ensures left { self.new ≡ spliced self.old from count (replicate count None) }
        ensures came { into.new ≡ run self.old from count ++ drop count into.old }
    {
        self.cells.hand_over(from, count, &mut into.cells);
    }
}

//! `Block`, a list of pairs with a room.
ghost use Rattle.std.specs.Prelude.{◌≡◌, ◌-◌, ◌<◌, ◌≤◌, [], length, take, drop, slice_index_or, IfOk};
ghost use Rattle.std.specs.List.{insert, remove};
ghost use Rattle.ks_block.specs.Contents.{contents, with_pairs, set_value};

use crate::memory::{Memory, Pair, Source};
use std::alloc::{AllocError, Global};
use std::marker::Model;

/// A list of pairs of a place and a value, in memory that is taken once and has room for a fixed number of them.
///
/// Only `make` can be refused memory. A drop frees it.
pub struct Block<S: Source = Global> {
    memory: Memory,
    len: usize,
    source: S,
}

impl<S: Source> Model for Block<S> {
    ghost use Rattle.std.specs.Prelude.{◌≡◌, ◌<◌, ◌≤◌, length};
    ghost use Rattle.ks_block.specs.Contents.{Contents, contents};
    ghost use Rattle.ks_block.specs.Filled.{somes, IsFilledFirst};

    ghost Value = { Contents };

    ghost view = { λ b. contents (somes b.memory) (length b.memory) };

    ghost invariant = { λ b. IsFilledFirst b.memory b.len × (0 < length b.memory) × (length b.memory ≤ 1024) };
}

impl<S: Source> Drop for Block<S> {
    fn drop(self) {
        let Block {
            memory,
            len: _,
            source,
        } = self;
        source.give_back(memory);
    }
}

impl<S: Source> Block<S> {
    /// Returns an empty block with room for `room` pairs, or fails if memory runs out.
    pub fn make(alloc: S, room: usize) -> Result<Self, AllocError>
        requires { (0 < room) × (room ≤ 1024) }
        ensures { IfOk result (λ b. b ≡ contents [] room) }
    {
        let memory = alloc.take_memory(room)?;
        Ok(Block {
            memory,
            len: 0,
            source: alloc,
        })
    }

    /// Returns the number of pairs.
    pub fn len(&self) -> usize
        ensures len { result ≡ length self.now.pairs }
        ensures within { (length self.now.pairs ≤ self.now.room) × (self.now.room ≤ 1024) }
    {
        self.len
    }

    /// Returns the most pairs that the block can hold.
    pub fn room(&self) -> usize
        ensures room { result ≡ self.now.room }
        ensures within { (length self.now.pairs ≤ result) × (0 < result) × (result ≤ 1024) }
    {
        self.memory.room()
    }

    /// Returns the pair at the index `at`.
    pub fn get(&self, at: usize) -> Pair
        requires { at < length self.now.pairs }
        ensures { result ≡ slice_index_or self.now.pairs at result }
    {
        self.memory.get(at)
    }

    /// Sets the value of the pair at `at` to `value`. Its place stays.
    pub fn set_value(&mut self, at: usize, value: u128)
        requires { at < length self.old.pairs }
        ensures { self.new ≡ with_pairs self.old (set_value self.old.pairs at value) }
    {
        let (place, _) = self.memory.read(at);
        self.memory.write(at, (place, value));
    }

    /// Removes the pair at `at` and returns it. The later pairs move down by one.
    pub fn remove_at(&mut self, at: usize) -> Pair
        requires { at < length self.old.pairs }
        ensures value { result ≡ slice_index_or self.old.pairs at result }
        ensures rest { self.new ≡ with_pairs self.old (remove self.old.pairs at) }
    {
        let pair = self.memory.read(at);
        self.len -= 1;
        self.memory.lower(at, self.len - at);
        pair
    }

    /// Inserts `pair` at `at`. The pairs from there on move up by one.
    pub fn insert_at(&mut self, at: usize, pair: Pair)
        requires room { length self.old.pairs < self.old.room }
        requires in_bounds { at ≤ length self.old.pairs }
        ensures { self.new ≡ with_pairs self.old (insert self.old.pairs at pair) }
    {
        self.memory.raise(at, self.len - at);
        self.memory.write(at, pair);
        self.len += 1;
    }

    /// Moves the pairs from `at` on into `into`, which is empty and has room for them.
    pub fn move_tail(&mut self, at: usize, into: &mut Block<S>)
        requires in_bounds { at ≤ length self.old.pairs }
        requires empty { into.old.pairs ≡ [] }
        requires room { length self.old.pairs - at ≤ into.old.room }
        ensures kept { self.new ≡ with_pairs self.old (take at self.old.pairs) }
        ensures moved { into.new ≡ with_pairs into.old (drop at self.old.pairs) }
    {
        let count = self.len - at;
        self.memory.hand_over(at, count, &mut into.memory);
        self.len = at;
        into.len = count;
    }
}

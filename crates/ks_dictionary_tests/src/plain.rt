//! Drawn calls, and a plain map that makes them.
use std::alloc::{AllocError, Global};
use std::collections::BTreeMap;

/// A call, at one key or from one to another.
#[derive(Clone, Copy)]
pub(crate) enum Call {
    Get(u64),
    Put(u64, u128),
    Add(u64, u128),
    Swap(u64, u128, u128),
    Del(u64),
    Move(u64, u64),
}

/// What a call returns: the value that it found or moved, or why a move, a put or an add changed nothing.
#[derive(Clone, Copy, PartialEq, Eq)]
pub(crate) enum Answer {
    Found(Option<u128>),
    Kept,
    Full,
}

/// A number that looks drawn (the mixing step of splitmix64).
fn mixed(seed: u64) -> u64 {
    let first = (seed ^ (seed >> 30)).wrapping_mul(0xBF58_476D_1CE4_E5B9);
    let second = (first ^ (first >> 27)).wrapping_mul(0x94D0_49BB_1331_11EB);
    second ^ (second >> 31)
}

/// A sequence of draws, the same in each run.
#[derive(Clone, Copy)]
pub(crate) struct Draws {
    pub(crate) seed: u64,
}

impl Draws {
    /// The next draw, below `many` where `many` is not 0.
    fn below(&mut self, many: u64) -> u64 {
        self.seed = self.seed.wrapping_add(0x9E37_79B9_7F4A_7C15);
        let draw = mixed(self.seed);
        if many == 0 { 0 } else { draw % many }
    }

    /// A value. There are few, so that swaps find theirs.
    fn value(&mut self) -> u128 {
        u128::from(self.below(3))
    }

    /// A call over keys below `keys`. Of ten, four move, to a key anywhere or to one beside; with `grows` four of the others
    /// put or add, else they delete.
    pub(crate) fn call(&mut self, keys: u64, grows: bool) -> Call {
        let key = self.below(keys);
        match self.below(10) {
            0 | 1 | 2 => Call::Move(key, self.below(keys)),
            3 => Call::Move(key, key ^ 1),
            4 => Call::Get(key),
            5 => Call::Swap(key, self.value(), self.value()),
            6 | 7 if grows => Call::Put(key, self.value()),
            8 | 9 if grows => Call::Add(key, self.value()),
            _ => Call::Del(key),
        }
    }
}

/// A map of one caller.
#[derive(Drop)]
pub(crate) struct Plain {
    pairs: BTreeMap<u64, u128>,
}

impl Plain {
    /// A map without keys.
    pub(crate) fn new(alloc: Global) -> Plain {
        Plain {
            pairs: BTreeMap::new(alloc),
        }
    }

    /// The value of a key.
    pub(crate) fn at(&self, key: u64) -> Option<u128> {
        self.pairs.get(&key).copied()
    }

    /// Whether the call may find no room: it brings a key that has no value.
    fn may_be_full(&self, call: Call) -> bool {
        match call {
            Call::Put(key, _) | Call::Add(key, _) => self.at(key).is_none(),
            Call::Move(from, to) => self.at(from).is_some() && self.at(to).is_none(),
            Call::Get(_) | Call::Swap(_, _, _) | Call::Del(_) => false,
        }
    }

    /// Makes a move.
    fn moves(&mut self, from: u64, to: u64) -> Result<Answer, AllocError> {
        let Some(value) = self.at(from) else {
            return Ok(Answer::Found(None));
        };
        if self.at(to).is_some() {
            return Ok(Answer::Kept);
        }
        self.pairs.remove(&from);
        self.pairs.insert(to, value)?;
        Ok(Answer::Found(Some(value)))
    }

    /// Makes a call for which there is room. A move to the same key is made as a get.
    fn makes(&mut self, call: Call) -> Result<Answer, AllocError> {
        let found = match call {
            Call::Get(key) => self.at(key),
            Call::Put(key, value) => self.pairs.insert(key, value)?,
            Call::Add(key, value) => match self.at(key) {
                Some(old) => Some(old),
                None => self.pairs.insert(key, value)?,
            },
            Call::Swap(key, old, new) => {
                let found = self.at(key);
                if found == Some(old) {
                    self.pairs.insert(key, new)?;
                }
                found
            }
            Call::Del(key) => self.pairs.remove(&key),
            Call::Move(from, to) if from != to => return self.moves(from, to),
            Call::Move(key, _) => self.at(key),
        };
        Ok(Answer::Found(found))
    }

    /// Makes a call that returned this. Returns whether it may: one that is full brings a key, and is not made.
    pub(crate) fn agrees(&mut self, call: Call, answer: Answer) -> Result<bool, AllocError> {
        if answer == Answer::Full {
            return Ok(self.may_be_full(call));
        }
        Ok(self.makes(call)? == answer)
    }
}

//! Operations and replies, traces of events, and what a history of calls must be.
//!
//! A trace is the list of all events of a run, the newest first. From it follow the graph, the turns, the frames and
//! the calls after it. The definitions are in `specs/`, to be read in the order Write, Map, Trace, Lawful, Passes, Due,
//! Done, Served. The other files there are laws that crates above cite.
#![tactic(auto)]

mod boxed;
mod laws;
mod replay;
mod replies;
mod span;

pub use boxed::BoxedFew;
use ks_keysets::Change;
pub use laws::{alone_law, far_law, keyset_theorem, moved_law, stability_law, turn_law, turns_law};
pub use replay::{Verdict, legal, map_after};
pub use replies::{reply_of, reply_of_move};
pub use span::lists_span;

/// What a caller asks of the map. In a trace the first number is a place, and so is the second of a Part and a Move; in
/// scripts and printed runs they are keys.
#[derive(Clone, Copy, Debug, PartialEq, Eq)]
pub enum Op {
    Get(u64),
    Put(u64, u128),
    Del(u64),
    /// Sets the value only if the place has none.
    Add(u64, u128),
    /// Sets the second value only if the place has the first one.
    Swap(u64, u128, u128),
    /// Lists the pairs from the first place to the last one: a part of an ordered scan, decided at one node.
    Part(u64, u64),
    /// Moves the value of the first place to the second one, if that has none. It is decided at two nodes at once, or at
    /// one node that has both places.
    Move(u64, u64),
}

/// The reply to a call: the value that was there before, if any, or that it found no room and no free node. A part has
/// the pairs that it lists, and a move that finds a value at both places replies that it kept both. It is 32 bytes.
#[derive(Debug, PartialEq, Eq, Drop)]
pub enum Reply {
    Nothing,
    Value(u128),
    Full,
    Listed(BoxedFew),
    Kept,
}

/// A call and its reply.
#[derive(Debug, PartialEq, Eq, Drop)]
pub struct Answered {
    pub op: Op,
    pub reply: Reply,
}

/// One event of a trace: what a caller did, by its number, and to which node. No value of it is made; a clause reads
/// an array as a list, of any length.
pub enum Event {
    Take(u32, u32),
    Give(u32, u32),
    Claim(u32, u32),
    Shape(u32, [Change; 0]),
    Call(u32, u32, Op, Reply),
    /// A call at two nodes, which may be the same: what it takes out is at the first one, what it puts in at the second
    /// one.
    Twin(u32, u32, u32, Op, Reply),
}

//! The results of the calls of a dictionary.

/// The number of a call in the one history of all calls, modulo 2^64, and the value that its place had before it.
#[derive(Clone, Copy, Debug, PartialEq, Eq)]
pub struct Numbered {
    pub number: u64,
    pub found: Option<u128>,
}

/// The number of a call in the one history of all calls, modulo 2^64, the value that its place had before it, and where
/// the call was decided.
#[derive(Clone, Copy, Debug, PartialEq, Eq)]
pub struct NumberedAt {
    pub number: u64,
    pub found: Option<u128>,
    /// The node at which the call was decided.
    pub node: u32,
    /// The first place of the range that this node had then.
    pub low: u64,
    /// The last place of that range, which is part of it.
    pub last: u64,
    /// The last branch with the place in its range that the search passed, if it passed one.
    pub above: Option<Above>,
}

/// A branch that a search passed.
#[derive(Clone, Copy, Debug, PartialEq, Eq)]
pub struct Above {
    /// The node of the branch.
    pub node: u32,
    /// The first place of the range that the branch had while the search held it.
    pub low: u64,
    /// The last place of that range, which is part of it.
    pub last: u64,
}

/// The number of a call that found no room for its place, and no free node. It changed nothing in the map.
#[derive(Clone, Copy, Debug, PartialEq, Eq)]
pub struct Full {
    pub number: u64,
}

/// Why a non-blocking call was put off: what happened since the caller's previous call. It made no call of the history
/// and changed nothing in the map, holds no node, and has no number.
#[derive(Clone, Copy, Debug, PartialEq, Eq)]
pub enum Later {
    /// At some moment the node was on the search path of the place, and at some moment the holder, another caller, held
    /// it.
    Busy { node: u32, holder: u32 },
    /// The node was on the search path of the place, later its inset lacked the place, and a Shape of another caller
    /// named it. Only giving up reports it.
    Moved { node: u32 },
    /// The call took at least as many nodes as there are, the root at most twice, and another caller made a Shape. It
    /// is never reported along links.
    Far,
}

/// Why a non-blocking put or add did not put the value.
#[derive(Clone, Copy, Debug, PartialEq, Eq)]
pub enum PutLater {
    /// It found no room for its place, and no free node: it is a call of the history, with this number modulo 2^64, that
    /// changed nothing in the map.
    Full { number: u64 },
    /// It was put off: it is no call of the history.
    Later(Later),
}

/// A move that found a value at its first place, and left both places as they were. It is a call of the history, with this
/// number modulo 2^64.
#[derive(Clone, Copy, Debug, PartialEq, Eq)]
pub enum MoveLeft {
    /// The second place had a value, too.
    Kept { number: u64 },
    /// The second place had none, in another node, which had no room for it, and no free node was found.
    Full { number: u64 },
}

//! What a caller knows of the run. No value of these types is made; a clause reads an array as a list, of any length.
use ks_history::Event;

/// What one seat had seen when another took it in, and its callers.
pub struct Part {
    pub callers: [u32; 0],
    pub seen: [Event; 0],
}

/// Which bit of the free words does not yet, or no longer, agree with the turn of its node.
pub enum Mark {
    Quiet,
    /// The node was claimed, and its bit is still set.
    Claiming(u32),
    /// The node is about to be released as free, and its bit is set already.
    Freeing(u32),
}

/// What a seat knows. `seen` has the newest event first.
pub struct View {
    /// The callers of the seat. A note has none.
    pub callers: [u32; 0],
    pub seen: [Event; 0],
    /// What it took in and has not looked at since.
    pub absorbed: [Part; 0],
    /// How many passes were made, in one view, and 0 in the others.
    pub made: u32,
    pub mark: Mark,
}

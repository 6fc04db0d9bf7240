//! How a node keeps its edges, and how it directs a search.

/// An edge by the place at which it starts: it runs to the next start.
#[derive(Clone, Copy, Debug, Default, PartialEq, Eq)]
pub struct Start {
    pub low: u64,
    pub node: u32,
}

/// Where the search for a place continues.
#[derive(Clone, Copy, Debug, PartialEq, Eq)]
pub enum Next {
    /// At this node: the place is its own.
    Here,
    /// At the node with this number.
    Go(u32),
}

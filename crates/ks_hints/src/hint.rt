//! A hint.

/// Where a call was decided: at this node, whose range then began at `low`, a place.
#[derive(Clone, Copy, Default)]
pub struct Hint {
    pub low: u64,
    pub node: u32,
}

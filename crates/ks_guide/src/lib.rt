//! A guide: one caller's own memory of where its calls were decided.
//!
//! A `Guide` has spans of places, each with the node that a call found there. It says of a place at which node the next
//! call may begin: at a leaf that it noted, or else at a branch. It is one caller's, so nothing in it is shared, and a span
//! that no longer holds costs that call one node taken in vain: a call from a hint is right for every hint.
//!
//! A guide allocates only when it is made. Its leaves are in sets of two, 48 bytes each: a place has its set by a hash
//! of its block, a power of two of neighbouring places. A note halves blocks of at least four times the places of its
//! span: in the end a block has at most four times those of the narrowest leaf, and so meets few leaves. Many notes of
//! wide spans double the blocks. Its branches are a sorted table, 24 bytes each.
#![tactic(auto)]

mod branches;
mod fit;
mod guide;
mod leaves;
mod spot;

pub use fit::fits_threads;
pub use guide::Guide;

#[cfg(test)]
mod tests;

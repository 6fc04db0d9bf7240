//! What the writer or a reader has seen.
use crate::hint::Hint;

/// What the writer or a reader has seen. No value of this type is made; a clause reads an array as a list, of any length.
pub struct View {
    /// The posts that it has seen, newest first.
    pub seen: [Hint; 0],
    /// It is the writer's, and there is a post.
    pub leads: bool,
}

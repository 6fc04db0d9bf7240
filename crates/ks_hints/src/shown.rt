//! What a clause sees of the list that readers take.
use crate::hint::Hint;

/// The list and its newest post, as clauses see them. No value of this type is made; a clause reads an array as a list, of
/// any length.
pub struct Shown {
    pub hints: [Hint; 0],
    pub newest: Hint,
}

//! What a desk knows. No value of this type is made; a clause reads an array as a list, of any length.

/// What a desk knows.
pub struct View {
    /// How many of the 64 parts it has. The parts of all desks are 64 together.
    pub parts: u32,
    /// How many desks have ended, of those whose views it took in, itself with them.
    pub ended: u32,
    /// One more than the number of draws that its last draw found.
    pub known: u64,
    /// The numbers of the desks whose views it has: its own, and those that it took in.
    pub desks: [u64; 0],
    /// How many desks were made, in one view, and 0 in the others.
    pub made: u32,
    /// The tickets that it drew.
    pub drawn: [u64; 0],
    /// Those that are not finished.
    pub held: [u64; 0],
}

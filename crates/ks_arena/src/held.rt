//! What a caller holds.
ghost use Rattle.std.specs.Prelude.{◌≡◌};

use crate::arena::Steps;
use crate::view::View;
use atomic_table::Seat;
use std::marker::PhantomData;
use std::snapshot::Snapshot;

/// What one caller makes its steps with.
#[derive(Drop)]
pub struct Pass<N, D> {
    pub(crate) seat: Seat<Option<N>, View>,
    pub(crate) caller: u32,
    /// The count of the steps on words that its caller made.
    pub(crate) steps: Steps,
    pub(crate) marker: PhantomData<D>,
}

impl<N, D> Pass<N, D> {
    /// The number of its caller.
    pub fn caller(&self) -> u32
        ensures { result ≡ self.now.caller }
    {
        self.caller
    }
}

/// What a pass had seen of the run when the note was made.
#[derive(Drop)]
pub struct Note<N, D> {
    pub(crate) seat: Seat<Option<N>, View>,
    pub(crate) marker: PhantomData<D>,
}

/// A node that a caller holds. A node that is not live becomes free when it is released.
// The body is first: a move then copies it in whole words.
pub struct Held<N> {
    pub body: N,
    pub node: u32,
    pub live: bool,
}

/// A live node that a caller holds, and whose body is left in its slot: a search that goes on reads it there.
pub struct Visited<N> {
    pub node: u32,
    /// What the body is, only for proofs: it takes no bytes.
    pub body: Snapshot<N>,
}

/// The result of a try to take a node.
pub enum Taken<N> {
    Held(Held<N>),
    /// Another caller holds it.
    Busy { holder: u32 },
    /// It is free.
    Gone,
}

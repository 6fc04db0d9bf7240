//! The room for what a reader has read, before the reader is made.
ghost use Rattle.std.specs.Prelude.{◌≡◌, []};

use crate::hint::Hint;
use arrayvec::ArrayVec;

/// Room for a list of hints, on the heap: a reader is small, so a job that holds one is.
#[derive(Drop)]
pub(crate) struct Blank {
    pub(crate) list: Box<ArrayVec<Hint, 64>>,
    ghost blank: { list.value.items ≡ [] },
}

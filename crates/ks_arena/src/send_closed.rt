//! A closed table in a form that may go to another thread, which a `Closed` may not: its memory is its own.
ghost use Rattle.std.specs.Prelude.{◌≡◌, ◌<◌, false, slice_index_or, IsTrue};
ghost use Rattle.std.specs.Slots.{IsFull, slots_items, slots_filled, slots_len};
ghost use mathlib.Core.Option.{some};
ghost use lib.ListN.{get_elem?};

use atomic_table::Closed;
use std::alloc::Global;
use std::marker::{Model, Send};

/// A contract sees the `Closed`.
pub struct SendClosed<S> {
    closed: Closed<S, Global>,
}

impl<S> Model for SendClosed<S> {
    ghost use Rattle.std.specs.Borrow.{ftrue};
    ghost use Rattle.std.specs.declared.alloc.Global.{Global};
    ghost use Rattle.atomic_table.specs.declared.owned.Closed.{Closed};

    ghost Value = { Closed S Global };

    ghost view = { λ s. s.closed };

    // what the field owns is all
    ghost also_owns = { λ _. ftrue };

    ghost also_shares = { λ _ _ _. ftrue };
}

unsafe impl<S: Send> Send for SendClosed<S> {}

impl<S> SendClosed<S> {
    pub(crate) fn of(closed: Closed<S, Global>) -> SendClosed<S>
        ensures { result ≡ closed }
    {
        SendClosed { closed }
    }

    pub(crate) fn into_closed(self) -> Closed<S, Global>
        ensures { result ≡ self }
    {
        let SendClosed { closed } = self;
        closed
    }

    pub(crate) fn slot_count(&self) -> usize
        ensures { result ≡ slots_len self.now.slots }
    {
        self.closed.slot_count()
    }

    pub(crate) fn word(&self, i: usize) -> u64
        requires { (i < slots_len self.now.words) × IsFull self.now.words }
        ensures { get_elem? (slots_items self.now.words) i ≡ some result }
    {
        self.closed.word(i)
    }

    pub(crate) fn get(&self, i: usize) -> &S
        requires { (i < slots_len self.now.slots) × IsTrue (slice_index_or (slots_filled self.now.slots) i false) }
        ensures { result.now ≡ slice_index_or (slots_items self.now.slots) i result.now }
    {
        self.closed.slots.get(i)
    }
}

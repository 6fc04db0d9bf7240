//! The words and the bodies of an arena that has ended.
ghost use Rattle.std.specs.Prelude.{◌≤◌};
ghost use Rattle.std.specs.Slots.{IsFull, slots_len};
ghost use Rattle.std.proofs.Props.{props};
ghost use Rattle.ks_arena.specs.Spots.{turn_at};

use crate::send_closed::SendClosed;

pub struct Remains<N> {
    pub(crate) closed: SendClosed<Option<N>>,
    ghost full: { IsFull closed.words × IsFull closed.slots } by { Prim.hlevel props },
    // the two counts, and a turn word for each node
    ghost wide: { turn_at (slots_len closed.slots) ≤ slots_len closed.words },
}

impl<N: Drop> Drop for Remains<N> {
    fn drop(self) {
        let Remains { closed } = self;
        let mut closed = closed.into_closed();
        let mut i = 0;
        while i < closed.slot_count() {
            drop(closed.take(i));
            i += 1;
        }
        closed.free();
    }
}

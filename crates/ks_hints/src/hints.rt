//! The list that readers take.
ghost use Rattle.ks_hints.specs.Hints.{LowsAscend, after_post};

use crate::hint::Hint;
use crate::search::take_in;
use crate::shown::Shown;
use arrayvec::ArrayVec;
use left_right::Absorb;
use std::alloc::AllocError;

/// The list of hints, in ascending order of their lows, and the newest post.
#[derive(Drop)]
pub struct Hints {
    pub(crate) list: ArrayVec<Hint, 64>,
    pub(crate) newest: Hint,
    ghost ascending: { LowsAscend list.items },
}

impl Absorb<Hint> for Hints {
    type State = Shown;

    ghost state = { λ x. record { hints = x.list.items; newest = x.newest } };

    ghost applied = { λ s h. record { hints = after_post s.hints h; newest = h } };

    ghost never_fails = { Unit {0} };

    fn absorb_first(&mut self, operation: &Hint, _other: &Hints) -> Result<(), AllocError> {
        take_in(&mut self.list, *operation);
        self.newest = *operation;
        Ok(())
    }
}

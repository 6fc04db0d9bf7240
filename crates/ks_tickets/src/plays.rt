//! What each step ensures. These types serve proofs only.
ghost use Rattle.ks_tickets.specs.Rule.{maker_view, next_view, both_views, spent_view};
ghost use Rattle.ks_tickets.specs.Plays.{drawn, closed};

use crate::ticketed::Ticketed;
use crate::view::View;
use atomic_table::{Join, Play, Split};

/// A desk draws.
pub(crate) struct Draws;

impl<J: Ticketed> Play<Option<J>, View> for Draws {
    ghost then = { drawn J.waits };
}

/// A job is finished.
pub(crate) struct Finishes;

impl<J: Ticketed> Play<Option<J>, View> for Finishes {
    ghost then = { closed };
}

/// A desk is made.
pub(crate) struct Next;

impl Split<View> for Next {
    ghost left = { maker_view };

    ghost right = { next_view };
}

/// A seat takes another in.
pub(crate) struct TakeIn;

impl Join<View> for TakeIn {
    ghost both = { both_views };

    ghost spent = { spent_view };
}

//! What holds of the list that is shown, and of what the writer and its readers have seen.
ghost use Rattle.ks_hints.specs.Rule.{AreOfPosts, HasPosted, HasSeen, new_view};

use crate::hints::Hints;
use crate::view::View;
use crossbeam_utils::rule::{Outcome, Protocol};

/// The rule of the list: each reader has seen the first posts up to some post.
pub struct Rule;

impl Protocol<Hints, View> for Rule {
    ghost holds = { AreOfPosts };

    ghost first = { new_view };
}

/// What a post does to the writer's view.
pub(crate) struct Posts;

impl Outcome<Hints, View> for Posts {
    ghost then = { HasPosted };
}

/// What a reading does to a reader's view.
pub(crate) struct Reads;

impl Outcome<Hints, View> for Reads {
    ghost then = { HasSeen };
}

//! The writer, which posts hints.
ghost use Rattle.std.specs.Prelude.{◌≡◌, ◌<◌, [], ◌∷◌, OnOk, OnErr, drop, length, IsTrue};
ghost use Rattle.left_right.specs.Sides.{view};
ghost use Rattle.ks_hints.specs.Hints.{list_after};

use crate::hint::Hint;
use crate::hints::Hints;
use crate::rule::{Posts, Rule};
use crate::view::View;
use core::mem::replace_with;
use left_right::writer::Writer;
use std::alloc::AllocError;
use std::sync::Wait;

/// The one writer of a list of hints. It is not `Drop`: `end` ends it.
pub struct HintWriter {
    pub(crate) writer: Writer<Hints, Hint, View, Rule>,
    /// All posts are shown.
    ghost idle: { drop writer.behind writer.log.items ≡ [] },
    ghost shows: { writer.desk.shown.value.list.items ≡ list_after (view writer.desk.place).seen },
    ghost leads: { 0 < length writer.desk.shown.value.list.items → IsTrue (view writer.desk.place).leads },
}

impl HintWriter {
    ghost use Rattle.ks_hints.specs.Posts.{posts_of, MayShow};

    /// Posts a hint: calls at places from `low` on may be decided at `node`. It waits for readers that still copy the list
    /// from before the post before.
    ///
    /// # Errors
    ///
    /// Only lack of memory. Then nothing was posted.
    pub fn post<R: Wait>(&mut self, rt: &R, low: u64, node: u32) -> Result<(), AllocError>
        ensures ok { OnOk result (posts_of self.new ≡ record { low = low; node = node } ∷ posts_of self.old) }
        ensures err { OnErr result (posts_of self.new ≡ posts_of self.old) }
    {
        if self.writer.append(Hint { low, node }).is_err() {
            return Err(AllocError);
        }
        replace_with(
            &mut self.writer,
            rt,
            |writer, rt|
                requires { MayShow writer }
            { writer.publish_as::<Posts, R>(rt) },
        )
    }

    /// Ends the writer. It waits for readers that copy the list. From then on its readers keep the list that each read last.
    pub fn end<R: Wait>(self, rt: &R) {
        let Self { writer } = self;
        writer.take(rt);
    }
}

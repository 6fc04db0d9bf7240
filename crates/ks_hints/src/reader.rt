//! A reader of hints.
ghost use Rattle.std.specs.Prelude.{◌≡◌, List, ◌++◌};
ghost use Rattle.left_right.specs.Sides.{view};
ghost use Rattle.ks_hints.specs.Hints.{hint_after, list_after};
ghost use Rattle.ks_hints.specs.Rule.{seen_by};

use crate::hint::Hint;
use crate::hints::Hints;
use crate::rule::{Reads, Rule};
use crate::search::nearest;
use crate::view::View;
use arrayvec::ArrayVec;
use left_right::reader::Reader;

/// A reader of the hints that one writer posts. It keeps the list that it read last, at first the empty one.
#[derive(Drop)]
pub struct HintReader {
    /// The place from which it reads; without one each reading counts as refused.
    pub(crate) reader: Option<Reader<Hints, View, Rule>>,
    pub(crate) list: Box<ArrayVec<Hint, 64>>,
    ghost kept: { list.value.items ≡ list_after (seen_by reader) },
}

/// Copies the list that the writer shows; if it shows none, the list stays as it is.
fn read_on(
    reader: Reader<Hints, View, Rule>,
    list: &mut ArrayVec<Hint, 64>,
) -> Reader<Hints, View, Rule>
    requires { list.old.items ≡ list_after (view reader.place).seen }
    ensures later { (rest : List Hint) × ((view result.place).seen ≡ rest ++ (view reader.place).seen) }
    ensures kept { list.new.items ≡ list_after (view result.place).seen }
{
    match reader.enter_as::<Reads>() {
        Ok(reading) => {
            list.clear();
            match list.try_extend_from_slice(reading.get().list.as_slice()) {
                Ok(()) => {}
                Err(_) => unreachable!(),
            }
            reading.leave()
        }
        Err(reader) => reader,
    }
}

impl HintReader {
    ghost use Rattle.ks_hints.specs.Posts.{read_by};

    /// The node of the greatest low that is not above the place, in the list that it read last.
    fn recall(&self, place: u64) -> Option<u32>
        ensures { result ≡ hint_after (read_by self.now) place }
    {
        nearest(self.list.as_slice(), place)
    }

    /// Reads the list that the writer shows, and returns the node of the greatest low that is not above the place; nothing
    /// if all lows are above it, or there is none. If it cannot read, it returns what the list that it read last says. It
    /// does not wait, and never reads an older list than before.
    pub fn hint(&mut self, place: u64) -> Option<u32>
        ensures later { (rest : List Hint) × (read_by self.new ≡ rest ++ read_by self.old) }
        ensures answer { result ≡ hint_after (read_by self.new) place }
    {
        if let Some(reader) = self.reader.take() {
            self.reader = Some(read_on(reader, &mut self.list));
        }
        self.recall(place)
    }
}

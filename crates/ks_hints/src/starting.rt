//! A writer with its readers.
ghost use Rattle.std.specs.Prelude.{◌≡◌, ◌≤◌, [], length, IfOk, vec_capacity};
ghost use Rattle.std.specs.List.{All};
ghost use Rattle.ks_hints.specs.Rule.{IsSeatedAt, seen_by};
ghost use Rattle.ks_hints.specs.Posts.{ReadsFrom, posts_of, read_by};

use crate::blank::Blank;
use crate::hint::Hint;
use crate::hints::Hints;
use crate::reader::HintReader;
use crate::rule::Rule;
use crate::view::View;
use crate::writer::HintWriter;
use arrayvec::ArrayVec;
use left_right::reader::Reader;
use left_right::writer::Writer;
use std::alloc::{AllocError, Global};

/// An empty list.
fn blank() -> Hints
    ensures list { result.list.items ≡ [] }
    ensures newest { result.newest ≡ record { low = 0; node = 0 } }
{
    Hints {
        list: ArrayVec::new(),
        newest: Hint { low: 0, node: 0 },
    }
}

/// Room for the lists of `count` readers.
pub(crate) fn blanks(alloc: Global, count: u32) -> Result<Vec<Blank>, AllocError>
    ensures count { IfOk result (λ v. length v.items ≡ count) }
{
    let mut blanks = Vec::with_capacity(alloc, count as usize)?;
    for _ in 0..count {
        let list: ArrayVec<Hint, 64> = ArrayVec::new();
        blanks.push_reserved(Blank {
            list: Box::new(alloc, list)?,
        });
    }
    Ok(blanks)
}

/// A reader that has read no post, if a place is left for one.
fn reader_of(writer: &Writer<Hints, Hint, View, Rule>) -> Option<Reader<Hints, View, Rule>>
    ensures seen { seen_by result ≡ [] }
    ensures seated { IsSeatedAt writer.now.desk.place.table_id result }
{
    match writer.factory().reader() {
        Ok(reader) => Some(reader),
        Err(_) => None,
    }
}

/// A reader for each room, each with a place as long as there are any.
pub(crate) fn readers_of(
    writer: &Writer<Hints, Hint, View, Rule>,
    blanks: Vec<Blank>,
    into: Vec<HintReader>,
) -> Vec<HintReader>
    requires room { length blanks.items ≤ vec_capacity into }
    requires empty { into.items ≡ [] }
    ensures count { length result.items ≡ length blanks.items }
    ensures reads { All (λ h. read_by h ≡ []) result.items }
    ensures seated { All (λ h. IsSeatedAt writer.now.desk.place.table_id h.reader) result.items }
{
    let mut into = into;
    for blank in blanks {
        let Blank { list } = blank;
        into.push_reserved(HintReader {
            reader: reader_of(writer),
            list,
        });
    }
    into
}

impl Hints {
    /// A writer of an empty list, and as many readers of it as asked.
    ///
    /// # Errors
    ///
    /// Only lack of memory.
    pub fn start(alloc: Global, readers: u32) -> Result<(HintWriter, Vec<HintReader>), AllocError>
        requires { 1 ≤ readers }
        ensures posts { IfOk result (λ r. posts_of r.0 ≡ []) }
        ensures readers { IfOk result (λ r. length r.1.items ≡ readers) }
        ensures reads { IfOk result (λ r. All (λ h. read_by h ≡ []) r.1.items) }
        ensures from { IfOk result (λ r. All (ReadsFrom r.0) r.1.items) }
    {
        let blanks = blanks(alloc, readers)?;
        let into = Vec::with_capacity(alloc, readers as usize)?;
        let Ok(writer) = Writer::new(alloc, blank(), blank(), readers as usize) else {
            return Err(AllocError);
        };
        let readers = readers_of(&writer, blanks, into);
        Ok((HintWriter { writer }, readers))
    }
}

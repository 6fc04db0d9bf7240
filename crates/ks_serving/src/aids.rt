//! What aids the calls of a worker: a guide of its own, or a reader of published hints.
ghost use Rattle.std.specs.Prelude.{◌≡◌, length, IfOk};

use ks_aid::Aid;
use ks_guide::Guide;
use ks_hints::{HintReader, HintWriter};
use ks_shape::NumberedAt;
use std::alloc::{AllocError, Global};
use std::sync::Wait;

/// How many sets of two leaves the guide of a worker has.
const LEAVES: usize = 1024;

/// How many branches it has room for.
const BRANCHES: usize = 4096;

/// An aid of a worker.
pub(crate) trait WorkerAid: Aid {
    /// The caller that the worker began with is served.
    fn has_led(&mut self);
}

impl WorkerAid for Option<Guide> {
    fn has_led(&mut self) {}
}

/// The reader of a worker: a call begins where the newest list of hints that it can read says. It posts where its calls were
/// decided while it has the writer.
#[derive(Drop)]
pub(crate) struct Reader<'a> {
    hints: HintReader,
    writer: Option<&'a mut HintWriter>,
}

impl Aid for Reader<'_> {
    fn hint(&mut self, place: u64) -> Option<u32> {
        self.hints.hint(place)
    }

    // A post for which memory runs out is dropped.
    fn note<R: Wait>(&mut self, rt: &R, _place: u64, at: NumberedAt) {
        if let Some(writer) = &mut self.writer {
            let _ = writer.post(rt, at.low, at.node);
        }
    }
}

impl WorkerAid for Reader<'_> {
    fn has_led(&mut self) {
        self.writer = None;
    }
}

/// As many guides as there are workers, or none for any of them.
///
/// # Errors
///
/// Only lack of memory.
pub(crate) fn guides(
    alloc: Global,
    workers: usize,
    guided: bool,
) -> Result<Vec<Option<Guide>>, AllocError>
    ensures { IfOk result (λ guides. length guides.items ≡ workers) }
{
    let mut guides = Vec::with_capacity(alloc, workers)?;
    for _ in 0..workers {
        let guide = match guided {
            true => Some(Guide::start(alloc, LEAVES, BRANCHES)?),
            false => None,
        };
        guides.push(guide)?;
    }
    Ok(guides)
}

/// The readers, of which the first has the writer.
///
/// # Errors
///
/// Only lack of memory.
pub(crate) fn lent<'a>(
    alloc: Global,
    readers: Vec<HintReader>,
    writer: &'a mut HintWriter,
) -> Result<Vec<Reader<'a>>, AllocError>
    ensures { IfOk result (λ lent. length lent.items ≡ length readers.items) }
{
    let mut lent = Vec::with_capacity(alloc, readers.len())?;
    let mut writer = Some(writer);
    for hints in readers {
        lent.push(Reader {
            hints,
            writer: writer.take(),
        })?;
    }
    Ok(lent)
}

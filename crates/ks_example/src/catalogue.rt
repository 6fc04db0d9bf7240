//! The catalogue, and what its callers do.
ghost use Rattle.std.specs.Prelude.{◌≡◌, ◌<◌, ℕ, length, slice_index_or, IfOk};
ghost use Rattle.guttertide.specs.Words.{
  AddedOnce,
  AreOrderedPassesOf,
  FindsPut,
  IsIdlePassOf,
  SameCaller,
  calls_of,
  history,
  place_in,
  seen_of,
};

use guttertide::{BNode, Boxed, Closed, Coupling, Dictionary, Full, PassOf, kept_law};
use std::alloc::{AllocError, Global};
use std::sync::Wait;
use std::sync::atomic::AtomicU64;
use std::sync::atomic::Ordering::SeqCst;
use std::thread::{Threads, for_each_mut};

/// What the catalogue is made of: the type of its nodes, and the technique by which callers come from one to the next.
/// Other words for these two make another structure of the same catalogue: `HNode` in place of `BNode` a hash table.
pub type Nodes = Boxed<BNode>;

pub type Technique = Coupling;

pub type Catalogue = Dictionary<Nodes, Technique>;

pub type Caller = PassOf<Nodes, Technique>;

/// Callers 0 to 2 are clerks, 3 and 4 readers, and 5 is the keeper.
const CALLERS: u32 = 6;

const NODES: u32 = 256;

/// The numbers that are registered lie below this, and those of old stock from it on.
const NUMBERS: u64 = 100;

/// What the callers count together.
#[derive(Drop)]
pub struct Counts {
    pub registered: AtomicU64,
    pub changed: AtomicU64,
    pub withdrawn: AtomicU64,
}

/// Keeps a catalogue from its start to its end: all callers work at once, and then the first clerk sends the first
/// reader a note. Returns what the reader found, or `Full` if the clerk's entry found no room; what is in the catalogue at
/// last; and all that happened.
///
/// # Errors
///
/// Only lack of memory.
pub fn keep<R: Threads + Wait + Sync>(
    rt: &R,
    alloc: Global,
    counts: &Counts,
) -> Result<(Result<Option<u128>, Full>, Vec<(u64, u128)>, Closed<Nodes>), AllocError>
    ensures once { IfOk result (λ r. AddedOnce (calls_of (history r.2))) }
{
    let (catalogue, mut callers) = Catalogue::start(alloc, NODES, CALLERS)?;
    let told = serve(rt, &catalogue, counts, callers.as_mut_slice());
    catalogue.passes_law();
    let closed = catalogue.close(callers);
    closed.once_law();
    Ok((told, closed.pairs(alloc)?, closed))
}

/// All that callers do: they work at once, and then the first clerk sends the first reader a note.
fn serve<R: Threads + Wait + Sync>(
    rt: &R,
    catalogue: &Catalogue,
    counts: &Counts,
    callers: &mut [Caller],
) -> Result<Option<u128>, Full>
    requires passes { AreOrderedPassesOf catalogue.now callers.old }
    requires some { 3 < length callers.old }
    ensures { AreOrderedPassesOf catalogue.now callers.new }
{
    work_all(rt, catalogue, counts, callers);
    tell_one(rt, catalogue, callers)
}

/// All callers work at once, each on a thread of its own if there is one.
fn work_all<R: Threads + Wait + Sync>(
    rt: &R,
    catalogue: &Catalogue,
    counts: &Counts,
    callers: &mut [Caller],
)
    requires { AreOrderedPassesOf catalogue.now callers.old }
    ensures { AreOrderedPassesOf catalogue.now callers.new }
{
    for_each_mut(
        rt,
        callers,
        CALLERS as usize,
        &|_: usize, caller: &mut Caller|
            requires { IsIdlePassOf catalogue.now caller.old }
            ensures idle { IsIdlePassOf catalogue.entry.now caller.new }
            ensures same { SameCaller caller.old caller.new }
        { work(rt, catalogue, counts, caller) },
    );
}

/// The work of one caller, over all numbers. The keeper then merges what the old stock left, while others go on.
fn work<R: Wait>(rt: &R, catalogue: &Catalogue, counts: &Counts, caller: &mut Caller)
    requires { IsIdlePassOf catalogue.now caller.old }
    ensures idle { IsIdlePassOf catalogue.now caller.new }
    ensures same { SameCaller caller.old caller.new }
{
    for number in 0..NUMBERS {
        attend(rt, catalogue, counts, caller, number);
    }
    if caller.caller() == 5 {
        catalogue.compact(rt, caller);
    }
}

/// What a caller does about one number.
fn attend<R: Wait>(rt: &R, catalogue: &Catalogue, counts: &Counts, caller: &mut Caller, number: u64)
    requires idle { IsIdlePassOf catalogue.now caller.old }
    requires number { number < 100 }
    ensures idle { IsIdlePassOf catalogue.now caller.new }
    ensures same { SameCaller caller.old caller.new }
{
    let who = caller.caller();
    if who < 3 {
        // A clerk registers its own entry, which is kept if it is the first.
        let added = catalogue.add(rt, caller, number, who as u128);
        if matches!(added, Ok(told) if told.found.is_none()) {
            counts.registered.fetch_add(1, SeqCst);
        }
    } else if who < 5 {
        // A reader looks twice: an entry that was found stays.
        let once = catalogue.get(rt, caller, number).found;
        let again = catalogue.get(rt, caller, number).found;
        if once.is_some() && again != once {
            counts.changed.fetch_add(1, SeqCst);
        }
    } else {
        // The keeper takes old stock in, and out again.
        let _full = catalogue.put(rt, caller, NUMBERS + number, 0);
        let taken = catalogue.del(rt, caller, NUMBERS + number).found;
        if taken.is_some() {
            counts.withdrawn.fetch_add(1, SeqCst);
        }
    }
}

/// The first clerk revises an entry, and sends the first reader a note.
fn tell_one<R: Wait>(
    rt: &R,
    catalogue: &Catalogue,
    callers: &mut [Caller],
) -> Result<Option<u128>, Full>
    requires passes { AreOrderedPassesOf catalogue.now callers.old }
    requires some { 3 < length callers.old }
    ensures count { length callers.new ≡ length callers.old }
    ensures idle { (i : ℕ) (d : _) → i < length callers.old →
        IsIdlePassOf catalogue.now (slice_index_or callers.new i d) }
    ensures same { (i : ℕ) (d : _) → i < length callers.old →
        SameCaller (slice_index_or callers.old i d) (slice_index_or callers.new i d) }
{
    let (clerks, readers) = callers.split_at_mut(3);
    tell(rt, catalogue, &mut clerks[0], &mut readers[0], 0, 100)
}

/// The clerk sets an entry and sends the reader a note. The reader then looks the number up: it finds this entry, unless a
/// call between the put and the get changed it.
///
/// # Errors
///
/// `Full` if the entry found no room.
pub fn tell<R: Wait>(
    rt: &R,
    catalogue: &Catalogue,
    clerk: &mut Caller,
    reader: &mut Caller,
    number: u64,
    entry: u128,
) -> Result<Option<u128>, Full>
    requires clerk { IsIdlePassOf catalogue.now clerk.old }
    requires reader { IsIdlePassOf catalogue.now reader.old }
    ensures clerk { IsIdlePassOf catalogue.now clerk.new × SameCaller clerk.old clerk.new }
    ensures reader { IsIdlePassOf catalogue.now reader.new × SameCaller reader.old reader.new }
    ensures finds { IfOk result (λ found.
        FindsPut (place_in catalogue.now number) entry found (calls_of (seen_of reader.new))) }
{
    let _before = catalogue.put(rt, clerk, number, entry)?;
    let note = catalogue.note(clerk);
    catalogue.learn(reader, note);
    let got = catalogue.get(rt, reader, number);
    kept_law();
    catalogue.seen_law(reader);
    Ok(got.found)
}

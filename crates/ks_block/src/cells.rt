//! The memory behind a block: a row of places, each empty or holding a value.
//!
//! `Cells` is the one type of this crate with a pointer. Each of its functions does one thing to the places: it reads,
//! writes or moves values, and its contract says which places are filled before and after. A `Deed` is the right to
//! free the memory, so it can be freed only once.
ghost use Rattle.std.specs.Prelude.{◌≡◌, ℕ, ◌+◌, ◌<◌, List, ◌++◌, Option, Some, None, length, take, drop, replicate, get_or, slice_set, IfOk};
ghost use Rattle.std.specs.Vec.Ownership.{FitsInBlock};
ghost use denote.RawPtr.{Ptr, count_of};
ghost use Rattle.ks_block.specs.Places.{IsFilled, IsRun, run, spliced, raised, lowered};
ghost use Rattle.ks_block.specs.Ownership.{cells_own, cells_lent, deed_owns, IsWhole};

use crate::memory::Pair;
use std::alloc::{AllocError, Allocator, Global};
use std::marker::{Model, PhantomData, Send};
use std::mem::{align_of, size_of};
use std::ptr;

/// A row of places in one piece of memory. A value that is still there when the row goes is forgotten.
pub(crate) struct Cells<T> {
    base: *mut T,
    ghost slots: { List (Option T) },
}

impl<T> Model for Cells<T> {
    ghost also_owns = { λ c. cells_own T.row c.base c.slots };

    ghost also_shares = { λ c _ κ. cells_lent T.row c.base c.slots κ };
}

unsafe impl<T: Send> Send for Cells<T> {}

/// The right to return the memory of `len` places at `at` to `alloc`. It takes no space.
pub(crate) struct Deed<T, A: Allocator> {
    mark: PhantomData<*const (T, A)>,
    ghost at: { Ptr },
    ghost len: { ℕ },
    ghost alloc: { A },
}

impl<T, A: Allocator> Model for Deed<T, A> {
    ghost also_owns = { λ d. deed_owns T.row (A.dealloc_token d.alloc) d.at d.len };
}

unsafe impl<T, A: Allocator + Send> Send for Deed<T, A> {}

impl Deed<Pair, Global> {
    /// Memory of `Global` begins where the allocated object begins.
    pub(crate) fn located(self) -> Deed<Pair, Global>
        ensures { (result ≡ self) × (count_of self.at ≡ 0) }
    {
        let Deed { mark } = self;
        Deed { mark }
    }
}

/// Takes memory for `len` places, all empty.
pub(crate) fn allocate<T, A: Allocator>(
    alloc: &A,
    len: usize,
) -> Result<(Cells<T>, Deed<T, A>), AllocError>
    requires { FitsInBlock T.row len }
    ensures { IfOk result
        (λ r. (r.0.slots ≡ replicate len None) × (r.1.at ≡ r.0.base) × (r.1.len ≡ len) × (r.1.alloc ≡ alloc.now)) }
{
    match alloc.allocate(len * size_of::<T>(), align_of::<T>()) {
        Ok(block) => {
            let base = block as *mut T;
            Ok((Cells { base }, Deed { mark: PhantomData }))
        }
        Err(error) => Err(error),
    }
}

/// Frees the memory.
pub(crate) fn deallocate<T, A: Allocator>(alloc: &A, len: usize, cells: Cells<T>, deed: Deed<T, A>)
    requires { (length cells.slots ≡ len) × (deed.at ≡ cells.base) × (deed.len ≡ len) × (deed.alloc ≡ alloc.now) }
{
    let Cells { base } = cells;
    let Deed { mark: _ } = deed;
    unsafe {
        alloc.deallocate(base as *mut u8, len * size_of::<T>(), align_of::<T>());
    }
}

impl<T> Cells<T> {
    ghost use Rattle.ks_block.specs.Row.{Becomes};

    /// Fills the empty place `at`.
    pub(crate) fn write(&mut self, at: usize, item: T)
        requires { (at < length self.old.slots) × (get_or self.old.slots at None ≡ None) }
        ensures { Becomes self.old self.new (slice_set self.old.slots at (Some item)) }
    {
        unsafe { self.base.add(at).write(item) }
    }

    /// Moves the value at `at` out, which leaves the place empty.
    pub(crate) fn read(&mut self, at: usize) -> T
        requires { IsFilled self.old.slots at }
        ensures { (get_or self.old.slots at None ≡ Some result)
            × Becomes self.old self.new (slice_set self.old.slots at None) }
    {
        unsafe { self.base.add(at).read() }
    }

    /// Shows the value at `at`.
    pub(crate) fn get(&self, at: usize) -> &T
        requires { IsFilled self.now.slots at }
        ensures { get_or self.now.slots at None ≡ Some result.now }
    {
        unsafe { &*self.base.add(at) }
    }

    /// Moves the `count` values from `at` on up by one place, which leaves the place `at` empty.
    pub(crate) fn raise(&mut self, at: usize, count: usize)
        requires whole { IsWhole T.row self.old.base }
        requires run { IsRun self.old.slots at count × (at + count < length self.old.slots)
            × (get_or self.old.slots (at + count) None ≡ None) }
        ensures { Becomes self.old self.new (raised self.old.slots at count) }
    {
        unsafe { ptr::copy(self.base.add(at), self.base.add(at + 1), count) }
    }

    /// Moves the `count` values behind the empty place `at` down by one place.
    pub(crate) fn lower(&mut self, at: usize, count: usize)
        requires whole { IsWhole T.row self.old.base }
        requires run { (get_or self.old.slots at None ≡ None) × IsRun self.old.slots (at + 1) count }
        ensures { Becomes self.old self.new (lowered self.old.slots at count) }
    {
        unsafe { ptr::copy(self.base.add(at + 1), self.base.add(at), count) }
    }

    /// Moves the `count` values from `from` on to the first places of `into`, which are empty.
    pub(crate) fn hand_over(&mut self, from: usize, count: usize, into: &mut Cells<T>)
        requires { IsRun self.old.slots from count × (take count into.old.slots ≡ replicate count None) }
        ensures left { Becomes self.old self.new (spliced self.old.slots from count (replicate count None)) }
        ensures came { Becomes into.old into.new (run self.old.slots from count ++ drop count into.old.slots) }
    {
        unsafe { ptr::copy_nonoverlapping(self.base.add(from), into.base, count) }
    }
}

//! Where callers that wait for the root sleep, and how those that come to it later wake them.
use crossbeam_utils::CachePadded;
use std::sync::Wait;
use std::sync::atomic::AtomicU64;
use std::sync::atomic::Ordering::SeqCst;
use std::time::Duration;

/// The word while no caller may sleep.
const QUIET: u64 = 0;

/// The low half of the word while a caller may sleep, or is about to.
const AWAITED: u32 = 1;

/// What an arrival adds to the word while a caller may sleep: the high half counts arrivals.
const ARRIVAL: u64 = 1 << 32;

/// How many arrivals are counted before the next one wakes a sleeper.
const ARRIVALS_BEFORE_A_RING: u64 = 16;

/// Microseconds after which a sleeper looks again, woken or not.
const LONGEST_SLEEP: u64 = 1_000;

/// A word on a cache line of its own, at which callers sleep.
///
/// A caller that waits for the root sets the word (`await_ring`), looks at the turn once more, and sleeps while the word is
/// set (`sleep`: the system compares it as it puts the caller to sleep). A caller that comes to the root, and would wait for
/// it, reads the word first (`ring`). If it is set, the arrival is counted in it. After 16 of them the next one clears the
/// word and wakes one sleeper, which sets the word again. A caller that is woken contends for the root with those that run,
/// and a wake at each arrival would make all of them wait for one another. No sleeper depends on being woken: each looks
/// again after a millisecond. No contract mentions it.
///
/// A caller that releases the root wakes no sleeper. A non-blocking call releases the root too, and must run where the
/// system's calls to wait and to wake cannot be used, as behind C.
#[derive(Drop)]
pub(crate) struct Bell {
    word: CachePadded<AtomicU64>,
}

impl Bell {
    pub(crate) fn new() -> Bell {
        Bell {
            word: CachePadded::new(AtomicU64::new(QUIET)),
        }
    }

    /// Asks callers that arrive from now on to count their arrivals, and to wake a sleeper. Look at the turn between this and
    /// `sleep`.
    pub(crate) fn await_ring(&self) {
        if self.word.load(SeqCst) % ARRIVAL != AWAITED as u64 {
            self.word.store(AWAITED as u64, SeqCst);
        }
    }

    /// Sleeps until it is woken, for a millisecond at most, or until the system ends the sleep for no reason; not at all if
    /// the word was cleared since `await_ring`. Then it asks again, for those that still sleep.
    pub(crate) fn sleep<R: Wait>(&self, rt: &R) {
        let longest = Duration::from_micros(LONGEST_SLEEP);
        self.word.park_timeout(rt, AWAITED, longest);
        self.await_ring();
    }

    /// Counts an arrival, if a caller may sleep. If 16 were counted before, it wakes one sleeper instead, and clears the word.
    #[inline(always)]
    pub(crate) fn ring(&self) {
        if self.word.load(SeqCst) != QUIET {
            self.count();
        }
    }

    #[cold]
    #[inline(never)]
    fn count(&self) {
        let before = self.word.fetch_add(ARRIVAL, SeqCst);
        if before >= ARRIVALS_BEFORE_A_RING * ARRIVAL && self.word.swap(QUIET, SeqCst) != QUIET {
            self.word.wake_one();
        }
    }
}

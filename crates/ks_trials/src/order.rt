//! A gate for tests, at which several callers pass points in one order.
use ks_gate::{Gate, Point};
use std::sync::atomic::AtomicU64;
use std::sync::atomic::Ordering::SeqCst;
use std::thread::yield_now;

/// How often a stopped caller looks before the gate has failed: more often than any of these tests needs.
const LONG: u64 = 50_000_000;

/// A gate that has callers pass points of their calls in the order of a list. A caller that comes to the point that is its
/// next in the list is stopped there until all before it are passed. If its next after that is the same point, it is stopped
/// again: so a point that is named twice keeps the caller from its first turn to its second. At other points no caller is
/// stopped. A stop takes a limited number of looks; if it ends by the limit, the gate has failed and the caller goes on.
#[derive(Drop)]
pub(crate) struct InOrder {
    points: Vec<(u32, Point)>,
    passed: AtomicU64,
    failures: AtomicU64,
}

impl InOrder {
    /// A gate for this list of callers and points, none of which is passed.
    pub(crate) fn of(points: Vec<(u32, Point)>) -> InOrder {
        InOrder {
            points,
            passed: AtomicU64::new(0),
            failures: AtomicU64::new(0),
        }
    }

    /// Whether nobody is to stop.
    pub(crate) fn is_open(&self) -> bool {
        self.points.is_empty()
    }

    /// Whether all points were passed, and no stop has ended by its limit.
    pub(crate) fn is_passed(&self) -> bool {
        self.failures.load(SeqCst) == 0 && self.passed.load(SeqCst) == self.points.len() as u64
    }

    /// Where the point is in the list, if it is the caller's next there.
    fn turn_of(&self, caller: u32, point: Point) -> Option<u64> {
        let passed = self.passed.load(SeqCst);
        for (turn, next) in self.points.iter().enumerate() {
            if turn as u64 >= passed && next.0 == caller {
                return if next.1 == point {
                    Some(turn as u64)
                } else {
                    None
                };
            }
        }
        None
    }

    /// Waits until it is this turn, and passes.
    fn pass(&self, turn: u64) {
        for _ in 0..LONG {
            if self.passed.load(SeqCst) == turn {
                self.passed.store(turn.wrapping_add(1), SeqCst);
                return;
            }
            yield_now();
        }
        self.failures.store(1, SeqCst);
    }
}

impl Gate for InOrder {
    fn at(&self, caller: u32, point: Point) {
        for _ in 0..self.points.len() {
            match self.turn_of(caller, point) {
                Some(turn) => self.pass(turn),
                None => return,
            }
        }
    }
}

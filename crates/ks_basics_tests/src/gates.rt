use crate::wrong::Wrong;
use ks_gate::{Gate, Meet, NoGate, Point, Stand};
use std::sync::atomic::AtomicU64;
use std::sync::atomic::Ordering::SeqCst;
use std::thread::{Threads, join};

/// More turns than any stop of these tests takes, if the other caller comes at all.
const LONG: u64 = 50_000_000;

/// Passes the points of a call that goes through node 0 to node 1. It returns the call's number.
fn call<G: Gate>(gate: &G, caller: u32, numbers: &AtomicU64) -> u64 {
    gate.at(caller, Point::Begin);
    gate.at(caller, Point::Taken(0));
    gate.at(caller, Point::Taken(1));
    gate.at(caller, Point::Given(0));
    let number = numbers.fetch_add(1, SeqCst);
    gate.at(caller, Point::Decided(number));
    gate.at(caller, Point::Given(1));
    number
}

/// Passes the points of a call that finds node 1 busy.
fn turn_back<G: Gate>(gate: &G, caller: u32) {
    gate.at(caller, Point::Begin);
    gate.at(caller, Point::Taken(0));
    gate.at(caller, Point::Given(0));
}

/// Makes `calls` calls, and returns the number of the last.
fn last_of<G: Gate>(gate: &G, caller: u32, calls: u32, numbers: &AtomicU64) -> u64 {
    let mut last = 0;
    for _ in 0..calls {
        last = call(gate, caller, numbers);
    }
    last
}

/// Caller 0 makes `calls` calls while caller 1 turns back once and makes one. It returns the numbers of their last calls.
fn two<G: Gate + Sync, R: Threads>(rt: &R, gate: &G, calls: u32) -> (u64, u64) {
    let numbers = AtomicU64::new(0);
    join(
        rt,
        || last_of(gate, 0, calls, &numbers),
        || {
            turn_back(gate, 1);
            call(gate, 1, &numbers)
        },
    )
}

/// Caller 0 makes `calls` calls and caller 1 `moves`. It returns the numbers of their last calls.
fn beside<G: Gate + Sync, R: Threads>(rt: &R, gate: &G, calls: u32, moves: u32) -> (u64, u64) {
    let numbers = AtomicU64::new(0);
    join(
        rt,
        || last_of(gate, 0, calls, &numbers),
        || last_of(gate, 1, moves, &numbers),
    )
}

/// A gate that stops callers, each up to a limit.
trait Stopping: Gate {
    /// Whether a stop has ended by its limit.
    fn has_failed(&self) -> bool;
}

impl Stopping for Meet {
    fn has_failed(&self) -> bool {
        self.failed()
    }
}

impl Stopping for Stand {
    fn has_failed(&self) -> bool {
        self.failed()
    }
}

/// Caller 0 makes `calls` calls while caller 1 turns back once and makes one: their last calls have these numbers, and the
/// gate has failed neither before nor after.
fn made_at<R: Threads>(rt: &R, gate: &Meet, calls: u32, wanted: (u64, u64)) -> Result<(), Wrong> {
    not_failed(gate)?;
    are_numbers(two(rt, gate, calls), wanted)?;
    not_failed(gate)
}

fn not_failed<G: Stopping>(gate: &G) -> Result<(), Wrong> {
    if gate.has_failed() {
        Err(Wrong::Failed)
    } else {
        Ok(())
    }
}

fn are_numbers(numbers: (u64, u64), wanted: (u64, u64)) -> Result<(), Wrong> {
    if numbers == wanted {
        Ok(())
    } else {
        Err(Wrong::Numbers(numbers.0, numbers.1))
    }
}

#[test]
fn a_stander_at_its_begin_comes_after_the_mover(rt: HostRuntime) -> Result<(), Wrong> {
    let gate = Meet::of(0, 0, Point::Begin, 1, LONG);
    made_at(&rt, &gate, 1, (1, 0))
}

#[test]
fn a_stander_stands_once_it_has_decided_often_enough(rt: HostRuntime) -> Result<(), Wrong> {
    let gate = Meet::of(0, 17, Point::Given(0), 1, LONG);
    made_at(&rt, &gate, 18, (18, 17))
}

#[test]
fn a_stander_at_a_number_has_drawn_it_before_the_mover(rt: HostRuntime) -> Result<(), Wrong> {
    let gate = Meet::of(0, 1, Point::Decided(2), 1, LONG);
    made_at(&rt, &gate, 3, (2, 3))
}

/// A caller, a point that it passes, and whether the gate has failed then.
type Passed = (u32, Point, bool);

/// Passes each point in turn.
fn pass_each<G: Stopping>(gate: &G, rows: &[Passed]) -> Result<(), Wrong> {
    for (row, &(caller, point, failed)) in rows.iter().enumerate() {
        gate.at(caller, point);
        if gate.has_failed() != failed {
            return Err(Wrong::Row(row));
        }
    }
    Ok(())
}

/// Two calls.
static ALONE: [Passed; 12] = [
    (0, Point::Begin, false),
    (0, Point::Taken(0), false),
    (0, Point::Taken(1), false),
    (0, Point::Given(0), false),
    (0, Point::Decided(0), false),
    (0, Point::Given(1), false),
    (0, Point::Begin, false),
    (0, Point::Taken(0), false),
    (0, Point::Taken(1), false),
    (0, Point::Given(0), true),
    (0, Point::Decided(1), true),
    (0, Point::Given(1), true),
];

#[test]
fn a_stander_without_a_mover_goes_on_after_its_limit(rt: HostRuntime) -> Result<(), Wrong> {
    pass_each(&Meet::of(0, 1, Point::Given(0), 1, 100), &ALONE)
}

static DECIDED: [Passed; 3] = [
    (0, Point::Decided(5), false),
    (0, Point::Decided(6), false),
    (0, Point::Decided(5), true),
];

#[test]
fn the_point_that_makes_up_the_count_is_not_yet_one_to_stand_at(
    rt: HostRuntime,
) -> Result<(), Wrong> {
    pass_each(&Meet::of(0, 1, Point::Decided(5), 1, 100), &DECIDED)
}

static MOVED: [Passed; 3] = [
    (1, Point::Taken(0), false),
    (1, Point::Given(0), false),
    (1, Point::Begin, true),
];

#[test]
fn a_mover_without_a_stander_goes_on_after_its_limit(rt: HostRuntime) -> Result<(), Wrong> {
    pass_each(&Meet::of(0, 0, Point::Begin, 1, 100), &MOVED)
}

/// A call of caller 2, and points of the two others.
static OTHERS: [Passed; 11] = [
    (2, Point::Begin, false),
    (2, Point::Taken(0), false),
    (2, Point::Taken(1), false),
    (2, Point::Given(0), false),
    (2, Point::Decided(0), false),
    (2, Point::Given(1), false),
    (0, Point::Taken(0), false),
    (0, Point::Begin, false),
    (1, Point::Decided(1), false),
    (0, Point::Taken(1), false),
    (1, Point::Begin, false),
];

#[test]
fn others_pass_and_a_stander_waits_for_no_mover_that_went_before(
    rt: HostRuntime,
) -> Result<(), Wrong> {
    pass_each(&Meet::of(0, 0, Point::Taken(1), 1, 1), &OTHERS)
}

#[test]
fn no_gate_keeps_nobody(rt: HostRuntime) {
    let numbers = two(&rt, &NoGate, 1);
    assert!(rt; numbers == (0, 1) || numbers == (1, 0));
}

/// Caller 0 makes 18 calls and caller 1 three: their last calls have these numbers, and the gate has failed neither before
/// nor after.
fn stops_until<R: Threads>(rt: &R, gate: &Stand, wanted: (u64, u64)) -> Result<(), Wrong> {
    not_failed(gate)?;
    are_numbers(beside(rt, gate, 18, 3), wanted)?;
    not_failed(gate)
}

#[test]
fn a_caller_is_stopped_until_another_has_made_as_many_calls(rt: HostRuntime) -> Result<(), Wrong> {
    let gate = Stand::of(0, 17, Point::Given(0), 1, 3, LONG);
    stops_until(&rt, &gate, (20, 19))
}

static TOO_FEW: [Passed; 2] = [(1, Point::Decided(0), false), (0, Point::Taken(1), true)];

#[test]
fn a_stander_for_more_calls_than_the_mover_makes_goes_on_after_its_limit(
    rt: HostRuntime,
) -> Result<(), Wrong> {
    pass_each(&Stand::of(0, 0, Point::Taken(1), 1, 2, 100), &TOO_FEW)
}

static NO_CALL: [Passed; 2] = [(0, Point::Begin, false), (1, Point::Begin, false)];

#[test]
fn a_stander_for_no_call_goes_on_at_once(rt: HostRuntime) -> Result<(), Wrong> {
    pass_each(&Stand::of(0, 0, Point::Begin, 1, 0, 1), &NO_CALL)
}

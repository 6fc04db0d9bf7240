//! What the calls of many callers returned, by their numbers, and whether that is one legal history of a map.
use crate::calls::{Answer, Op};
use crate::scripts::{Script, Step};
use ks_shape::PutLater;
use std::alloc::{AllocError, Global};
use std::sync::atomic::AtomicU64;
use std::sync::atomic::Ordering::SeqCst;

/// How many values a reply has room for, and how many steps a script.
const REPLIES: u64 = 1_073_741_824;

const STEPS: u64 = 1_048_576;

/// Replies in one number: no value, no room, the greatest value, and any other.
const NONE: u64 = 0;

const FULL: u64 = 1;

const GREATEST: u64 = 2;

const VALUE: u64 = 3;

/// What the calls of scripts returned.
#[derive(Drop)]
pub(crate) struct Board {
    /// At each number 1 more than the call that has it, with its reply; 0 where no call has it.
    slots: Vec<AtomicU64>,
    put_off: AtomicU64,
    /// How many times a call returned what it must not, a value or a number that is too large, or a number that another has.
    wrong: AtomicU64,
}

/// What is at the number of a call: its script, its step and its reply.
#[derive(Clone, Copy)]
struct Slot {
    script: usize,
    step: usize,
    reply: u64,
}

fn packed(slot: Slot) -> u64 {
    let call = (slot.script as u64)
        .wrapping_mul(STEPS)
        .wrapping_add(slot.step as u64);
    call.wrapping_mul(REPLIES)
        .wrapping_add(slot.reply)
        .wrapping_add(1)
}

fn unpacked(word: u64) -> Slot {
    let word = word.wrapping_sub(1);
    let call = word / REPLIES;
    Slot {
        script: (call / STEPS) as usize,
        step: (call % STEPS) as usize,
        reply: word % REPLIES,
    }
}

/// The reply of a call that found this.
fn reply_of(found: Option<u128>) -> u64 {
    match found {
        None => NONE,
        Some(u128::MAX) => GREATEST,
        Some(value) => match u64::try_from(value) {
            Ok(value) => value.saturating_add(VALUE),
            Err(_) => u64::MAX,
        },
    }
}

impl Board {
    /// A board for as many calls.
    pub(crate) fn of(alloc: Global, calls: usize) -> Result<Board, AllocError> {
        let mut slots = Vec::new(alloc);
        for _ in 0..calls {
            slots.push(AtomicU64::new(0))?;
        }
        Ok(Board {
            slots,
            put_off: AtomicU64::new(0),
            wrong: AtomicU64::new(0),
        })
    }

    /// Writes a reply down at its number.
    fn write(&self, number: u64, slot: Slot) {
        let word = packed(slot);
        let is_new = match self.slots.get(number as usize) {
            Some(at) => slot.reply < REPLIES && at.swap(word, SeqCst) == 0,
            None => false,
        };
        if !is_new {
            self.wrong.fetch_add(1, SeqCst);
        }
    }

    /// Writes down what a call returned.
    pub(crate) fn note(&self, script: usize, step: usize, must: Option<Answer>, answer: Answer) {
        if let Some(must) = must {
            if answer != must {
                self.wrong.fetch_add(1, SeqCst);
            }
        }
        match answer {
            Ok(done) => {
                let reply = reply_of(done.found);
                self.write(
                    done.number,
                    Slot {
                        script,
                        step,
                        reply,
                    },
                );
            }
            Err(PutLater::Full { number }) => {
                let reply = FULL;
                self.write(
                    number,
                    Slot {
                        script,
                        step,
                        reply,
                    },
                );
            }
            Err(PutLater::Later(_)) => {
                self.put_off.fetch_add(1, SeqCst);
            }
        }
    }

    /// How many calls were put off.
    pub(crate) fn put_off(&self) -> u64 {
        self.put_off.load(SeqCst)
    }

    /// Whether a call returned what it must not.
    fn is_wrong(&self) -> bool {
        self.wrong.load(SeqCst) > 0
    }
}

/// A plain map, and how far the scripts have come, as a history is read.
#[derive(Drop)]
pub(crate) struct Replay {
    pub(crate) map: Vec<Option<u128>>,
    /// Of each script the first step that is still to come.
    next: Vec<usize>,
    /// How many calls were read, and how many of them were full.
    pub(crate) calls: u64,
    pub(crate) fulls: u64,
}

/// What a call leaves at its key, which had `found`.
fn left(op: Op, found: Option<u128>) -> Option<u128> {
    match op {
        Op::Get => found,
        Op::Put(value) => Some(value),
        Op::Add(value) => match found {
            None => Some(value),
            Some(old) => Some(old),
        },
        Op::Swap(old, new) => { if found == Some(old) { Some(new) } else { found } }
        Op::Del => None,
    }
}

fn is_fill(op: Op) -> bool {
    matches!(op, Op::Put(_) | Op::Add(_))
}

impl Replay {
    fn of(alloc: Global, keys: usize, scripts: usize) -> Result<Replay, AllocError> {
        Ok(Replay {
            map: vec![in alloc; None; keys]?,
            next: vec![in alloc; 0; scripts]?,
            calls: 0,
            fulls: 0,
        })
    }

    /// Whether the call is the script's next, or later in it if calls before it were put off.
    fn comes_next(&mut self, slot: Slot) -> bool {
        if slot.script >= self.next.len() {
            return false;
        }
        let is_next = self.next[slot.script] <= slot.step;
        self.next[slot.script] = slot.step.saturating_add(1);
        is_next
    }

    /// Makes a call of the plain map. Returns whether this is its reply.
    fn makes(&mut self, step: Step, reply: u64) -> bool {
        if step.at >= self.map.len() {
            return false;
        }
        let found = self.map[step.at];
        self.calls = self.calls.saturating_add(1);
        if reply == FULL {
            self.fulls = self.fulls.saturating_add(1);
            return is_fill(step.call.op) && found.is_none();
        }
        self.map[step.at] = left(step.call.op, found);
        reply == reply_of(found)
    }

    /// How many keys have a value.
    pub(crate) fn pairs(&self) -> usize {
        self.map.iter().filter(|value| value.is_some()).count()
    }
}

/// Which of the first, the parts and the last the script is.
fn phase(script: usize, scripts: usize) -> u32 {
    if script == 0 {
        0
    } else if script.saturating_add(1) < scripts {
        1
    } else {
        2
    }
}

/// Reads the calls in the order of their numbers, over a number of keys. The first script comes before all others, and the last
/// after them. None if they are no legal history of a map, or not all calls of the scripts but those that were put off.
pub(crate) fn replayed(
    alloc: Global,
    board: &Board,
    scripts: &[Script],
    keys: usize,
) -> Result<Option<Replay>, AllocError> {
    let mut replay = Replay::of(alloc, keys, scripts.len())?;
    let mut now = 0;
    let mut right = !board.is_wrong();
    let mut all = 0u64;
    for script in scripts {
        all = all.saturating_add(script.steps.len() as u64);
    }
    for at in 0..board.slots.len() {
        let word = board.slots[at].load(SeqCst);
        if word == 0 {
            break;
        }
        let slot = unpacked(word);
        let then = phase(slot.script, scripts.len());
        let step = match scripts.get(slot.script) {
            Some(script) => script.steps.get(slot.step),
            None => None,
        };
        right = right
            && now <= then
            && replay.comes_next(slot)
            && match step {
                Some(step) => replay.makes(*step, slot.reply),
                None => false,
            };
        now = then;
    }
    let is_whole = replay.calls.saturating_add(board.put_off()) == all;
    Ok(if right && is_whole {
        Some(replay)
    } else {
        None
    })
}

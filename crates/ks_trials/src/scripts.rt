//! Scripts: which calls a caller makes, in their order.
use crate::calls::{Answer, Call, Op};
use crate::draws::Draws;
use std::alloc::{AllocError, Global};

/// One call of a script: at which of the keys, and what it must return, where that is known.
#[derive(Clone, Copy)]
pub(crate) struct Step {
    pub(crate) at: usize,
    pub(crate) call: Call,
    pub(crate) answer: Option<Answer>,
}

/// The key at `at`. The first key is 0, and each other one is `stride` above the one before it, modulo 2^64.
pub(crate) fn key_at(stride: u64, at: usize) -> u64 {
    (at as u64).wrapping_mul(stride)
}

/// The calls of one caller over keys a stride apart.
#[derive(Drop)]
pub(crate) struct Script {
    stride: u64,
    pub(crate) steps: Vec<Step>,
}

impl Script {
    /// A script of no call.
    pub(crate) fn of(alloc: Global, stride: u64) -> Script {
        Script {
            stride,
            steps: Vec::new(alloc),
        }
    }

    fn push(
        &mut self,
        at: usize,
        op: Op,
        waits: bool,
        answer: Option<Answer>,
    ) -> Result<(), AllocError> {
        let key = key_at(self.stride, at);
        let call = Call { key, op, waits };
        self.steps.push(Step { at, call, answer })?;
        Ok(())
    }

    /// A call at a key, which may wait.
    pub(crate) fn call(&mut self, at: usize, op: Op) -> Result<(), AllocError> {
        self.push(at, op, true, None)
    }

    /// A call at a key, which does not wait.
    pub(crate) fn try_call(&mut self, at: usize, op: Op) -> Result<(), AllocError> {
        self.push(at, op, false, None)
    }

    /// A call at a key, which may wait, and what it must return.
    pub(crate) fn returns(&mut self, at: usize, op: Op, answer: Answer) -> Result<(), AllocError> {
        self.push(at, op, true, Some(answer))
    }

    /// A call at a key, which does not wait, and what it must return.
    pub(crate) fn try_returns(
        &mut self,
        at: usize,
        op: Op,
        answer: Answer,
    ) -> Result<(), AllocError> {
        self.push(at, op, false, Some(answer))
    }

    /// Fills the first `many` keys, each with its index as its value, in each way in turn: by puts, by adds, waiting and not.
    pub(crate) fn fill(&mut self, many: usize) -> Result<(), AllocError> {
        for at in 0..many {
            let value = at as u128;
            match at % 4 {
                0 => self.call(at, Op::Put(value))?,
                1 => self.try_call(at, Op::Put(value))?,
                2 => self.call(at, Op::Add(value))?,
                _ => self.try_call(at, Op::Add(value))?,
            }
        }
        Ok(())
    }

    /// Deletes the first `many` keys, every second one without waiting.
    pub(crate) fn empty(&mut self, many: usize) -> Result<(), AllocError> {
        for at in 0..many {
            self.push(at, Op::Del, at % 2 == 0, None)?;
        }
        Ok(())
    }

    /// `many` drawn calls at the first `keys` keys, every second one without waiting; with `grows` most of them put or add.
    pub(crate) fn draw(
        &mut self,
        number: u64,
        keys: usize,
        many: usize,
        grows: bool,
    ) -> Result<(), AllocError> {
        let mut draws = Draws::of(number);
        for count in 0..many {
            let at = draws.below(keys as u64) as usize;
            let op = if grows { draws.growing() } else { draws.op() };
            self.push(at, op, count % 2 == 0, None)?;
        }
        Ok(())
    }
}

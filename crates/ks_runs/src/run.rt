//! Which calls a run makes.
use ks_shape::Numbered;

/// What each call of a run does at its place.
#[derive(Clone, Copy)]
pub(crate) enum Call {
    Put,
    Del,
}

/// A number of calls of one kind, from the first place on and a stride apart. The first has a number in the history,
/// each other the next. What is put or added is the place itself.
#[derive(Clone, Copy)]
pub struct Run {
    pub(crate) call: Call,
    number: u64,
    first: u64,
    pub(crate) many: u64,
    stride: u64,
}

impl Run {
    /// The first calls of an arena are `many` puts.
    pub fn puts(first: u64, many: u64, stride: u64) -> Run {
        Run {
            call: Call::Put,
            number: 0,
            first,
            many,
            stride,
        }
    }

    /// The first calls of an arena are `many` dels.
    pub fn dels(first: u64, many: u64, stride: u64) -> Run {
        Run {
            call: Call::Del,
            ..Run::puts(first, many, stride)
        }
    }

    /// The same calls, whose numbers begin with another one.
    pub fn from(self, number: u64) -> Run {
        Run { number, ..self }
    }

    /// The place of the call that comes after `count` others.
    pub(crate) fn place(&self, count: u64) -> u64 {
        count.wrapping_mul(self.stride).wrapping_add(self.first)
    }

    /// The result that a call is to have after `count` others, if `found` is at its place.
    pub(crate) fn told(&self, count: u64, found: Option<u128>) -> Numbered {
        Numbered {
            number: self.number.wrapping_add(count),
            found,
        }
    }

    /// What it is to find there: a put nothing, a del what a put has left.
    pub(crate) fn found(&self, place: u64) -> Option<u128> {
        match self.call {
            Call::Put => None,
            Call::Del => Some(u128::from(place)),
        }
    }
}

//! The points that a call passes, and gates that are notified of them.
//!
//! A template notifies its gate of each point of each call: of `Begin` before the call's first step, of `Taken` after each
//! take or claim, of `Decided` after the call's number is drawn, of `Given` after each give. A gate may delay the caller,
//! but it always returns, and it changes nothing that contracts mention. So what is proved of a template holds with any
//! gate, and a test can choose the order in which two threads meet.
#![tactic(auto)]

mod meet;
mod stand;

pub use meet::Meet;
pub use stand::{Stand, Standing};

/// A point of a call. Two points are equal if and only if their numbers are equal too.
#[derive(Clone, Copy, Debug, PartialEq, Eq)]
pub enum Point {
    /// No step of the call is made yet.
    Begin,
    /// The node with this number has been taken or claimed.
    Taken(u32),
    /// The call has drawn this number.
    Decided(u64),
    /// The node with this number has been released.
    Given(u32),
}

/// Is notified of points: of those of one caller one after another, of those of several callers at any time.
pub trait Gate {
    /// Notifies the gate that the caller is at the point. It returns, since it gets no runtime with which to loop for ever.
    fn at(&self, caller: u32, point: Point);
}

/// Delays no caller.
#[derive(Clone, Copy, Debug, Drop)]
pub struct NoGate;

impl Gate for NoGate {
    fn at(&self, _caller: u32, _point: Point) {}
}

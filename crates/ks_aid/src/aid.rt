//! What a caller knows of where its calls may begin.
ghost use Rattle.std.specs.Prelude.{◌≡◌};
ghost use Rattle.ks_shape.specs.Hinted.{IsWhere};

use ks_gate::{Meet, NoGate, Stand};
use ks_guide::Guide;
use ks_shape::{Numbered, NumberedAt};
use std::sync::Wait;

/// What a caller asks where its calls may begin, and what notes where they were decided. Any answer is right: no contract
/// reads it.
pub trait Aid {
    /// The node at which a call of the place may begin.
    fn hint(&mut self, place: u64) -> Option<u32>;

    /// Notes where a call of the place was decided.
    fn note<R: Wait>(&mut self, rt: &R, place: u64, at: NumberedAt)
        requires { IsWhere place at };
}

/// Says whether callers at a gate may begin their calls elsewhere than at the root. A gate that stops a caller at a node on
/// its way from the root admits no aid.
pub trait Admits {
    fn admits_aid(&self) -> bool;
}

impl Admits for NoGate {
    fn admits_aid(&self) -> bool {
        true
    }
}

impl Admits for Meet {
    fn admits_aid(&self) -> bool {
        false
    }
}

impl Admits for Stand {
    fn admits_aid(&self) -> bool {
        false
    }
}

/// A guide, or none: then each call begins at the root.
impl Aid for Option<Guide> {
    #[inline(always)]
    fn hint(&mut self, place: u64) -> Option<u32> {
        match self {
            Some(guide) => guide.guess(place),
            None => None,
        }
    }

    #[inline(always)]
    fn note<R: Wait>(&mut self, _rt: &R, place: u64, at: NumberedAt) {
        if let Some(guide) = self {
            if let Some(above) = at.above {
                guide.note_branch(above.low, above.last, above.node);
            }
            guide.note(place, at.low, at.last, at.node);
        }
    }
}

/// Notes where a call of the place was decided, and returns its number and what it found.
#[inline(always)]
pub fn noting<R: Wait, H: Aid>(rt: &R, aid: &mut H, place: u64, at: NumberedAt) -> Numbered
    requires { IsWhere place at }
    ensures number { result.number ≡ at.number }
    ensures found { result.found ≡ at.found }
{
    aid.note(rt, place, at);
    Numbered {
        number: at.number,
        found: at.found,
    }
}

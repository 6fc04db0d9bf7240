//! A node as a plain program would keep it: what a search finds, one stretch of places after the other.
//!
//! The places are 64 stretches of one length, the last of which runs to the last place. A value is at the first place
//! of its stretch.

ghost use Rattle.std.specs.Prelude.{◌<◌};

use ks_keysets::{Edge, Pair, Span};

/// How many stretches there are.
pub const COUNT: usize = 64;

/// What a search finds in a stretch.
#[derive(Clone, Copy, Debug, PartialEq, Eq)]
pub enum Told {
    Nothing,
    Value(u128),
    Lead(u32),
}

/// A node with the stretches from `low` to below `end` as its range.
#[derive(Clone, Copy)]
pub struct Plain {
    pub length: u64,
    pub told: [Told; COUNT],
    pub low: usize,
    pub end: usize,
    pub level: u32,
    pub link: Option<u32>,
}

impl Plain {
    pub fn blank(length: u64) -> Plain {
        Plain {
            length,
            told: [Told::Nothing; COUNT],
            low: 0,
            end: COUNT,
            level: 0,
            link: None,
        }
    }

    /// The first place of a stretch.
    pub fn first(&self, stretch: usize) -> u64 {
        (stretch as u64).saturating_mul(self.length)
    }

    /// The last place before a stretch.
    pub fn before(&self, stretch: usize) -> u64 {
        if stretch >= COUNT {
            u64::MAX
        } else {
            self.first(stretch).saturating_sub(1)
        }
    }

    pub fn range(&self) -> Span {
        Span {
            low: self.first(self.low),
            last: self.before(self.end),
        }
    }

    /// The pair of a stretch, if there is one.
    pub fn pair(&self, stretch: usize) -> Option<Pair>
        requires { stretch < 64 }
    {
        match self.told[stretch] {
            Told::Value(value) => Some(Pair {
                place: self.first(stretch),
                value,
            }),
            _ => None,
        }
    }

    /// Where the stretches end in which a search finds the same as in this one.
    fn run_end(&self, stretch: usize) -> usize
        requires { stretch < 64 }
    {
        for i in stretch..COUNT {
            if self.told[i] != self.told[stretch] {
                return i;
            }
        }
        COUNT
    }

    /// The edge that begins with a stretch, if one does.
    pub fn edge(&self, stretch: usize) -> Option<Edge>
        requires { stretch < 64 }
    {
        let Told::Lead(node) = self.told[stretch] else {
            return None;
        };
        if stretch > 0 && self.told[stretch - 1] == self.told[stretch] {
            return None;
        }
        Some(Edge {
            span: Span {
                low: self.first(stretch),
                last: self.before(self.run_end(stretch)),
            },
            node,
        })
    }

    pub fn set(&mut self, stretch: usize, told: Told)
        requires { stretch < 64 }
    {
        self.told[stretch] = told;
    }

    /// Splits; what lies right of the range then leads to the link, if one is given.
    pub fn split(&mut self, cut: usize, link: Option<u32>) -> Plain {
        let mut right = *self;
        let beyond = match link {
            Some(node) => Told::Lead(node),
            None => Told::Nothing,
        };
        for i in 0..COUNT {
            if i < cut {
                right.told[i] = Told::Nothing;
            } else {
                self.told[i] = beyond;
            }
        }
        right.low = cut;
        self.end = cut;
        self.link = link;
        right
    }

    /// Becomes a branch over a left and a right node, which are linked or not.
    pub fn grow(&mut self, cut: usize, ids: [u32; 2], linked: bool) -> (Plain, Plain) {
        let mut left = *self;
        let right = left.split(cut, if linked { Some(ids[1]) } else { None });
        for i in 0..COUNT {
            if self.low <= i && i < self.end {
                self.told[i] = Told::Lead(if i < cut { ids[0] } else { ids[1] });
            }
        }
        if linked {
            self.level = self.level.saturating_add(1);
        }
        (left, right)
    }

    /// Leads to a node from the cut on, as far as a search found the same as there.
    pub fn adopt(&mut self, cut: usize, id: u32)
        requires { cut < 64 }
    {
        let end = self.run_end(cut).min(self.end);
        for i in 0..COUNT {
            if cut <= i && i < end {
                self.told[i] = Told::Lead(id);
            }
        }
    }

    /// What led to the node leads where the stretch before leads.
    pub fn forget(&mut self, id: u32) {
        for i in 1..COUNT {
            if self.told[i] == Told::Lead(id) {
                self.told[i] = self.told[i - 1];
            }
        }
    }

    /// Takes in what the node to the right has.
    pub fn absorb(&mut self, right: &mut Plain) {
        for i in 0..COUNT {
            if i >= right.low {
                self.told[i] = right.told[i];
            }
        }
        self.end = right.end;
        *right = Plain::blank(right.length);
    }

    /// Becomes what its child is.
    pub fn collapse(&mut self, child: &mut Plain) {
        self.told = child.told;
        *child = Plain::blank(child.length);
    }
}

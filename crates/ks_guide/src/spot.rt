//! One span of places with its node, and two of them.
ghost use Rattle.std.specs.Prelude.{◌≡◌, ◌≤◌, IsTrue};
ghost use Rattle.ks_guide.specs.Spots.{Holds, holds, guess_in};

/// A span of places, and the node at which a call found it.
#[derive(Clone, Copy, Debug, PartialEq, Eq)]
pub struct Spot {
    pub low: u64,
    pub last: u64,
    pub node: u32,
}

/// A span that has no place.
pub const BLANK: Spot = Spot {
    low: u64::MAX,
    last: 0,
    node: 0,
};

impl Spot {
    /// Whether the span has the place.
    #[inline(always)]
    pub fn holds(&self, place: u64) -> bool
        ensures { result ≡ holds place self.now }
    {
        self.low <= place && place <= self.last
    }
}

/// The two spots of a set.
#[derive(Clone, Copy, Debug, PartialEq, Eq)]
pub struct Two {
    pub first: Spot,
    pub second: Spot,
}

impl Two {
    /// The node of the span that has the place; of two such spans, of the one that begins later.
    #[inline(always)]
    pub fn guess(&self, place: u64) -> Option<u32>
        ensures { result ≡ guess_in place self.now }
    {
        let nearer = self.first.low < self.second.low || !self.first.holds(place);
        if self.second.holds(place) && nearer {
            return Some(self.second.node);
        }
        if self.first.holds(place) {
            return Some(self.first.node);
        }
        None
    }

    /// Whether the first is this spot, and the second leads the place nowhere else.
    #[inline(always)]
    pub fn is_settled(&self, place: u64, spot: Spot) -> bool
        requires { Holds place spot }
        ensures { IsTrue result → guess_in place self.now ≡ Some spot.node }
    {
        self.first == spot && !self.second.holds(place)
    }

    /// The two spots after a note at the place: the new spot, and the first one before, or the second if the first was
    /// of the same node, unless that leads the place elsewhere.
    pub fn noted(&self, place: u64, spot: Spot) -> Two
        requires { Holds place spot }
        ensures { guess_in place result ≡ Some spot.node }
    {
        let before = if self.first.node == spot.node {
            self.second
        } else {
            self.first
        };
        let second = if before.holds(place) && spot.low < before.low {
            BLANK
        } else {
            before
        };
        Two {
            first: spot,
            second,
        }
    }
}

//! The nodes of two places, both held.
ghost use Rattle.std.specs.Prelude.{◌≡◌, IsTrue, is_some, true, false};
ghost use Rattle.ks_pair.specs.Both.{EndsIn, turn};

use ks_arena::Held;
use ks_node::{Next, Ranged};

/// The nodes at which the searches for two places end.
pub enum Pair<N> {
    /// One node has both places.
    One(Held<N>),
    /// The first node has the first place, and the second one the second place.
    Two { first: Held<N>, second: Held<N> },
}

/// The nodes of the same places in the other order.
pub fn turned<N>(pair: Pair<N>) -> Pair<N>
    ensures { result ≡ turn pair }
{
    match pair {
        Pair::One(held) => Pair::One(held),
        Pair::Two { first, second } => Pair::Two {
            first: second,
            second: first,
        },
    }
}

/// Whether the search for a place ends at the node: its range has the place, and no edge of it leads on.
pub fn ends_at<N: Ranged>(held: &Held<N>, place: u64) -> bool
    ensures ranged { IsTrue (is_some (N.body held.now.body).range) }
    ensures ends { result ≡ true → EndsIn (N.body held.now.body) place }
    ensures other { result ≡ false → ¬ EndsIn (N.body held.now.body) place }
{
    let range = held.body.range();
    if place < range.low || range.last < place {
        return false;
    }
    match held.body.next(place) {
        Next::Here => true,
        Next::Go(_) => false,
    }
}

/// Each node has a range. It computes nothing.
pub(crate) fn ranged_law<N: Ranged>(held: &Held<N>)
    ensures { IsTrue (is_some (N.body held.now.body).range) }
{
    let _range = held.body.range();
}

//! Up to which place the places after one go the same way.

ghost use Rattle.std.specs.Prelude.{ℕ, ◌≤◌};
ghost use Rattle.ks_node.specs.Edges.{record_of};
ghost use Rattle.ks_flow.specs.Tight.{EndsRun};

use ks_keysets::edge_cut;
use ks_node::{Unlinked, unlinked_law};

/// The last place, at most `last`, up to which each edge of the node carries all places from `place` on or none: the end of
/// the edge that carries the place, or, if none does, just before the next edge.
pub fn run_end<N: Unlinked>(node: &N, place: u64, last: u64) -> u64
    requires { place ≤ last }
    ensures { EndsRun (record_of (N.body node.now)) place last result }
{
    unlinked_law::<N>();
    let mut end = last;
    for n in 0..node.edges_held() {
        let edge = node.edge_at(n);
        end = edge_cut(&edge, place, end);
    }
    end
}

//! Children in ascending order of their first places, in an array of fixed room.

ghost use Rattle.std.specs.Prelude.{◌≡◌, ℕ, suc, ◌+◌, ◌<◌, ◌≤◌, ◌++◌, ◌∷◌, [], None, length, Option, position, nat_eq, IfSome, slice_index_or};
ghost use Rattle.arrayvec.specs.ArrayVec.{array_vec_len};
ghost use Rattle.ks_node.specs.Keyed.{Ascends};
ghost use Rattle.ks_node.specs.Body.{starts_below, starts_from, led_to, go_to, begins, first_node, sole};
ghost use Rattle.ks_node.specs.Effect.{first_from, without};
ghost use Rattle.ks_node.specs.Spans.{plain_edges, AreWithin};
ghost use Rattle.ks_keysets.specs.Record.{top};
ghost use Rattle.ks_bplus.specs.Bplus.{with_child};

use arrayvec::ArrayVec;
use ks_keysets::{Edge, Span};
use ks_node::{Next, Start, rank, seek};

/// The children of an inner node.
pub(crate) type Starts = ArrayVec<Start, 16>;

/// Moves the children from a cut on into an empty array, the first of them from place 0 on.
pub(crate) fn move_starts(starts: &mut Starts, into: &mut Starts, cut: u64)
    requires ascend { Ascends (λ s. s.low) starts.old.items }
    requires blank { into.old.items ≡ [] }
    ensures left { starts.new.items ≡ starts_below cut starts.old.items }
    ensures right { into.new.items ≡ first_from 0 (starts_from cut starts.old.items) }
{
    let i = rank(starts.as_slice(), cut);
    let _ = into.try_extend_from_slice(&starts.as_slice()[i..]);
    starts.truncate(i);
    reach_down(into, 0);
}

/// Lets the first child begin at `low`.
pub(crate) fn reach_down(starts: &mut Starts, low: u64)
    ensures { starts.new.items ≡ first_from low starts.old.items }
{
    if !starts.is_empty() {
        let node = starts.as_slice()[0].node;
        starts[0] = Start { low, node };
    }
}

/// Moves all children to the end of another array, the first of them from the seam on.
pub(crate) fn append_starts(starts: &mut Starts, right: &mut Starts, seam: u64)
    requires { array_vec_len starts.old + array_vec_len right.old ≤ 16 }
    ensures left { starts.new.items ≡ starts.old.items ++ first_from seam right.old.items }
    ensures right { right.new.items ≡ [] }
    ensures fits { array_vec_len starts.new ≤ 16 }
{
    reach_down(right, seam);
    let _ = starts.try_extend_from_slice(right.as_slice());
    right.clear();
}

/// Lets a new child begin at a place at which none begins.
pub(crate) fn add_start(starts: &mut Starts, low: u64, node: u32)
    requires ascend { Ascends (λ s. s.low) starts.old.items }
    requires room { array_vec_len starts.old < 16 }
    ensures fits { array_vec_len starts.new ≤ 16 }
    ensures items { starts.new.items ≡ with_child low node starts.old.items }
{
    let i = rank(starts.as_slice(), low);
    starts.insert(i, Start { low, node });
}

/// Returns the position of the first child that is `node`.
fn position_of(items: &[Start], node: u32) -> Option<usize>
    ensures at { result ≡ position (λ s. nat_eq s.node node) items.now }
    ensures within { IfSome result (λ i. i < length items.now) }
{
    items.iter().position(|s| s.node == node)
}

/// Takes away the first child that is `node`.
pub(crate) fn remove_node(starts: &mut Starts, node: u32)
    ensures { starts.new.items ≡ without node starts.old.items }
{
    match position_of(starts.as_slice(), node) {
        Some(i) => {
            starts.remove(i);
        }
        None => {}
    }
}

//! Where the words of an arena's table are: no turn shares its cache line with another, nor with the count of calls.
ghost use Rattle.std.specs.Prelude.{◌≡◌, ◌<◌, ◌^◌};
ghost use Rattle.ks_arena.specs.Spots.{turn_at, free_at};

/// The word that counts the calls.
pub(crate) const CALLS: usize = 0;

/// The word that counts the shapes.
pub(crate) const SHAPES: usize = 1;

/// The root, at which a call without a hint begins.
pub(crate) const ROOT: u32 = 0;

/// The word of the turn of a node.
#[inline(always)]
pub(crate) fn turn_at(node: usize) -> usize
    requires { turn_at node < 2 ^ 64 }
    ensures { result ≡ turn_at node }
{
    8 * (node + 1)
}

/// The free word with this index, in an arena of this many nodes.
#[inline(always)]
pub(crate) fn free_at(nodes: usize, index: usize) -> usize
    requires { free_at nodes index < 2 ^ 64 }
    ensures { result ≡ free_at nodes index }
{
    turn_at(nodes) + index
}

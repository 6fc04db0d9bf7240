//! What holds of a search in sound traces. The function computes nothing: its contract is a law.
ghost use Rattle.std.specs.Prelude.{ℕ};
ghost use Rattle.ks_arena.specs.Sound.{Sort};
ghost use Rattle.ks_shape.specs.Laws.Search.{Laws};

use ks_arena::laws::tree_beside_law;
use ks_flow::laws::walks_law;
use ks_flow::{Discipline, Tree};

/// A sound trace has its turns in order, a good graph, the facts of trees, and no node with two parents; and what a caller
/// holds keeps its inset and its keyset while others act.
pub fn search_law()
    ensures { (sort : Sort) (slots : ℕ) → Laws sort slots }
{
    Tree::laws();
    walks_law();
    tree_beside_law();
}

//! What a list of hints is after posts.
ghost use Rattle.std.specs.Prelude.{ℕ, ◌≡◌, ◌<◌, ◌≤◌, List, ◌∷◌, length, Some};
ghost use Rattle.ks_hints.specs.declared.hint.Hint.{Hint as OneHint};
ghost use Rattle.ks_hints.specs.Hints.{IsOfLast, LowsAscend, hint_after, list_after};

/// After any posts the lows of the list ascend, each below the next; it has at most 64 hints, and none only if there was
/// no post. The hint of a place is the last one in the list whose low is not above the place; of a low that was just
/// posted it is the node that was posted. This function computes nothing: its contract is a law.
pub fn hint_law()
    ensures ascends { (posts : List OneHint) → LowsAscend (list_after posts) }
    ensures few { (posts : List OneHint) → length (list_after posts) ≤ 64 }
    ensures some { (post : OneHint) (older : List OneHint) → 0 < length (list_after (post ∷ older)) }
    ensures last { (posts : List OneHint) (place : ℕ) → IsOfLast (list_after posts) place (hint_after posts place) }
    ensures newest { (post : OneHint) (older : List OneHint) →
        hint_after (post ∷ older) post.low ≡ Some post.node }
{}

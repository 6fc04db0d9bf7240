//! When a graph is tight, or tidy at a place, by what a caller finds on its walks.

ghost use Rattle.std.specs.Prelude.{ℕ, suc, ◌≡◌, ◌≢◌, ◌≤◌, ◌<◌, Some, All};
ghost use Rattle.ks_keysets.specs.declared.Frame.{Frame};
ghost use Rattle.ks_keysets.specs.declared.Kind.TheVariants.{NoBranch};
ghost use Rattle.ks_keysets.specs.declared.NodeState.{NodeState};
ghost use Rattle.ks_keysets.specs.declared.Record.{Record};
ghost use Rattle.ks_keysets.specs.Record.{top, IsPlace, LeadsTo, LeadsOn};
ghost use Rattle.ks_keysets.specs.Keyset.{record_at, InKeyset, Good};
ghost use Rattle.ks_keysets.specs.Layout.{Layout};
ghost use Rattle.ks_keysets.specs.Tight.{IsLow, FitsNoRight, IsTight, IsTidyAt};
ghost use Rattle.ks_keysets.specs.Reframed.{SameNodes};
ghost use Rattle.ks_flow.specs.Tree.{Tree};
ghost use Rattle.ks_flow.specs.Tight.{IsTightBelow, EndsRun, ComesTo};

/// A caller walks from the root along place after place. The first is 0, and each next one is just past the end of the
/// span in which the walk before ended. It tests each node on the walk against its right neighbour. Where the walk of a
/// place goes down by an edge or ends, the span is cut to the places that the node's edges treat like this one. The
/// places up to the end of the span are in the keyset of the node at which the walk ends, and the next one is not. After
/// the walk that ends with the last place all live nodes are tested, and the graph is tight if the root is no branch
/// over one child.
pub fn tight_law()
    ensures opens { (layout : Layout) (g : ℕ → NodeState) (f : ℕ → Frame) → IsTightBelow layout g f 0 }
    ensures begins { (layout : Layout) (g : ℕ → NodeState) (f : ℕ → Frame) (p : ℕ) → Good g → Tree g f → IsPlace p →
        ComesTo layout g f p top 0 }
    ensures goes_down { (layout : Layout) (g : ℕ → NodeState) (f : ℕ → Frame) (p last end n m : ℕ) (r : Record) →
        Good g → Tree g f → ComesTo layout g f p last n →
        record_at g n ≡ Some r → FitsNoRight layout g f n → LeadsTo r p m → EndsRun r p last end →
        ComesTo layout g f p end m }
    ensures ends { (layout : Layout) (g : ℕ → NodeState) (f : ℕ → Frame) (p last end n : ℕ) (r : Record) → Good g →
        Tree g f → ComesTo layout g f p last n →
        record_at g n ≡ Some r → FitsNoRight layout g f n → ¬ LeadsOn r p → EndsRun r p last end →
        IsTightBelow layout g f p → IsTightBelow layout g f (suc end) }
    ensures span { (layout : Layout) (g : ℕ → NodeState) (f : ℕ → Frame) (p last end n : ℕ) (r : Record) → Good g →
        Tree g f → ComesTo layout g f p last n →
        record_at g n ≡ Some r → ¬ LeadsOn r p → EndsRun r p last end → (q : ℕ) → p ≤ q → q ≤ end → InKeyset g n q }
    ensures span_ends { (layout : Layout) (g : ℕ → NodeState) (f : ℕ → Frame) (p last end n : ℕ) (r : Record) →
        Good g → Tree g f → ComesTo layout g f p last n →
        record_at g n ≡ Some r → ¬ LeadsOn r p → EndsRun r p last end → end < top → ¬ InKeyset g n (suc end) }
    ensures all { (layout : Layout) (g : ℕ → NodeState) (f : ℕ → Frame) → Good g → Tree g f →
        IsTightBelow layout g f (suc top) →
        ((r : Record) (m : ℕ) → record_at g 0 ≡ Some r → (f 0).kind ≢ NoBranch → ¬ All (λ e. e.node ≡ m) r.edges) →
        IsTight layout g f }
    ensures along { (layout : Layout) (g k : ℕ → NodeState) (f h : ℕ → Frame) → SameNodes g f k h →
        IsTight layout g f → IsTight layout k h }
{}

/// A place is tidy if the node whose keyset holds it is not low, or fits with no right neighbour.
pub fn tidy_law()
    ensures here { (layout : Layout) (g : ℕ → NodeState) (f : ℕ → Frame) (n p : ℕ) (r : Record) → Good g →
        InKeyset g n p → record_at g n ≡ Some r →
        (IsLow layout (f n).kind r → FitsNoRight layout g f n) → IsTidyAt layout g f p }
    ensures along { (layout : Layout) (g k : ℕ → NodeState) (f h : ℕ → Frame) (p : ℕ) → SameNodes g f k h →
        IsTidyAt layout g f p → IsTidyAt layout k h p }
{}

// Each function here computes nothing: its contract is a law.

ghost use Rattle.ks_keysets.specs.declared.Record.{Record};
ghost use Rattle.ks_keysets.specs.Keyset.{SameFound};
ghost use Rattle.ks_keysets.specs.declared.Frame.{Frame};
ghost use Rattle.std.specs.Prelude.{◌≢◌, ℕ, false, List, [], ◌∷◌, ◌↔◌, ◌≡◌, ◌<◌};
ghost use Rattle.ks_keysets.specs.declared.NodeState.{NodeState};
ghost use Rattle.ks_keysets.specs.Keyset.{opening, Reaches, record_at, Good, InInset, InKeyset, IsLive, AreApart};
ghost use Rattle.ks_keysets.specs.declared.Span.{Span};
ghost use Rattle.ks_keysets.specs.Walk.{OneParent};
ghost use Rattle.ks_flow.specs.Link.{Link, IsRange, LeadLive, lives_below, PairsStand, IsAttach, KeepsLink, SplitsRight, GrowsRight, Attaches};
ghost use Rattle.ks_keysets.specs.Record.{IsPlace, top, Holds, Carries, LeadsTo};
ghost use Rattle.ks_keysets.specs.declared.Change.{Change};
ghost use Rattle.ks_flow.specs.Changes.{nodes_of, graph_with, frames_with, NamedOnce, HasBecome};
ghost use Rattle.ks_flow.specs.Tree.{FramesKept};
ghost use Rattle.ks_flow.specs.Walk.{Ends, IsWalked};
ghost use Rattle.ks_flow.specs.Ways.{names, KeepsWays, DiffersIn};
ghost use Rattle.ks_flow.specs.Tree.{Tree, OneEdge, SameEdges, edges_to, edges_between};
ghost use Rattle.std.specs.Prelude.{Option, Some, None, All};
ghost use Rattle.ks_flow.specs.Insets.{SplitsInsetOwn, SplitsInsetUnder, GrowsInset, AbsorbsInsetOwn, AbsorbsInsetUnder, CollapsesInset};
ghost use Rattle.ks_flow.specs.Shapes.{KeepsTree, SplitsOwn, SplitsUnder, Grows, AbsorbsOwn, AbsorbsUnder, Collapses};

/// A graph is good if and only if its root is live, the edges of each node are disjoint and lead to live nodes, each walk
/// from the root ends, and each pair is, once, at the node where the walk of its place ends.
pub fn walks_law()
    ensures keyset { (g : ℕ → NodeState) → IsWalked g → (p n : ℕ) → IsPlace p → InKeyset g n p ↔ Ends g p n 0 }
    ensures good { (g : ℕ → NodeState) → Good g ↔ IsWalked g }
    ensures opening { Good opening }
{}

/// A list of changes leaves what it does not name; a node that is named once becomes what its change says.
pub fn changes_law()
    ensures differs { (g : ℕ → NodeState) (xs : List Change) → DiffersIn g (nodes_of xs) (graph_with xs g) }
    ensures frames { (f : ℕ → Frame) (xs : List Change) → FramesKept f (nodes_of xs) (frames_with xs f) }
    ensures named { (g : ℕ → NodeState) (f : ℕ → Frame) (xs : List Change) → NamedOnce xs →
        All (HasBecome f (graph_with xs g) (frames_with xs f)) xs }
{}

/// A change of a region that keeps ways keeps a graph good, and what is found in it.
pub fn region_law()
    ensures good { (g k : ℕ → NodeState) (region : List ℕ) → DiffersIn g region k → KeepsWays g region k → Good g →
        Good k }
    ensures found { (g k : ℕ → NodeState) (region : List ℕ) → DiffersIn g region k → KeepsWays g region k → Good g →
        SameFound g k }
    ensures insets { (g k : ℕ → NodeState) (region : List ℕ) → DiffersIn g region k → KeepsWays g region k → Good g →
        (n p : ℕ) → names region n ≡ false → InInset k n p ↔ InInset g n p }
{}

/// Each shape of a tree keeps ways, the facts of trees, and the insets of the nodes that it does not name.
pub fn tree_law()
    ensures split_own { (g k : ℕ → NodeState) (f h : ℕ → Frame) (node right cut : ℕ) (r s t : Record) → Good g →
        Tree g f →
        SplitsOwn g k f h node right cut r s t → KeepsTree g (node ∷ right ∷ []) k h }
    ensures split_under { (g k : ℕ → NodeState) (f h : ℕ → Frame) (parent node right cut : ℕ) (u v r s t : Record) →
        Good g → Tree g f →
        SplitsUnder g k f h parent node right cut u v r s t → KeepsTree g (parent ∷ node ∷ right ∷ []) k h }
    ensures grow { (g k : ℕ → NodeState) (f h : ℕ → Frame) (node left right cut : ℕ) (r v s t : Record) → Good g →
        Tree g f →
        Grows g k f h node left right cut r v s t → KeepsTree g (node ∷ left ∷ right ∷ []) k h }
    ensures absorb_own { (g k : ℕ → NodeState) (f h : ℕ → Frame) (node right : ℕ) (r q s : Record) → Good g → Tree g f →
        AbsorbsOwn g k f h node right r q s → KeepsTree g (node ∷ right ∷ []) k h }
    ensures absorb_under { (g k : ℕ → NodeState) (f h : ℕ → Frame) (parent node right : ℕ) (u r q v s : Record) →
        Good g → Tree g f →
        AbsorbsUnder g k f h parent node right u r q v s → KeepsTree g (parent ∷ node ∷ right ∷ []) k h }
    ensures collapse { (g k : ℕ → NodeState) (f h : ℕ → Frame) (node child : ℕ) (r q s : Record) → Good g → Tree g f →
        Collapses g k f h node child r q s → KeepsTree g (node ∷ child ∷ []) k h }
{}

/// What each shape of a tree does to the insets of the nodes that it names; the others keep their insets.
pub fn insets_law()
    ensures split_own { (g k : ℕ → NodeState) (f h : ℕ → Frame) (node right cut : ℕ) (r s t : Record) → Good g →
        Tree g f →
        SplitsOwn g k f h node right cut r s t → SplitsInsetOwn g k node right cut }
    ensures split_under { (g k : ℕ → NodeState) (f h : ℕ → Frame) (parent node right cut : ℕ) (u v r s t : Record) →
        Good g → Tree g f →
        SplitsUnder g k f h parent node right cut u v r s t → SplitsInsetUnder g k parent node right cut }
    ensures grow { (g k : ℕ → NodeState) (f h : ℕ → Frame) (node left right cut : ℕ) (r v s t : Record) → Good g →
        Tree g f →
        Grows g k f h node left right cut r v s t → GrowsInset g k node left right cut }
    ensures absorb_own { (g k : ℕ → NodeState) (f h : ℕ → Frame) (node right : ℕ) (r q s : Record) → Good g → Tree g f →
        AbsorbsOwn g k f h node right r q s → AbsorbsInsetOwn g k node right }
    ensures absorb_under { (g k : ℕ → NodeState) (f h : ℕ → Frame) (parent node right : ℕ) (u r q v s : Record) →
        Good g → Tree g f →
        AbsorbsUnder g k f h parent node right u r q v s → AbsorbsInsetUnder g k parent node right }
    ensures collapse { (g k : ℕ → NodeState) (f h : ℕ → Frame) (node child : ℕ) (r q s : Record) → Good g → Tree g f →
        Collapses g k f h node child r q s → CollapsesInset g k node child }
{}

/// Under the facts of links the keysets are the ranges on level 0, so the graph is good if each pair is in its node's
/// keyset, once; and the level of the root is below the number of live nodes, so below each bound on their numbers.
pub fn link_law()
    ensures keyset { (g : ℕ → NodeState) (f : ℕ → Frame) → IsLive g 0 → AreApart g → LeadLive g → Link g f →
        (n p : ℕ) (s : Span) → IsPlace p → IsLive g n →
        IsRange (f n) s → (f n).level ≡ 0 → Holds s p → InKeyset g n p }
    ensures range { (g : ℕ → NodeState) (f : ℕ → Frame) → IsLive g 0 → AreApart g → LeadLive g → Link g f → (n p : ℕ) →
        InKeyset g n p →
        ((f n).level ≡ 0) × (s : Span) × IsRange (f n) s × Holds s p }
    ensures good { (g : ℕ → NodeState) (f : ℕ → Frame) → IsLive g 0 → AreApart g → LeadLive g → Link g f →
        PairsStand g → Good g }
    ensures level { (g : ℕ → NodeState) (f : ℕ → Frame) → IsLive g 0 → AreApart g → LeadLive g → Link g f →
        (bound : ℕ) → ((n : ℕ) → IsLive g n → n < bound) → (f 0).level < lives_below g bound }
    ensures bound { (g : ℕ → NodeState) (f : ℕ → Frame) → IsLive g 0 → AreApart g → LeadLive g → Link g f →
        (bound : ℕ) → ((n : ℕ) → IsLive g n → n < bound) → (f 0).level < bound }
{}

/// An attach keeps a graph good, and what is found in it.
pub fn attach_law()
    ensures good { (g k : ℕ → NodeState) (node : ℕ) (r s : Record) → IsAttach g node k r s → Good g → Good k }
    ensures found { (g k : ℕ → NodeState) (node : ℕ) (r s : Record) → IsAttach g node k r s → Good g → SameFound g k }
{}

/// Each shape under links keeps ways, or is an attach, and keeps the facts of links.
pub fn link_shapes_law()
    ensures split_right { (g k : ℕ → NodeState) (f h : ℕ → Frame) (node right cut : ℕ) (range : Span)
        (r s t : Record) → Good g → Link g f →
        SplitsRight g k f h node right cut range r s t → KeepsWays g (node ∷ right ∷ []) k × KeepsLink g f k h }
    ensures grow_right { (g k : ℕ → NodeState) (f h : ℕ → Frame) (left right cut : ℕ) (r v s t : Record) → Good g →
        Link g f →
        GrowsRight g k f h left right cut r v s t → KeepsWays g (0 ∷ left ∷ right ∷ []) k × KeepsLink g f k h }
    ensures attach { (g k : ℕ → NodeState) (f h : ℕ → Frame) (node id cut : ℕ) (range : Span) (r s : Record) → Good g →
        Link g f →
        Attaches g k f h node id cut range r s → IsAttach g node k r s × KeepsLink g f k h }
{}

/// The facts of trees hold at the opening, and remain if edges remain. Each edge carries a place of its node's inset.
/// Edges lead to a node from one node at most, and to the root from none.
pub fn tree_facts_law()
    ensures opening { (f : ℕ → Frame) → (f 0).low ≡ 0 →
        ((s : Span) → (f 0).range ≡ Some s → (s.low ≡ 0) × (s.last ≡ top)) → Tree opening f }
    ensures edges { (g k : ℕ → NodeState) (f : ℕ → Frame) → SameEdges g k → Tree g f → Tree k f }
    ensures used { (g : ℕ → NodeState) (f : ℕ → Frame) (n : ℕ) (r : Record) → Good g → Tree g f →
        record_at g n ≡ Some r → All (λ e. (p : ℕ) × InInset g n p × Carries e p) r.edges }
    ensures apart { (g : ℕ → NodeState) (f : ℕ → Frame) (n m : ℕ) (r : Record) → Good g → Tree g f →
        record_at g n ≡ Some r → 0 < edges_to r.edges m → n ≢ m }
    ensures child { (g : ℕ → NodeState) (e x p : ℕ) (s : Record) → OneEdge g → record_at g e ≡ Some s →
        0 < edges_to s.edges x → Reaches g p x → Reaches g p e × LeadsTo s p x }
    ensures fresh { (g : ℕ → NodeState) (n m : ℕ) → Good g → record_at g m ≡ None → edges_between g n m ≡ 0 }
    ensures parents { (g : ℕ → NodeState) → OneEdge g → OneParent g }
{}

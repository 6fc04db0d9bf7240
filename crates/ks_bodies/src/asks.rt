//! What the calls of a shape require of bodies holds of the nodes of a tree.

ghost use Rattle.std.specs.Prelude.{◌≢◌, ℕ, ◌≡◌, ◌<◌, ◌≤◌, Bool, Option, Some, None, All, IsTrue, is_some, false};
ghost use Rattle.ks_keysets.specs.declared.Frame.{Frame};
ghost use Rattle.ks_keysets.specs.declared.NodeState.{NodeState};
ghost use Rattle.ks_keysets.specs.declared.Span.{Span};
ghost use Rattle.ks_keysets.specs.Record.{LeadsTo, top};
ghost use Rattle.ks_keysets.specs.declared.Kind.{Kind};
ghost use Rattle.ks_keysets.specs.Keyset.{Good, InInset, record_at};
ghost use Rattle.ks_flow.specs.Changes.{graph_with};
ghost use Rattle.ks_node.specs.Body.{Body, Content, content_of, first_node, begins};
ghost use Rattle.ks_node.specs.Edges.{record_of};
ghost use Rattle.ks_node.specs.Effect.{split_left, split_right, reached, adopted, grown};
ghost use Rattle.ks_keysets.specs.Layout.{Layout};
ghost use Rattle.ks_node.specs.Room.{is_full, fit_together};
ghost use Rattle.ks_node.specs.Asks.{IsCut, AreNext, Absorbs, Suits, IsSpanOf, AdoptsInside};
ghost use Rattle.ks_flow.specs.Tree.{Tree, IsInset};
ghost use Rattle.ks_bodies.specs.Stands.{IsPlain, Stands};
ghost use Rattle.ks_bodies.specs.Shapes.{CanPart, CanAdopt, CanAbsorbOwn, CanAbsorbUnder, CanCollapse, split_on, split_own, split_under, grow};

use ks_flow::laws::{changes_law, tree_facts_law, tree_law};

/// The inset of a node suits its body, so that a full one may be cut there; that of the root is all places, and that
/// of a node below the root is the span of the root's edge to it.
pub fn tree_spans_law()
    ensures some { (g : ℕ → NodeState) (f : ℕ → Frame) (n : ℕ) (b : Body) → Good g → Tree g f → Stands g f n b →
        (span : Span) × IsInset g n span.low span.last × Suits b span }
    ensures suits { (g : ℕ → NodeState) (f : ℕ → Frame) (n : ℕ) (b : Body) (span : Span) → Good g → Tree g f →
        Stands g f n b → IsInset g n span.low span.last → Suits b span }
    ensures root { (g : ℕ → NodeState) (f : ℕ → Frame) (b : Body) → Stands g f 0 b → IsInset g 0 0 top }
    ensures below { (g : ℕ → NodeState) (f : ℕ → Frame) (n place : ℕ) (span : Span) (u b : Body) → Good g → Tree g f →
        Stands g f 0 u → Stands g f n b →
        LeadsTo (record_of u) place n → IsSpanOf u.starts place span → IsInset g n span.low span.last }
{
    tree_facts_law();
}

/// What `reach` and `adopt` require of a node that split, `adopt` of its parent, at whose cut no edge begins yet, `absorb`
/// of two nodes and `forget` of their parent, and `collapse` of a node and its only child.
pub fn tree_asks_law()
    ensures own { (g : ℕ → NodeState) (f : ℕ → Frame) (node right cut : ℕ) (b : Body) → CanPart g f node right cut b →
        AreNext (split_left cut b) (split_right cut b) × IsCut (reached (split_left cut b) (split_right cut b)) cut
        × All (λ x. x.place < cut) (reached (split_left cut b) (split_right cut b)).pairs }
    ensures adopt { (g : ℕ → NodeState) (f : ℕ → Frame) (parent node cut : ℕ) (u b : Body) → Good g → Tree g f →
        CanAdopt g f parent node u → Stands g f node b →
        InInset g node cut → b.low < cut → IsCut u cut × All (λ x. x.place < cut) u.pairs }
    ensures adopt_free { (g : ℕ → NodeState) (f : ℕ → Frame) (parent node cut : ℕ) (u b : Body) → Good g → Tree g f →
        CanAdopt g f parent node u → Stands g f node b →
        InInset g node cut → b.low < cut → begins cut u.starts ≡ false }
    ensures adopts { (can : Content → ℕ → Bool) (layout : Layout) (g : ℕ → NodeState) (f : ℕ → Frame)
        (parent node cut : ℕ) (u b : Body) → Good g → Tree g f → CanAdopt g f parent node u → Stands g f node b →
        InInset g node cut → b.low < cut → AdoptsInside can layout u → is_full layout u ≡ false →
        IsTrue (can (content_of u) cut) }
    ensures fit { (layout : Layout) (b q : Body) → IsTrue (fit_together layout b q) → b.kind ≡ q.kind }
    ensures absorb_own { (g : ℕ → NodeState) (f : ℕ → Frame) (node right : ℕ) (b q : Body) → Good g → Tree g f →
        CanAbsorbOwn g f node right b q → Absorbs b q }
    ensures absorb_under { (g : ℕ → NodeState) (f : ℕ → Frame) (parent node right : ℕ) (u b q : Body) → Good g →
        Tree g f → CanAbsorbUnder g f parent node right u b q → Absorbs b q }
    ensures forget { (g : ℕ → NodeState) (f : ℕ → Frame) (parent node right : ℕ) (u b q : Body) → Good g → Tree g f →
        CanAbsorbUnder g f parent node right u b q → first_node u.starts ≢ Some right }
    ensures collapse { (g : ℕ → NodeState) (f : ℕ → Frame) (node child : ℕ) (b q : Body) → Good g → Tree g f →
        CanCollapse g f node child b q → is_some b.range ≡ is_some q.range → b.range ≡ q.range }
{
    tree_facts_law();
}

/// Where the places of a node are found after a split or a grow: below the cut and from it on, in the insets of the two
/// nodes, to which the parent, or the node itself, leads.
pub fn tree_parts_law()
    ensures own { (g : ℕ → NodeState) (f : ℕ → Frame) (node right cut p : ℕ) (b : Body) → Good g → Tree g f →
        CanPart g f node right cut b → IsPlain (split_on cut right b) → IsPlain (split_right cut b) → InInset g node p →
        InInset (graph_with (split_own node right cut b) g) node p
        × (cut ≤ p →
        LeadsTo (record_of (split_on cut right b)) p right
        × InInset (graph_with (split_own node right cut b) g) right p) }
    ensures under { (g : ℕ → NodeState) (f : ℕ → Frame) (parent node right cut p : ℕ) (u b : Body) → Good g →
        Tree g f → CanAdopt g f parent node u → CanPart g f node right cut b →
        IsPlain (adopted cut right u) → IsPlain (split_left cut b) → IsPlain (split_right cut b) → InInset g node p →
        (p < cut → LeadsTo (record_of (adopted cut right u)) p node
        × InInset (graph_with (split_under parent node right cut u b) g) node p)
        × (cut ≤ p →
        LeadsTo (record_of (adopted cut right u)) p right
        × InInset (graph_with (split_under parent node right cut u b) g) right p) }
    ensures grow { (g : ℕ → NodeState) (f : ℕ → Frame) (kind : Kind) (node left right cut p : ℕ) (b : Body) → Good g →
        Tree g f → CanPart g f node right cut b → record_at g left ≡ None → left ≢ right →
        IsPlain (grown kind cut left right b) → IsPlain (split_left cut b) → IsPlain (split_right cut b) →
        InInset g node p →
        (p < cut → LeadsTo (record_of (grown kind cut left right b)) p left
        × InInset (graph_with (grow kind node left right cut b) g) left p)
        × (cut ≤ p →
        LeadsTo (record_of (grown kind cut left right b)) p right
        × InInset (graph_with (grow kind node left right cut b) g) right p) }
{
    changes_law();
    tree_facts_law();
    tree_law();
}

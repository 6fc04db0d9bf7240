//! What the shapes of a tree do to bodies, as steps of the discipline.

ghost use Rattle.std.specs.Prelude.{◌≢◌, ℕ, ◌≡◌, Option, None, Some};
ghost use Rattle.ks_keysets.specs.declared.Frame.{Frame};
ghost use Rattle.ks_keysets.specs.declared.Kind.{Kind};
ghost use Rattle.ks_keysets.specs.declared.NodeState.{NodeState};
ghost use Rattle.ks_keysets.specs.Keyset.{Good, record_at};
ghost use Rattle.ks_node.specs.Body.{Body};
ghost use Rattle.ks_node.specs.Effect.{grown, split_left, split_right, adopted, absorbed, forgot, collapsed};
ghost use Rattle.ks_flow.specs.Tree.{Tree};
ghost use Rattle.ks_flow.specs.Changes.{graph_with};
ghost use Rattle.ks_flow.specs.Discipline.{TreeStep};
ghost use Rattle.ks_flow.specs.Insets.{SplitsInsetOwn, SplitsInsetUnder, GrowsInset, AbsorbsInsetOwn, AbsorbsInsetUnder, CollapsesInset};
ghost use Rattle.ks_bodies.specs.Stands.{IsPlain};
ghost use Rattle.ks_bodies.specs.Shapes.{CanPart, CanAdopt, CanAbsorbOwn, CanAbsorbUnder, CanCollapse, split_on, split_own, split_under, grow, absorb_own, absorb_under, collapse};

use ks_flow::laws::{changes_law, insets_law, tree_facts_law, tree_law};

/// The changes of bodies that each shape makes are a step of the discipline of trees.
pub fn tree_steps_law()
    ensures split_own { (g : ℕ → NodeState) (f : ℕ → Frame) (node right cut : ℕ) (b : Body) → Good g → Tree g f →
        CanPart g f node right cut b → IsPlain (split_on cut right b) → IsPlain (split_right cut b) →
        TreeStep g f (split_own node right cut b) }
    ensures split_under { (g : ℕ → NodeState) (f : ℕ → Frame) (parent node right cut : ℕ) (u b : Body) → Good g →
        Tree g f →
        CanAdopt g f parent node u → CanPart g f node right cut b → IsPlain (adopted cut right u) →
        IsPlain (split_left cut b) → IsPlain (split_right cut b) →
        TreeStep g f (split_under parent node right cut u b) }
    ensures grow { (g : ℕ → NodeState) (f : ℕ → Frame) (kind : Kind) (node left right cut : ℕ) (b : Body) → Good g →
        Tree g f →
        CanPart g f node right cut b → record_at g left ≡ None → left ≢ right → IsPlain (grown kind cut left right b) →
        IsPlain (split_left cut b) → IsPlain (split_right cut b) → TreeStep g f (grow kind node left right cut b) }
    ensures absorb_own { (g : ℕ → NodeState) (f : ℕ → Frame) (node right : ℕ) (b q : Body) → Good g → Tree g f →
        CanAbsorbOwn g f node right b q → IsPlain (absorbed b q) → TreeStep g f (absorb_own node right b q) }
    ensures absorb_under { (g : ℕ → NodeState) (f : ℕ → Frame) (parent node right : ℕ) (u b q : Body) → Good g →
        Tree g f →
        CanAbsorbUnder g f parent node right u b q → IsPlain (forgot right u) → IsPlain (absorbed b q) →
        TreeStep g f (absorb_under parent node right u b q) }
    ensures collapse { (g : ℕ → NodeState) (f : ℕ → Frame) (node child : ℕ) (b q : Body) → Good g → Tree g f →
        CanCollapse g f node child b q → IsPlain (collapsed b q) → TreeStep g f (collapse node child b q) }
{
    changes_law();
    tree_facts_law();
    tree_law();
}

/// What each shape does to the insets of the nodes that it names; the others keep their insets.
pub fn tree_insets_law()
    ensures split_own { (g : ℕ → NodeState) (f : ℕ → Frame) (node right cut : ℕ) (b : Body) → Good g → Tree g f →
        CanPart g f node right cut b → IsPlain (split_on cut right b) → IsPlain (split_right cut b) →
        SplitsInsetOwn g (graph_with (split_own node right cut b) g) node right cut }
    ensures split_under { (g : ℕ → NodeState) (f : ℕ → Frame) (parent node right cut : ℕ) (u b : Body) → Good g →
        Tree g f →
        CanAdopt g f parent node u → CanPart g f node right cut b → IsPlain (adopted cut right u) →
        IsPlain (split_left cut b) → IsPlain (split_right cut b) →
        SplitsInsetUnder g (graph_with (split_under parent node right cut u b) g) parent node right cut }
    ensures grow { (g : ℕ → NodeState) (f : ℕ → Frame) (kind : Kind) (node left right cut : ℕ) (b : Body) → Good g →
        Tree g f →
        CanPart g f node right cut b → record_at g left ≡ None → left ≢ right → IsPlain (grown kind cut left right b) →
        IsPlain (split_left cut b) → IsPlain (split_right cut b) →
        GrowsInset g (graph_with (grow kind node left right cut b) g) node left right cut }
    ensures absorb_own { (g : ℕ → NodeState) (f : ℕ → Frame) (node right : ℕ) (b q : Body) → Good g → Tree g f →
        CanAbsorbOwn g f node right b q → IsPlain (absorbed b q) →
        AbsorbsInsetOwn g (graph_with (absorb_own node right b q) g) node right }
    ensures absorb_under { (g : ℕ → NodeState) (f : ℕ → Frame) (parent node right : ℕ) (u b q : Body) → Good g →
        Tree g f →
        CanAbsorbUnder g f parent node right u b q → IsPlain (forgot right u) → IsPlain (absorbed b q) →
        AbsorbsInsetUnder g (graph_with (absorb_under parent node right u b q) g) parent node right }
    ensures collapse { (g : ℕ → NodeState) (f : ℕ → Frame) (node child : ℕ) (b q : Body) → Good g → Tree g f →
        CanCollapse g f node child b q → IsPlain (collapsed b q) →
        CollapsesInset g (graph_with (collapse node child b q) g) node child }
{
    changes_law();
    tree_facts_law();
    insets_law();
}

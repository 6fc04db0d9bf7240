//! What the tests of nodes say of their tree: which node is low, which fit, and what is right of a node.

ghost use Rattle.std.specs.Prelude.{ℕ, suc, ◌≡◌, ◌≢◌, ◌⊎◌, Option, ◌↔◌, Some, None, All, Any, IsTrue, false};
ghost use Rattle.ks_keysets.specs.declared.Frame.{Frame};
ghost use Rattle.ks_keysets.specs.declared.Kind.TheVariants.{NoBranch};
ghost use Rattle.ks_keysets.specs.declared.NodeState.{NodeState};
ghost use Rattle.ks_keysets.specs.declared.Record.{Record};
ghost use Rattle.ks_keysets.specs.Record.{LeadsTo, top};
ghost use Rattle.ks_keysets.specs.Keyset.{record_at, Good, InKeyset};
ghost use Rattle.ks_keysets.specs.Reframed.{SameNodes};
ghost use Rattle.ks_keysets.specs.Layout.{Layout};
ghost use Rattle.ks_keysets.specs.Tight.{IsLow, Fit, HasOwnEdge, IsRightNeighbour, FitsNoRight, IsTight, IsTidyAt};
ghost use Rattle.ks_node.specs.Body.{Body, is_branch, chained_of, only_child_of, right_child};
ghost use Rattle.ks_node.specs.Edges.{record_of, edges_of};
ghost use Rattle.ks_node.specs.Room.{is_low, fit_together};
ghost use Rattle.ks_flow.specs.Tree.{Tree};
ghost use Rattle.ks_flow.specs.Tight.{IsTightBelow};
ghost use Rattle.ks_bodies.specs.Stands.{Stands, IsPlain};
ghost use Rattle.ks_bodies.specs.Neighbours.{neighbour_of};

use ks_flow::{tidy_law, tight_law};
use ks_node::Node;

/// A node is low, two nodes fit, a node has an edge of its own, or is a branch over one child, if and only if its body says
/// so; and a node has the same body in each graph with the same nodes.
pub fn tests_law()
    ensures low { (layout : Layout) (g : ℕ → NodeState) (f : ℕ → Frame) (n : ℕ) (b : Body) → Stands g f n b →
        IsTrue (is_low layout b) ↔ IsLow layout (f n).kind (record_of b) }
    ensures fit { (layout : Layout) (g : ℕ → NodeState) (f : ℕ → Frame) (n m : ℕ) (b q : Body) → Stands g f n b →
        Stands g f m q →
        IsTrue (fit_together layout b q) ↔ Fit layout (f n).kind (record_of b) (f m).kind (record_of q) }
    ensures chained { (g : ℕ → NodeState) (f : ℕ → Frame) (n m : ℕ) (b : Body) → Stands g f n b →
        chained_of b ≡ Some m ↔ (HasOwnEdge (f n) (record_of b) × Any (λ e. e.node ≡ m) (edges_of b)) }
    ensures unchained { (g : ℕ → NodeState) (f : ℕ → Frame) (n : ℕ) (b : Body) → Stands g f n b →
        chained_of b ≡ None ↔ ¬ HasOwnEdge (f n) (record_of b) }
    ensures only_child { (g : ℕ → NodeState) (f : ℕ → Frame) (n m : ℕ) (b : Body) → Stands g f n b →
        only_child_of b ≡ Some m ↔ (((f n).kind ≢ NoBranch) × All (λ e. e.node ≡ m) (edges_of b)) }
    ensures same { (g k : ℕ → NodeState) (f h : ℕ → Frame) (n : ℕ) (b : Body) → SameNodes g f k h → Stands k h n b →
        Stands g f n b }
    ensures no_only_child { (g : ℕ → NodeState) (f : ℕ → Frame) (n : ℕ) (b : Body) → Stands g f n b →
        only_child_of b ≡ None →
        (r : Record) (m : ℕ) → record_at g n ≡ Some r → (f n).kind ≢ NoBranch → ¬ All (λ e. e.node ≡ m) r.edges }
{}

/// The right neighbour of a node is the target of its own edge; if it has none, the node to which its parent, a branch,
/// leads next. The root, and a node below one that is no branch, has one only by an edge of its own.
pub fn rights_law()
    ensures own { (g : ℕ → NodeState) (f : ℕ → Frame) (n m : ℕ) (b : Body) → Stands g f n b → chained_of b ≡ Some m →
        (k : ℕ) → IsRightNeighbour g f n k ↔ k ≡ m }
    ensures beside { (g : ℕ → NodeState) (f : ℕ → Frame) (parent n place : ℕ) (u b : Body) → Tree g f →
        Stands g f parent u → Stands g f n b → IsTrue (is_branch u) →
        LeadsTo (record_of u) place n → chained_of b ≡ None → (m : ℕ) →
        IsRightNeighbour g f n m ↔ right_child u place ≡ Some m }
    ensures below_chain { (g : ℕ → NodeState) (f : ℕ → Frame) (parent n place : ℕ) (u b : Body) → Tree g f →
        Stands g f parent u → Stands g f n b → is_branch u ≡ false →
        LeadsTo (record_of u) place n → chained_of b ≡ None → (m : ℕ) → ¬ IsRightNeighbour g f n m }
    ensures root { (g : ℕ → NodeState) (f : ℕ → Frame) (b : Body) → Tree g f → Stands g f 0 b → chained_of b ≡ None →
        (m : ℕ) → ¬ IsRightNeighbour g f 0 m }
    ensures child { (g : ℕ → NodeState) (f : ℕ → Frame) (parent n place : ℕ) (u b : Body) → Tree g f →
        Stands g f parent u → Stands g f n b → LeadsTo (record_of u) place n →
        (m : ℕ) → IsRightNeighbour g f n m ↔ neighbour_of u b place ≡ Some m }
    ensures which { (u b : Body) (place m : ℕ) → neighbour_of u b place ≡ Some m →
        (chained_of b ≡ Some m) ⊎ ((chained_of b ≡ None) × IsTrue (is_branch u) × (right_child u place ≡ Some m)) }
    ensures leads { (u b : Body) (place m : ℕ) → IsPlain u → IsPlain b → neighbour_of u b place ≡ Some m →
        Any (λ e. e.node ≡ m) (edges_of b) ⊎ Any (λ e. e.node ≡ m) (edges_of u) }
{}

/// What is right of the node to which the parent leads at the place.
pub fn neighbour<N: Node>(parent: &N, node: &N, place: u64) -> Option<u32>
    ensures { result ≡ neighbour_of (N.body parent.now) (N.body node.now) place }
{
    node.chained().or(parent.right_of(place))
}

/// When a node fits with no right neighbour, by the tests of bodies.
pub fn alone_law()
    ensures own { (layout : Layout) (g : ℕ → NodeState) (f : ℕ → Frame) (n m : ℕ) (b q : Body) → Stands g f n b →
        Stands g f m q → chained_of b ≡ Some m →
        fit_together layout b q ≡ false → FitsNoRight layout g f n }
    ensures beside { (layout : Layout) (g : ℕ → NodeState) (f : ℕ → Frame) (parent n m place : ℕ) (u b q : Body) →
        Tree g f → Stands g f parent u → Stands g f n b → Stands g f m q →
        IsTrue (is_branch u) → LeadsTo (record_of u) place n → chained_of b ≡ None → right_child u place ≡ Some m →
        fit_together layout b q ≡ false → FitsNoRight layout g f n }
    ensures last { (layout : Layout) (g : ℕ → NodeState) (f : ℕ → Frame) (parent n place : ℕ) (u b : Body) → Tree g f →
        Stands g f parent u → Stands g f n b → LeadsTo (record_of u) place n →
        chained_of b ≡ None → right_child u place ≡ None → FitsNoRight layout g f n }
    ensures root { (layout : Layout) (g : ℕ → NodeState) (f : ℕ → Frame) (b : Body) → Tree g f → Stands g f 0 b →
        chained_of b ≡ None → FitsNoRight layout g f 0 }
    ensures child { (layout : Layout) (g : ℕ → NodeState) (f : ℕ → Frame) (parent n m place : ℕ) (u b q : Body) →
        Tree g f → Stands g f parent u → Stands g f n b → Stands g f m q →
        LeadsTo (record_of u) place n → neighbour_of u b place ≡ Some m → fit_together layout b q ≡ false →
        FitsNoRight layout g f n }
    ensures child_alone { (layout : Layout) (g : ℕ → NodeState) (f : ℕ → Frame) (parent n place : ℕ) (u b : Body) →
        Tree g f → Stands g f parent u → Stands g f n b →
        LeadsTo (record_of u) place n → neighbour_of u b place ≡ None → FitsNoRight layout g f n }
{}

/// When tidying has done its work: a place is tidy if the node whose keyset holds it is not low, or fits with no right
/// neighbour; and a graph is tight if all nodes were tested, and the root is no branch over one child.
pub fn tidied_law()
    ensures tidy { (layout : Layout) (g : ℕ → NodeState) (f : ℕ → Frame) (n p : ℕ) (b : Body) → Good g →
        Stands g f n b → InKeyset g n p →
        (IsTrue (is_low layout b) → FitsNoRight layout g f n) → IsTidyAt layout g f p }
    ensures tight { (layout : Layout) (g : ℕ → NodeState) (f : ℕ → Frame) (b : Body) → Good g → Tree g f →
        IsTightBelow layout g f (suc top) → Stands g f 0 b →
        only_child_of b ≡ None → IsTight layout g f }
{
    tidy_law();
    tight_law();
}

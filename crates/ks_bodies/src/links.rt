//! Bodies with links: what the calls of their shapes require of them, and how what the calls make of them keeps the
//! discipline of links.

ghost use Rattle.std.specs.Prelude.{ℕ, ◌≡◌, ◌<◌, ◌≤◌, ◌⊎◌, Option, Some, All, IsTrue};
ghost use Rattle.ks_keysets.specs.declared.Frame.{Frame};
ghost use Rattle.ks_keysets.specs.declared.Kind.{Kind};
ghost use Rattle.ks_keysets.specs.declared.NodeState.{NodeState};
ghost use Rattle.ks_keysets.specs.declared.Span.{Span};
ghost use Rattle.ks_keysets.specs.Keyset.{Good, IsLive};
ghost use Rattle.ks_keysets.specs.Record.{LeadsTo};
ghost use Rattle.ks_node.specs.Edges.{record_of};
ghost use Rattle.ks_node.specs.Body.{Body, is_branch, all_places, begins, last_of};
ghost use Rattle.ks_node.specs.Effect.{split_right, adopted, with_link};
ghost use Rattle.ks_node.specs.Asks.{Suits};
ghost use Rattle.ks_flow.specs.Link.{Link};
ghost use Rattle.ks_flow.specs.Discipline.{LinkStep};
ghost use Rattle.ks_bodies.specs.Links.{IsLinked, StandsLinked, CanSplitRight, CanGrowRight, CanAttach, StandsUnder, split_linked, grown_higher, split_to_right, grow_right, attach};

use ks_flow::laws::{changes_law, link_law, link_shapes_law};

/// The range of a node suits its body, so that a full one may be cut there; that of the root is all places, and the
/// level of the root is below each bound on the numbers of live nodes, as `grow_link` requires; and a branch has no pairs,
/// as `adopt` requires.
pub fn link_asks_law()
    ensures suits { (g : ℕ → NodeState) (f : ℕ → Frame) (n : ℕ) (b : Body) → Good g → Link g f → StandsLinked g f n b →
        (range : Span) × (b.range ≡ Some range) × Suits b range }
    ensures root { (g : ℕ → NodeState) (f : ℕ → Frame) (b : Body) → Link g f → StandsLinked g f 0 b →
        b.range ≡ Some all_places }
    ensures level { (g : ℕ → NodeState) (f : ℕ → Frame) (b : Body) (bound : ℕ) → Good g → Link g f →
        StandsLinked g f 0 b → ((n : ℕ) → IsLive g n → n < bound) → b.level < bound }
    ensures adopt { (b : Body) (cut : ℕ) → IsLinked b → IsTrue (is_branch b) → All (λ x. x.place < cut) b.pairs }
{
    link_law();
}

/// The changes of bodies that each shape under links makes are a step of the discipline of links.
pub fn link_steps_law()
    ensures split_right { (g : ℕ → NodeState) (f : ℕ → Frame) (node right cut : ℕ) (b : Body) → Good g → Link g f →
        CanSplitRight g f node right cut b → IsLinked (split_linked cut right b) → IsLinked (split_right cut b) →
        LinkStep g f (split_to_right node right cut b) }
    ensures grow_right { (g : ℕ → NodeState) (f : ℕ → Frame) (kind : Kind) (left right cut : ℕ) (b : Body) → Good g →
        Link g f →
        CanGrowRight g f left right cut b → IsLinked (grown_higher kind cut left right b) →
        IsLinked (split_linked cut right b) → IsLinked (with_link None (split_right cut b)) →
        LinkStep g f (grow_right kind 0 left right cut b) }
    ensures attach { (g : ℕ → NodeState) (f : ℕ → Frame) (node id cut : ℕ) (b : Body) → Good g → Link g f →
        CanAttach g f node id cut b → IsLinked (adopted cut id b) → LinkStep g f (attach node id cut b) }
{
    changes_law();
    link_shapes_law();
}

/// Both halves of a root that grows are led to from the level above, and so are a node that is attached and the node at
/// the start of an edge.
pub fn link_leads_law()
    ensures grow_right { (g : ℕ → NodeState) (f : ℕ → Frame) (kind : Kind) (left right cut : ℕ) (b : Body) → Good g →
        Link g f →
        CanGrowRight g f left right cut b → IsLinked (grown_higher kind cut left right b) →
        IsLinked (split_linked cut right b) → IsLinked (with_link None (split_right cut b)) →
        LeadsTo (record_of (grown_higher kind cut left right b)) 0 left
        × LeadsTo (record_of (grown_higher kind cut left right b)) cut right }
    ensures attach { (g : ℕ → NodeState) (f : ℕ → Frame) (node id cut : ℕ) (b : Body) → Good g → Link g f →
        CanAttach g f node id cut b → IsLinked (adopted cut id b) → LeadsTo (record_of (adopted cut id b)) cut id }
    ensures begun { (g : ℕ → NodeState) (f : ℕ → Frame) (node id cut : ℕ) (b : Body) → Good g → Link g f →
        StandsLinked g f node b → StandsUnder g f id b.level cut → b.low ≤ cut → cut ≤ last_of b.range →
        (b.low ≡ cut) ⊎ IsTrue (begins cut b.starts) → LeadsTo (record_of b) cut id }
{
    changes_law();
}

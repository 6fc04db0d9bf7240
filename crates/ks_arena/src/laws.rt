//! What follows from sound traces. The function computes nothing: its contract is a law.
ghost use Rattle.std.specs.Prelude.{◌≡◌, ◌≢◌, ◌<◌, ℕ, List, Option, Any};
ghost use Rattle.ks_keysets.specs.declared.Record.{Record};
ghost use Rattle.ks_keysets.specs.Keyset.{record_at, IsLive, InInset, InKeyset};
ghost use Rattle.ks_keysets.specs.Walk.{OneParent};
ghost use Rattle.ks_history.specs.declared.Event.{Event as Happening};
ghost use Rattle.ks_history.specs.Trace.{◌⊑◌, free, held, graph_after, turn_after};
ghost use Rattle.ks_history.specs.Frames.{frame_after};
ghost use Rattle.ks_history.specs.Lawful.{Lawful, GoodThroughout};
ghost use Rattle.ks_history.specs.Due.{FullsDue};
ghost use Rattle.ks_history.specs.Passes.{GrowsByOthers};
ghost use Rattle.ks_history.specs.Beside.{AreBeside};
ghost use Rattle.ks_flow.specs.Link.{lives_below, LastsUnderLink};
ghost use Rattle.ks_flow.specs.Discipline.{SameKeyset, BeginsTree, TreeStep, BeginsLink, LinkStep};
ghost use Rattle.std.specs.Option.{ForSome};
ghost use Rattle.ks_node.specs.Body.{content_of};
ghost use Rattle.ks_node.specs.Sound.{Framed, Sound as IsInOrder};
ghost use Rattle.ks_arena.specs.Reuse.{KeepsLive, ReusesSafely};
ghost use Rattle.ks_arena.specs.Sound.{Sort, blank_of, Sound};

use ks_flow::laws::{link_law, tree_facts_law, walks_law};
use ks_flow::{Discipline, Link, Tree};
use ks_node::Node;

/// A sound trace is lawful and its graph is good throughout; at each beginning it has the facts of the discipline, and
/// each Full was due. What lasts under the discipline lasts from each beginning on. While others act, a node that a
/// caller holds keeps its keyset, and what the discipline keeps at a node that no Shape names.
pub fn sound_law<D: Discipline>()
    ensures lawful { (sort : Sort) (nodes : ℕ) (h : List Happening) → Sound sort D.begins D.step nodes h → Lawful h }
    ensures good { (sort : Sort) (nodes : ℕ) (h : List Happening) → Sound sort D.begins D.step nodes h →
        GoodThroughout h }
    ensures facts { (sort : Sort) (nodes : ℕ) (h : List Happening) → Sound sort D.begins D.step nodes h →
        D.facts (graph_after h) (frame_after (blank_of sort) h) }
    ensures begins { (sort : Sort) (nodes : ℕ) (k h : List Happening) → k ⊑ h → Sound sort D.begins D.step nodes h →
        Sound sort D.begins D.step nodes k }
    ensures due { (sort : Sort) (nodes : ℕ) (h : List Happening) → Sound sort D.begins D.step nodes h →
        FullsDue sort.layout nodes h }
    ensures lasts { (sort : Sort) (nodes : ℕ) (k h : List Happening) → k ⊑ h → Sound sort D.begins D.step nodes h →
        D.lasts (graph_after k) (frame_after (blank_of sort) k) (graph_after h) (frame_after (blank_of sort) h) }
    ensures keyset { (sort : Sort) (nodes c i : ℕ) (k h : List Happening) → GrowsByOthers c k h →
        turn_after h i ≡ held c → Sound sort D.begins D.step nodes h → SameKeyset i (graph_after k) (graph_after h) }
    ensures beside { (sort : Sort) (nodes c i : ℕ) (k h : List Happening) → GrowsByOthers c k h →
        turn_after h i ≡ held c → Sound sort D.begins D.step nodes h → D.beside i (graph_after k) (graph_after h) }
{
    D::laws();
    walks_law();
}

/// The target of an edge of a node that a caller holds is never found free, whatever others do.
pub fn target_law<D: Discipline>()
    ensures { (sort : Sort) (nodes c above i : ℕ) (seen h : List Happening) (r : Record) → GrowsByOthers c seen h →
        Sound sort D.begins D.step nodes h → turn_after seen above ≡ held c →
        record_at (graph_after seen) above ≡ Some r → Any (λ e. e.node ≡ i) r.edges → turn_after h i ≢ free }
{
    sound_law::<D>();
}

/// Under links, a node that was live is never found free later.
pub fn link_live_law()
    ensures { (sort : Sort) (nodes i : ℕ) (k h : List Happening) → k ⊑ h → Sound sort BeginsLink LinkStep nodes h →
        IsLive (graph_after k) i → turn_after h i ≢ free }
{
    sound_law::<Link>();
}

/// In a sound trace the reuse of nodes does no harm.
pub fn reuse_law<D: Discipline>()
    ensures { (sort : Sort) (nodes : ℕ) (k h : List Happening) → Sound sort D.begins D.step nodes h →
        ReusesSafely D.lasts k h }
{
    sound_law::<D>();
}

/// Under links a live node stays live, so that none is used again.
pub fn link_lasts_law()
    ensures { KeepsLive LastsUnderLink }
{}

/// Under links the level of the root is below the number of live nodes.
pub fn link_level_law()
    ensures { (sort : Sort) (nodes : ℕ) (h : List Happening) → 0 < nodes → Sound sort BeginsLink LinkStep nodes h →
        (frame_after (blank_of sort) h 0).level < lives_below (graph_after h) nodes }
{
    sound_law::<Link>();
    beside_law::<Link>();
    link_law();
}

/// The root is never found free.
pub fn root_stays_law<D: Discipline>()
    ensures { (sort : Sort) (nodes : ℕ) (h : List Happening) → Sound sort D.begins D.step nodes h →
        turn_after h 0 ≢ free }
{
    sound_law::<D>();
}

/// In a sound trace each Shape leaves the keysets of the nodes that it does not name, and live nodes are nodes of the
/// arena.
pub fn beside_law<D: Discipline>()
    ensures keysets { (sort : Sort) (nodes : ℕ) (h : List Happening) → Sound sort D.begins D.step nodes h →
        AreBeside InKeyset h }
    ensures live { (sort : Sort) (nodes m : ℕ) (h : List Happening) → 0 < nodes → Sound sort D.begins D.step nodes h →
        IsLive (graph_after h) m → m < nodes }
{
    D::laws();
    walks_law();
}

/// Under trees each Shape leaves the insets of the nodes that it does not name, and edges lead to a node from one node at
/// most, and none to the root.
pub fn tree_beside_law()
    ensures insets { (sort : Sort) (nodes : ℕ) (h : List Happening) → Sound sort BeginsTree TreeStep nodes h →
        AreBeside InInset h }
    ensures parents { (sort : Sort) (nodes : ℕ) (h : List Happening) → Sound sort BeginsTree TreeStep nodes h →
        OneParent (graph_after h) }
{
    sound_law::<Tree>();
    Tree::laws();
    walks_law();
    tree_facts_law();
}

/// What each body of a node type is: its edges and pairs are in order, and a range, if it has one, begins at its first edge.
pub fn bodies_law<N: Node>()
    ensures sound { (body : N) → IsInOrder (content_of (N.body body)) }
    ensures framed { (body : N) → ForSome (N.body body).range (λ range. Framed range (N.body body)) }
{}

//! Laws of traces. Each function here computes nothing: its contract is a law.

ghost use Rattle.std.specs.Prelude.{ℕ, suc, ◌≡◌, ◌≢◌, ◌<◌, ◌≤◌, ◌++◌, List, Some, Any};
ghost use Rattle.ks_keysets.specs.declared.Record.{Record};
ghost use Rattle.ks_keysets.specs.Record.{IsPlace};
ghost use Rattle.ks_keysets.specs.Keyset.{record_at, IsFound, IsLive, InInset, InKeyset};
ghost use Rattle.ks_keysets.specs.Walk.{OneParent};
ghost use Rattle.ks_history.specs.declared.Op.{Op};
ghost use Rattle.ks_history.specs.declared.Event.{Event};
ghost use Rattle.ks_history.specs.Map.{map_after, Legal, Touches};
ghost use Rattle.ks_history.specs.Trace.{◌⊑◌, free, idle, held, graph_after, turn_after, calls_of};
ghost use Rattle.ks_history.specs.Own.{mine, hand};
ghost use Rattle.ks_history.specs.Lawful.{Lawful, GoodThroughout};
ghost use Rattle.ks_history.specs.Passes.{GrowsByOthers, Has, GrowsWith};
ghost use Rattle.ks_history.specs.Stays.{StaysHeld};
ghost use Rattle.ks_history.specs.Hand.{AreOnce};
ghost use Rattle.ks_history.specs.Refusals.{IsOnWay, BusyDue, MovedDue, FarDue};
ghost use Rattle.ks_history.specs.Alone.{ActsAlone, HoldsAlone};
ghost use Rattle.ks_history.specs.Beside.{NoneShapes, OwnSpare, AreBeside};
ghost use Rattle.ks_history.specs.Descent.{IsDeep, TookSince};
ghost use Rattle.ks_keysets.specs.declared.Frame.{Frame};
ghost use Rattle.ks_keysets.specs.Reframed.{SameNodes};
ghost use Rattle.ks_history.specs.Frames.{frame_after};
ghost use Rattle.ks_history.specs.Quiet.{IsTurn, OnlyTurns};

/// The keyset theorem: if every event of a trace met its condition and every graph between was good, the replies are those
/// of one map, and the graph at the end holds what that map holds.
pub fn keyset_theorem()
    ensures legal { (h : List Event) → Lawful h → GoodThroughout h → Legal (calls_of h) }
    ensures found { (h : List Event) → Lawful h → GoodThroughout h → (p : ℕ) → IsPlace p →
        IsFound (graph_after h) p (map_after (calls_of h) p) }
{}

/// While others act, what a caller holds stays as it is: its turns, states and frames, its hand and its own events.
pub fn stability_law()
    ensures held { (c i : ℕ) (g h : List Event) → Lawful h → GrowsByOthers c g h → turn_after g i ≡ held c →
        StaysHeld c i g h }
    ensures back { (c i : ℕ) (g h : List Event) → GrowsByOthers c g h → turn_after h i ≡ held c →
        turn_after g i ≡ held c }
    ensures hand { (c : ℕ) (g h : List Event) → GrowsByOthers c g h → hand c h ≡ hand c g }
    ensures mine { (c : ℕ) (g h : List Event) → GrowsByOthers c g h → mine c h ≡ mine c g }
{}

/// In a lawful trace the hand of a caller is the nodes whose turn is its own, each once; a node that is idle is live,
/// and one that is free is not.
pub fn turn_law()
    ensures held { (c i : ℕ) (h : List Event) → Lawful h → Has (hand c h) i → turn_after h i ≡ held c }
    ensures in_hand { (c i : ℕ) (h : List Event) → turn_after h i ≡ held c → Has (hand c h) i }
    ensures once { (c : ℕ) (h : List Event) → Lawful h → AreOnce (hand c h) }
    ensures idle { (i : ℕ) (h : List Event) → Lawful h → turn_after h i ≡ idle → IsLive (graph_after h) i }
    ensures live { (i : ℕ) (h : List Event) → Lawful h → IsLive (graph_after h) i → turn_after h i ≢ free }
{}

/// If no other caller holds a node, none does while only one caller acts; and no Busy, Moved or Far of that one is due.
pub fn alone_law()
    ensures holds { (c : ℕ) (h k : List Event) → ActsAlone c h k → HoldsAlone c h → HoldsAlone c k }
    ensures busy { (c node holder : ℕ) (op : Op) (s0 s1 : List Event) → ActsAlone c s0 s1 → HoldsAlone c s0 →
        ¬ BusyDue c op s0 s1 node holder }
    ensures moved { (c node : ℕ) (op : Op) (s0 s1 : List Event) → ActsAlone c s0 s1 → ¬ MovedDue c op s0 s1 node }
    ensures far { (n c : ℕ) (s0 s1 : List Event) → ActsAlone c s0 s1 → ¬ FarDue n c s0 s1 }
{}

/// If each Shape leaves the insets of the nodes that it does not name, a place stays in the inset of a node that none
/// names; and so with keysets. So if a node was on the search path of a place in its inset, later its inset lacks the
/// place, and no Shape of the caller named it meanwhile, Moved is due.
pub fn moved_law()
    ensures inset { (i p : ℕ) (rest h : List Event) → NoneShapes i rest → Lawful (rest ++ h) →
        AreBeside InInset (rest ++ h) → InInset (graph_after h) i p → InInset (graph_after (rest ++ h)) i p }
    ensures keyset { (i p : ℕ) (rest h : List Event) → NoneShapes i rest → Lawful (rest ++ h) →
        AreBeside InKeyset (rest ++ h) → InKeyset (graph_after h) i p → InKeyset (graph_after (rest ++ h)) i p }
    ensures due { (c i p : ℕ) (op : Op) (s0 before after s1 : List Event) → s0 ⊑ before → (later : before ⊑ after) →
        after ⊑ s1 → Touches op p → Lawful after → AreBeside InInset after → OwnSpare c i later.rest →
        IsOnWay (graph_after before) p i → InInset (graph_after before) i p → ¬ InInset (graph_after after) i p →
        MovedDue c op s0 s1 i }
{}

/// Far is due if a caller took at least as many nodes as there are, the root twice at most, each a step deeper than the
/// one before unless another made a Shape, and would go down to one more.
pub fn far_law()
    ensures { (n c : ℕ) (gone : List ℕ) (s0 h : List Event) (taken roots steps i j : ℕ) (r : Record) →
        TookSince c s0 h taken roots → roots ≤ 2 → n ≤ taken → IsDeep n c gone s0 h steps i → taken ≤ suc steps →
        OneParent (graph_after h) →
        ((m : ℕ) → IsLive (graph_after h) m → m < n) → record_at (graph_after h) i ≡ Some r →
        Any (λ e. e.node ≡ j) r.edges → IsLive (graph_after h) j → FarDue n c s0 h }
{}

/// The events Take and Give leave all live nodes with their records and frames; and while only one caller acts, and
/// only takes and releases nodes, there are no other events.
pub fn turns_law()
    ensures none { (h : List Event) → OnlyTurns h h }
    ensures looks { (c : ℕ) (h k m : List Event) → h ⊑ k → OnlyTurns h k → GrowsByOthers c k m → ActsAlone c h m →
        OnlyTurns h m }
    ensures turns { (c : ℕ) (h k m : List Event) (e : Event) → h ⊑ k → OnlyTurns h k → IsTurn e → GrowsWith c e k m →
        ActsAlone c h m → OnlyTurns h m }
    ensures same { (blank : Frame) (h k : List Event) → OnlyTurns h k →
        SameNodes (graph_after h) (frame_after blank h) (graph_after k) (frame_after blank k) }
{}

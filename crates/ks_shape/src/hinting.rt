//! What a technique of concurrency offers besides: calls that begin at a hint, and say where they were decided.
ghost use Rattle.std.specs.Prelude.{◌≡◌, ◌≢◌, ◌<◌, ◌≤◌, IfNone, IfOk, IfSome, IsTrue, None};
ghost use Rattle.ks_history.specs.declared.Op.TheVariants.{Del, Get, Swap};
ghost use Rattle.ks_history.specs.Map.{told};
ghost use Rattle.ks_arena.specs.Of.{SameCaller, WasAlone};
ghost use Rattle.ks_shape.specs.Answers.{number_at, reply_at};
ghost use Rattle.ks_shape.specs.Does.{OnlyDels, OnlyFills, OnlySearches};
ghost use Rattle.ks_shape.specs.Fills.{filling};
ghost use Rattle.ks_shape.specs.Hinted.{BeginsAtHint, HasPassed, IsDoneWhere, IsWhere};
ghost use Rattle.ks_shape.specs.Idle.{IsDone, IsIdle};
ghost use Rattle.ks_shape.specs.Upkeep.{AreNewLed, HasTwoFree, IsTidyIn, LeadsNew, LeavesTidy};

use crate::answers::{Full, NumberedAt};
use crate::fills::Fill;
use crate::template::{Ruled, Shelf};
use ks_arena::Pass;
use ks_gate::Gate;
use ks_node::Node;
use std::sync::Wait;

/// The node at which a call with this hint begins, of this number of nodes: the hinted node, if it is one of them, else the root.
pub fn start_of(hint: Option<u32>, nodes: u32) -> u32
    ensures near { 0 < nodes → result < nodes }
    ensures hinted { IfSome hint (λ i. (i < nodes → result ≡ i) × (nodes ≤ i → result ≡ 0)) }
    ensures root { IfNone hint (result ≡ 0) }
{
    let Some(node) = hint else {
        return 0;
    };
    if node < nodes {
        return node;
    }
    0
}

/// A technique whose calls may begin at a hint: a node at which the caller expects its search to end or to pass. Any
/// hint is right. If the hinted node is live and no caller holds it, and no other caller acts, the call takes it first
/// (`first`). It continues from there if the search for its place may; else, or without a hint, it searches from the
/// root. A hint that is no node of the arena is none.
///
/// Each call does what the call of `Template` with the same name does (`fill_from` what `put` or `add` does), and waits as that
/// does. Its result says also at which node it was decided, which range this node had then, and the last branch with the
/// place in its range that its search passed, if it passed one: these are hints for later calls. The branch was live, and
/// had that range, at some moment since the caller's previous call; it need not have led to the node.
pub trait Hinting<N: Node, A: Shelf>: Ruled {
    /// Returns the value at a place, as `get`.
    fn get_from<R: Wait, G: Gate>(
        rt: &R,
        arena: &A,
        pass: &mut Pass<N, Self::Rule>,
        gate: &G,
        hint: Option<u32>,
        place: u64,
    ) -> NumberedAt
        requires pass { IsIdle (A.site arena.now) pass.old }
        ensures pass { IsIdle (A.site arena.now) pass.new }
        ensures caller { SameCaller pass.old pass.new }
        ensures leaves { OnlySearches pass.old pass.new }
        ensures done { IsDone N.layout Self.technique (A.site arena.now) (Get place)
            pass.old pass.new (told result.found) result.number }
        ensures at { IsDoneWhere N.layout Self.technique (A.site arena.now) (Get place)
            pass.old pass.new result }
        ensures within { IsWhere place result }
        ensures above { IfSome result.above (HasPassed (A.site arena.now).sort place pass.old pass.new) }
        ensures first { BeginsAtHint (A.site arena.now).nodes hint pass.old pass.new };

    /// Sets the value at a place, as `put` or as `add`, whichever `fill` says, and returns the one that was there before. If
    /// the node where its search ends has no room, by giving up the call continues from the root, by lock coupling.
    ///
    /// # Errors
    ///
    /// `Full` is returned, and leaves the map, as for `put`.
    fn fill_from<R: Wait, G: Gate>(
        rt: &R,
        arena: &A,
        pass: &mut Pass<N, Self::Rule>,
        gate: &G,
        hint: Option<u32>,
        place: u64,
        fill: Fill,
    ) -> Result<NumberedAt, Full>
        requires pass { IsIdle (A.site arena.now) pass.old }
        ensures pass { IsIdle (A.site arena.now) pass.new }
        ensures caller { SameCaller pass.old pass.new }
        ensures fills { OnlyFills N.layout N.ranged place pass.old pass.new }
        ensures done { IsDone N.layout Self.technique (A.site arena.now) (filling place fill)
            pass.old pass.new (reply_at result) (number_at result) }
        ensures led { LeadsNew Self.technique → IsTrue N.branches_adopt → IsTrue N.halves_have_room →
            WasAlone pass.old pass.new → HasTwoFree (A.site arena.now) pass.new →
            AreNewLed (A.site arena.now) pass.old pass.new }
        ensures at { IfOk result (IsDoneWhere N.layout Self.technique (A.site arena.now) (filling place fill)
            pass.old pass.new) }
        ensures within { IfOk result (IsWhere place) }
        ensures above { IfOk result (λ at.
            IfSome at.above (HasPassed (A.site arena.now).sort place pass.old pass.new)) }
        ensures first { BeginsAtHint (A.site arena.now).nodes hint pass.old pass.new };

    /// Sets the value at a place to `new` if it is `old`, and returns the one that was there before, as `swap`.
    fn swap_from<R: Wait, G: Gate>(
        rt: &R,
        arena: &A,
        pass: &mut Pass<N, Self::Rule>,
        gate: &G,
        hint: Option<u32>,
        place: u64,
        old: u128,
        new: u128,
    ) -> NumberedAt
        requires pass { IsIdle (A.site arena.now) pass.old }
        ensures pass { IsIdle (A.site arena.now) pass.new }
        ensures caller { SameCaller pass.old pass.new }
        ensures leaves { OnlySearches pass.old pass.new }
        ensures done { IsDone N.layout Self.technique (A.site arena.now) (Swap place old new)
            pass.old pass.new (told result.found) result.number }
        ensures at { IsDoneWhere N.layout Self.technique (A.site arena.now) (Swap place old new)
            pass.old pass.new result }
        ensures within { IsWhere place result }
        ensures above { IfSome result.above (HasPassed (A.site arena.now).sort place pass.old pass.new) }
        ensures first { BeginsAtHint (A.site arena.now).nodes hint pass.old pass.new };

    /// Deletes the value at a place, and returns it, as `del`. If it left its node low, by giving up the call goes on from
    /// the root, by lock coupling, to merge.
    fn del_from<R: Wait, G: Gate>(
        rt: &R,
        arena: &A,
        pass: &mut Pass<N, Self::Rule>,
        gate: &G,
        hint: Option<u32>,
        place: u64,
    ) -> NumberedAt
        requires pass { IsIdle (A.site arena.now) pass.old }
        ensures pass { IsIdle (A.site arena.now) pass.new }
        ensures caller { SameCaller pass.old pass.new }
        ensures dels { OnlyDels N.layout N.ranged pass.old pass.new }
        ensures done { IsDone N.layout Self.technique (A.site arena.now) (Del place)
            pass.old pass.new (told result.found) result.number }
        ensures tidy { LeavesTidy Self.technique → result.found ≢ None →
            WasAlone pass.old pass.new → IsTidyIn (A.site arena.now) pass.new place }
        ensures at { IsDoneWhere N.layout Self.technique (A.site arena.now) (Del place)
            pass.old pass.new result }
        ensures within { IsWhere place result }
        ensures above { IfSome result.above (HasPassed (A.site arena.now).sort place pass.old pass.new) }
        ensures first { BeginsAtHint (A.site arena.now).nodes hint pass.old pass.new };
}

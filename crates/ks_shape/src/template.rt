//! What a technique of concurrency offers: five calls, each of which occurs once in the one history of all calls; and
//! non-blocking calls, each of which occurs there once, or is put off.
ghost use Rattle.std.specs.Prelude.{◌≡◌, ◌≢◌, IsTrue, None};
ghost use Rattle.ks_history.specs.declared.Op.TheVariants.{Add, Del, Get, Put, Swap};
ghost use Rattle.ks_history.specs.Map.{told};
ghost use Rattle.ks_history.specs.Done.{Template as Technique};
ghost use Rattle.ks_arena.specs.Sound.{sort_of, blank_of};
ghost use Rattle.ks_shape.specs.Answers.{number_in, reply_in};
ghost use Rattle.ks_shape.specs.Idle.{IsDone, IsIdle, Site};
ghost use Rattle.ks_shape.specs.Tries.{HasTried, HasTriedPut};
ghost use Rattle.ks_shape.specs.Upkeep.{AreNewLed, HasTwoFree, IsTidyIn, LeadsNew, LeavesTidy};
ghost use Rattle.ks_arena.specs.Of.{SameCaller, WasAlone};
ghost use Rattle.ks_shape.specs.Does.{OnlyDels, OnlyFills, OnlySearches};

use crate::answers::{Full, Later, Numbered, PutLater};
use ks_arena::{Arena, Pass};
use ks_flow::Discipline;
use ks_gate::Gate;
use ks_node::Node;
use std::sync::Wait;

/// What the contract of a call reads of its arena. A template takes its arena as a type parameter: a signature of a trait
/// that names `Arena<N, D>` itself gets no generated proof where it is called.
pub trait Shelf {
    ghost site: { Self → Site };
}

impl<N: Node, D: Discipline> Shelf for Arena<N, D> {
    ghost site = { λ a. record {
      sort = sort_of N.layout N.ranged;
      begins = D.begins;
      step = D.step;
      table = a.table.shared.table_id;
      callers = a.callers;
      nodes = a.nodes;
    } };
}

/// What a technique keeps, over any nodes. It may cross threads, so that code over any technique may be sent to one.
pub trait Ruled: Send + Sync {
    /// What its shapes keep.
    type Rule: Discipline;

    /// Which technique it is.
    ghost technique: { Technique };
}

/// A technique by which callers go from node to node, over one type of nodes. A call waits for nodes that others hold,
/// unless its name begins with `try`. Its pass holds no node before it, and none after it. The call occurs once in the one
/// history of all calls, after all that its pass had seen, and has its number there; it returns what the map held at the
/// place just before it. A non-blocking call may be put off: then it is not in the history.
///
/// A call leaves nodes that it does not need as they are: a get and a swap make no Shape and claim no node (`leaves`); a
/// put and an add split only full nodes and merge none (`fills`); a del merges only low nodes, or a branch with its only
/// child, and claims and splits none (`dels`).
pub trait Template<N: Node, A: Shelf>: Ruled {
    /// The frame of a blank node is as the rule requires. It computes nothing.
    fn fits()
        ensures { Self.Rule.begins (blank_of (sort_of N.layout N.ranged)) };

    /// Returns the value at a place.
    fn get<R: Wait, G: Gate>(
        rt: &R,
        arena: &A,
        pass: &mut Pass<N, Self::Rule>,
        gate: &G,
        place: u64,
    ) -> Numbered
        requires pass { IsIdle (A.site arena.now) pass.old }
        ensures pass { IsIdle (A.site arena.now) pass.new }
        ensures caller { SameCaller pass.old pass.new }
        ensures leaves { OnlySearches pass.old pass.new }
        ensures done { IsDone N.layout Self.technique (A.site arena.now) (Get place)
            pass.old pass.new (told result.found) result.number };

    /// Sets the value at a place, and returns the one that was there before.
    ///
    /// # Errors
    ///
    /// `Full` is returned only if the place has no value, its node has no room, and each node was at some moment not
    /// free since the caller's previous call. Then the map is as before the call, which has its number in the history;
    /// splits that it made before remain.
    ///
    /// Along links the edge to a node that was split off is added after the call has been decided. It is there in the end
    /// if no other caller did anything meanwhile and two nodes are free then, over nodes whose branches adopt any edge
    /// while they are not full, and whose halves have room.
    fn put<R: Wait, G: Gate>(
        rt: &R,
        arena: &A,
        pass: &mut Pass<N, Self::Rule>,
        gate: &G,
        place: u64,
        value: u128,
    ) -> Result<Numbered, Full>
        requires pass { IsIdle (A.site arena.now) pass.old }
        ensures pass { IsIdle (A.site arena.now) pass.new }
        ensures caller { SameCaller pass.old pass.new }
        ensures fills { OnlyFills N.layout N.ranged place pass.old pass.new }
        ensures done { IsDone N.layout Self.technique (A.site arena.now) (Put place value)
            pass.old pass.new (reply_in result) (number_in result) }
        ensures led { LeadsNew Self.technique → IsTrue N.branches_adopt → IsTrue N.halves_have_room →
            WasAlone pass.old pass.new → HasTwoFree (A.site arena.now) pass.new →
            AreNewLed (A.site arena.now) pass.old pass.new };

    /// Sets the value at a place that has none, and returns the one that was there before: if there was one, it remains.
    ///
    /// # Errors
    ///
    /// `Full` is returned, and leaves the map, as for `put`; edges are there as after `put`.
    fn add<R: Wait, G: Gate>(
        rt: &R,
        arena: &A,
        pass: &mut Pass<N, Self::Rule>,
        gate: &G,
        place: u64,
        value: u128,
    ) -> Result<Numbered, Full>
        requires pass { IsIdle (A.site arena.now) pass.old }
        ensures pass { IsIdle (A.site arena.now) pass.new }
        ensures caller { SameCaller pass.old pass.new }
        ensures fills { OnlyFills N.layout N.ranged place pass.old pass.new }
        ensures done { IsDone N.layout Self.technique (A.site arena.now) (Add place value)
            pass.old pass.new (reply_in result) (number_in result) }
        ensures led { LeadsNew Self.technique → IsTrue N.branches_adopt → IsTrue N.halves_have_room →
            WasAlone pass.old pass.new → HasTwoFree (A.site arena.now) pass.new →
            AreNewLed (A.site arena.now) pass.old pass.new };

    /// Sets the value at a place to `new` if it is `old`, and returns the one that was there before: it was set if and only
    /// if that is `old`.
    fn swap<R: Wait, G: Gate>(
        rt: &R,
        arena: &A,
        pass: &mut Pass<N, Self::Rule>,
        gate: &G,
        place: u64,
        old: u128,
        new: u128,
    ) -> Numbered
        requires pass { IsIdle (A.site arena.now) pass.old }
        ensures pass { IsIdle (A.site arena.now) pass.new }
        ensures caller { SameCaller pass.old pass.new }
        ensures leaves { OnlySearches pass.old pass.new }
        ensures done { IsDone N.layout Self.technique (A.site arena.now) (Swap place old new)
            pass.old pass.new (told result.found) result.number };

    /// Deletes the value at a place, and returns it. If it removed a pair while no other caller did anything, the node
    /// whose keyset has the place is then not low, or fits with no right neighbour: only under trees, as no nodes are
    /// merged along links.
    fn del<R: Wait, G: Gate>(
        rt: &R,
        arena: &A,
        pass: &mut Pass<N, Self::Rule>,
        gate: &G,
        place: u64,
    ) -> Numbered
        requires pass { IsIdle (A.site arena.now) pass.old }
        ensures pass { IsIdle (A.site arena.now) pass.new }
        ensures caller { SameCaller pass.old pass.new }
        ensures dels { OnlyDels N.layout N.ranged pass.old pass.new }
        ensures done { IsDone N.layout Self.technique (A.site arena.now) (Del place)
            pass.old pass.new (told result.found) result.number }
        ensures tidy { LeavesTidy Self.technique → result.found ≢ None →
            WasAlone pass.old pass.new → IsTidyIn (A.site arena.now) pass.new place };

    /// Returns the value at a place. It does not wait.
    ///
    /// # Errors
    ///
    /// `Busy`, `Moved` or `Far`, if what `Later` says of it has happened: `Moved` only by giving up, `Far` never
    /// along links. Then the call is not in the history: it changed nothing in the map, and has no number.
    fn try_get<G: Gate>(
        arena: &A,
        pass: &mut Pass<N, Self::Rule>,
        gate: &G,
        place: u64,
    ) -> Result<Numbered, Later>
        requires pass { IsIdle (A.site arena.now) pass.old }
        ensures pass { IsIdle (A.site arena.now) pass.new }
        ensures caller { SameCaller pass.old pass.new }
        ensures leaves { OnlySearches pass.old pass.new }
        ensures tried { HasTried N.layout Self.technique (A.site arena.now) (Get place)
            pass.old pass.new result };

    /// Sets the value at a place, and returns the one that was there before. It does not wait. Splits that it made remain,
    /// also if it is put off.
    ///
    /// # Errors
    ///
    /// `Full` as for `put`, with the number of the call; else it is put off, as `try_get`.
    fn try_put<G: Gate>(
        arena: &A,
        pass: &mut Pass<N, Self::Rule>,
        gate: &G,
        place: u64,
        value: u128,
    ) -> Result<Numbered, PutLater>
        requires pass { IsIdle (A.site arena.now) pass.old }
        ensures pass { IsIdle (A.site arena.now) pass.new }
        ensures caller { SameCaller pass.old pass.new }
        ensures fills { OnlyFills N.layout N.ranged place pass.old pass.new }
        ensures tried { HasTriedPut N.layout Self.technique (A.site arena.now) (Put place value)
            pass.old pass.new result };

    /// Sets the value at a place that has none, and returns the one that was there before, which then remains. It does not
    /// wait.
    ///
    /// # Errors
    ///
    /// As for `try_put`.
    fn try_add<G: Gate>(
        arena: &A,
        pass: &mut Pass<N, Self::Rule>,
        gate: &G,
        place: u64,
        value: u128,
    ) -> Result<Numbered, PutLater>
        requires pass { IsIdle (A.site arena.now) pass.old }
        ensures pass { IsIdle (A.site arena.now) pass.new }
        ensures caller { SameCaller pass.old pass.new }
        ensures fills { OnlyFills N.layout N.ranged place pass.old pass.new }
        ensures tried { HasTriedPut N.layout Self.technique (A.site arena.now) (Add place value)
            pass.old pass.new result };

    /// Sets the value at a place to `new` if it is `old`, as `swap`. It does not wait.
    ///
    /// # Errors
    ///
    /// As for `try_get`.
    fn try_swap<G: Gate>(
        arena: &A,
        pass: &mut Pass<N, Self::Rule>,
        gate: &G,
        place: u64,
        old: u128,
        new: u128,
    ) -> Result<Numbered, Later>
        requires pass { IsIdle (A.site arena.now) pass.old }
        ensures pass { IsIdle (A.site arena.now) pass.new }
        ensures caller { SameCaller pass.old pass.new }
        ensures leaves { OnlySearches pass.old pass.new }
        ensures tried { HasTried N.layout Self.technique (A.site arena.now) (Swap place old new)
            pass.old pass.new result };

    /// Deletes the value at a place, and returns it. It does not wait. The merging after the call is decided ends at a
    /// node on the search path that another caller holds; a right neighbour that another holds is left as it is.
    ///
    /// # Errors
    ///
    /// As for `try_get`.
    fn try_del<G: Gate>(
        arena: &A,
        pass: &mut Pass<N, Self::Rule>,
        gate: &G,
        place: u64,
    ) -> Result<Numbered, Later>
        requires pass { IsIdle (A.site arena.now) pass.old }
        ensures pass { IsIdle (A.site arena.now) pass.new }
        ensures caller { SameCaller pass.old pass.new }
        ensures dels { OnlyDels N.layout N.ranged pass.old pass.new }
        ensures tried { HasTried N.layout Self.technique (A.site arena.now) (Del place)
            pass.old pass.new result };
}

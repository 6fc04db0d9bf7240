//! A dictionary: an arena, a technique, and keys for places.
ghost use Rattle.std.specs.Prelude.{◌≡◌, ◌≢◌, ◌≤◌, [], IfOk, IsTrue, None};
ghost use Rattle.std.specs.Result.{is_ok};
ghost use Rattle.ks_history.specs.declared.Op.TheVariants.{Add, Del, Get, Put, Swap};
ghost use Rattle.ks_history.specs.Map.{told};
ghost use Rattle.ks_history.specs.Trace.{◌⊑◌};
ghost use Rattle.ks_history.specs.Callers.{CallersBelow};
ghost use Rattle.ks_history.specs.Passes.{GrowsByOthers};
ghost use Rattle.ks_arena.specs.Reuse.{ReusesSafely};
ghost use Rattle.ks_arena.specs.Sound.{blank_of, sort_of, Sound};
ghost use Rattle.ks_arena.specs.Clauses.{EndsAll, noted, seen_of};
ghost use Rattle.ks_arena.specs.Of.{HeldAlone, WasAlone, SameCaller, caller_of};
ghost use Rattle.ks_shape.specs.Answers.{number_in, reply_in};
ghost use Rattle.ks_shape.specs.Does.{OnlyDels, OnlyFills, OnlySearches};
ghost use Rattle.ks_shape.specs.Tries.{IsDoneIn, MayTell, PutMayTell};
ghost use Rattle.ks_shape.specs.Upkeep.{IsTidyIn, LeavesTidy};
ghost use Rattle.ks_dictionary.specs.Ended.{HasEndedWith, history};
ghost use Rattle.ks_dictionary.specs.Led.{HasLedNew};
ghost use Rattle.ks_dictionary.specs.Of.{
  AreAllPassesOf,
  AreNewPassesOf,
  AreOrderedPassesOf,
  HasCalledIn,
  HasTriedIn,
  HasTriedPutIn,
  IsIdlePassOf,
  IsNoteFrom,
  arena_of,
  callers_of,
  nodes_of,
  site_of,
};

use crate::closed::Closed;
use crate::runtime::Runtime;
use ks_arena::laws::reuse_law;
use ks_arena::{Arena, Note, Pass};
use ks_gate::NoGate;
use ks_node::Node;
use ks_places::Placing;
use ks_shape::{Full, Later, Numbered, PutLater, Ruled, Shelf, Template, tries_law};
use std::alloc::{AllocError, Global};

/// A map from keys to values that many callers use at once, each with a pass of its own.
///
/// All calls that are not put off are in one history: each once, each caller's in its order, and each after all that
/// its pass had seen when it began. A call returns what the map held just before it in that history.
///
/// The time of a call, as its promises read it, begins with the last moment that its pass had seen before: the end of
/// its caller's previous call, or what it has learnt since.
#[derive(Drop)]
pub struct Dictionary<N: Node, T: Ruled> {
    pub(crate) arena: Arena<N, T::Rule>,
}

impl<N: Node, T: Ruled> Shelf for Dictionary<N, T> {
    ghost site = { λ d. ⟦<Arena<N, T::Rule> as Shelf>⟧.site d.arena };
}

impl<N: Node, T: Ruled> Dictionary<N, T> {
    /// An empty dictionary over `nodes` nodes, as `start`, by a technique whose rule admits a blank node: it need not have the
    /// calls of `Template`.
    ///
    /// # Errors
    ///
    /// Only lack of memory.
    pub fn start_fit(
        alloc: Global,
        nodes: u32,
        callers: u32,
    ) -> Result<(Dictionary<N, T>, Vec<Pass<N, T::Rule>>), AllocError>
        requires fits { T.Rule.begins (blank_of (sort_of N.layout N.ranged)) }
        requires nodes { (4 ≤ nodes) × (nodes ≤ 1048576) }
        requires callers { (1 ≤ callers) × (callers ≤ 1024) }
        ensures nodes { IfOk result (λ r. nodes_of r.0 ≡ nodes) }
        ensures callers { IfOk result (λ r. callers_of r.0 ≡ callers) }
        ensures passes { IfOk result (λ r. AreNewPassesOf r.0 r.1.items) }
        ensures order { IfOk result (λ r. AreOrderedPassesOf r.0 r.1.items) }
    {
        let (arena, passes) = Arena::<N, T::Rule>::start(alloc, nodes, callers)?;
        Ok((Dictionary { arena }, passes))
    }
}

impl<N: Node, T: Ruled + Template<N, Arena<N, <T as Ruled>::Rule>>> Dictionary<N, T> {
    /// An empty dictionary over `nodes` nodes, and a pass for each caller.
    ///
    /// # Errors
    ///
    /// Only lack of memory.
    pub fn start(
        alloc: Global,
        nodes: u32,
        callers: u32,
    ) -> Result<(Dictionary<N, T>, Vec<Pass<N, T::Rule>>), AllocError>
        requires nodes { (4 ≤ nodes) × (nodes ≤ 1048576) }
        requires callers { (1 ≤ callers) × (callers ≤ 1024) }
        ensures nodes { IfOk result (λ r. nodes_of r.0 ≡ nodes) }
        ensures callers { IfOk result (λ r. callers_of r.0 ≡ callers) }
        ensures passes { IfOk result (λ r. AreNewPassesOf r.0 r.1.items) }
        ensures order { IfOk result (λ r. AreOrderedPassesOf r.0 r.1.items) }
    {
        T::fits();
        Dictionary::<N, T>::start_fit(alloc, nodes, callers)
    }

    /// Returns the value of a key.
    pub fn get<R: Runtime>(&self, rt: &R, pass: &mut Pass<N, T::Rule>, key: u64) -> Numbered
        requires pass { IsIdlePassOf self.now pass.old }
        ensures pass { IsIdlePassOf self.now pass.new }
        ensures caller { SameCaller pass.old pass.new }
        ensures leaves { OnlySearches pass.old pass.new }
        ensures done { HasCalledIn self.now T.technique (Get (N.Places.place_of key))
            pass.old pass.new (told result.found) result.number }
        ensures reuse { ReusesSafely T.Rule.lasts (seen_of pass.old) (seen_of pass.new) }
    {
        let (rt, gate) = rt.parts();
        reuse_law::<T::Rule>();
        T::get(rt, &self.arena, pass, gate, N::Places::place(key))
    }

    /// Sets the value of a key, and returns the one that it had.
    ///
    /// # Errors
    ///
    /// `Full` comes only if the key has no value, its node is full, and each node was not free at some moment in the
    /// time of the call. Then the map is as before the call, which has its number in the history; splits that it made
    /// before stay.
    ///
    /// Along links the edge to a node that was split off is added once the call has been decided. It is there in the
    /// end if no other caller did anything in the time of the call and two nodes are free then, over B+ nodes: their
    /// branches adopt any edge while they are not full, and their halves have room.
    pub fn put<R: Runtime>(
        &self,
        rt: &R,
        pass: &mut Pass<N, T::Rule>,
        key: u64,
        value: u128,
    ) -> Result<Numbered, Full>
        requires pass { IsIdlePassOf self.now pass.old }
        ensures pass { IsIdlePassOf self.now pass.new }
        ensures caller { SameCaller pass.old pass.new }
        ensures fills { OnlyFills N.layout N.ranged (N.Places.place_of key) pass.old pass.new }
        ensures done { HasCalledIn self.now T.technique (Put (N.Places.place_of key) value)
            pass.old pass.new (reply_in result) (number_in result) }
        ensures reuse { ReusesSafely T.Rule.lasts (seen_of pass.old) (seen_of pass.new) }
        ensures led { HasLedNew self.now T.technique pass.old pass.new }
    {
        let (rt, gate) = rt.parts();
        reuse_law::<T::Rule>();
        T::put(rt, &self.arena, pass, gate, N::Places::place(key), value)
    }

    /// Sets the value of a key that has none, and returns the one that it had: a key that had one keeps it.
    ///
    /// # Errors
    ///
    /// `Full` comes, and leaves the map, as for `put`; edges are there as after `put`.
    pub fn add<R: Runtime>(
        &self,
        rt: &R,
        pass: &mut Pass<N, T::Rule>,
        key: u64,
        value: u128,
    ) -> Result<Numbered, Full>
        requires pass { IsIdlePassOf self.now pass.old }
        ensures pass { IsIdlePassOf self.now pass.new }
        ensures caller { SameCaller pass.old pass.new }
        ensures fills { OnlyFills N.layout N.ranged (N.Places.place_of key) pass.old pass.new }
        ensures done { HasCalledIn self.now T.technique (Add (N.Places.place_of key) value)
            pass.old pass.new (reply_in result) (number_in result) }
        ensures reuse { ReusesSafely T.Rule.lasts (seen_of pass.old) (seen_of pass.new) }
        ensures led { HasLedNew self.now T.technique pass.old pass.new }
    {
        let (rt, gate) = rt.parts();
        reuse_law::<T::Rule>();
        T::add(rt, &self.arena, pass, gate, N::Places::place(key), value)
    }

    /// Sets the value of a key from `old` to `new`, and returns the one that it had: it was set if and only if that is
    /// `old`.
    pub fn swap<R: Runtime>(
        &self,
        rt: &R,
        pass: &mut Pass<N, T::Rule>,
        key: u64,
        old: u128,
        new: u128,
    ) -> Numbered
        requires pass { IsIdlePassOf self.now pass.old }
        ensures pass { IsIdlePassOf self.now pass.new }
        ensures caller { SameCaller pass.old pass.new }
        ensures leaves { OnlySearches pass.old pass.new }
        ensures done { HasCalledIn self.now T.technique (Swap (N.Places.place_of key) old new)
            pass.old pass.new (told result.found) result.number }
        ensures reuse { ReusesSafely T.Rule.lasts (seen_of pass.old) (seen_of pass.new) }
    {
        let (rt, gate) = rt.parts();
        reuse_law::<T::Rule>();
        T::swap(rt, &self.arena, pass, gate, N::Places::place(key), old, new)
    }

    /// Deletes a key, and returns the value that it had. If it had one, and no other caller did anything in the time of
    /// the call, the node whose keyset has the key's place is then not low, or fits with no right neighbour: by lock
    /// coupling and by giving up, as no nodes are merged along links.
    pub fn del<R: Runtime>(&self, rt: &R, pass: &mut Pass<N, T::Rule>, key: u64) -> Numbered
        requires pass { IsIdlePassOf self.now pass.old }
        ensures pass { IsIdlePassOf self.now pass.new }
        ensures caller { SameCaller pass.old pass.new }
        ensures dels { OnlyDels N.layout N.ranged pass.old pass.new }
        ensures done { HasCalledIn self.now T.technique (Del (N.Places.place_of key))
            pass.old pass.new (told result.found) result.number }
        ensures reuse { ReusesSafely T.Rule.lasts (seen_of pass.old) (seen_of pass.new) }
        ensures tidy { LeavesTidy T.technique → result.found ≢ None →
            WasAlone pass.old pass.new → IsTidyIn (site_of self.now) pass.new (N.Places.place_of key) }
    {
        let (rt, gate) = rt.parts();
        reuse_law::<T::Rule>();
        T::del(rt, &self.arena, pass, gate, N::Places::place(key))
    }

    /// Returns the value of a key, and does not wait.
    ///
    /// # Errors
    ///
    /// `Busy` names a node that was on the search path of the key, and the other caller that held it, each at some
    /// moment in the time of the call; `Moved` a node that was on that path, whose inset later lacked the key's place,
    /// and which another caller's Shape named, and comes only by giving up; `Far` comes only if the call took as many
    /// nodes as the dictionary has while another caller made a Shape, and never along links. Then the call is none of
    /// the history: it changed nothing in the map, and has no number. None of these comes if no other caller held a
    /// node when the time of the call began, nor did anything in it.
    pub fn try_get(&self, pass: &mut Pass<N, T::Rule>, key: u64) -> Result<Numbered, Later>
        requires pass { IsIdlePassOf self.now pass.old }
        ensures pass { IsIdlePassOf self.now pass.new }
        ensures caller { SameCaller pass.old pass.new }
        ensures leaves { OnlySearches pass.old pass.new }
        ensures tried { HasTriedIn self.now T.technique (Get (N.Places.place_of key)) pass.old pass.new result }
        ensures never { MayTell T.technique result }
        ensures alone { WasAlone pass.old pass.new → HeldAlone pass.old → IsTrue (is_ok result) }
        ensures reuse { ReusesSafely T.Rule.lasts (seen_of pass.old) (seen_of pass.new) }
    {
        reuse_law::<T::Rule>();
        tries_law();
        T::try_get(&self.arena, pass, &NoGate, N::Places::place(key))
    }

    /// Sets the value of a key, and returns the one that it had; it does not wait. Splits that it made stay, also if it
    /// is put off.
    ///
    /// # Errors
    ///
    /// `Full` as for `put`, with the number of the call; else it is put off, as `try_get`.
    pub fn try_put(
        &self,
        pass: &mut Pass<N, T::Rule>,
        key: u64,
        value: u128,
    ) -> Result<Numbered, PutLater>
        requires pass { IsIdlePassOf self.now pass.old }
        ensures pass { IsIdlePassOf self.now pass.new }
        ensures caller { SameCaller pass.old pass.new }
        ensures fills { OnlyFills N.layout N.ranged (N.Places.place_of key) pass.old pass.new }
        ensures tried { HasTriedPutIn self.now T.technique (Put (N.Places.place_of key) value) pass.old pass.new result }
        ensures never { PutMayTell T.technique result }
        ensures alone { WasAlone pass.old pass.new → HeldAlone pass.old → IsDoneIn result }
        ensures reuse { ReusesSafely T.Rule.lasts (seen_of pass.old) (seen_of pass.new) }
    {
        reuse_law::<T::Rule>();
        tries_law();
        T::try_put(&self.arena, pass, &NoGate, N::Places::place(key), value)
    }

    /// Sets the value of a key that has none, and returns the one that it had, which then stays; it does not wait.
    ///
    /// # Errors
    ///
    /// As for `try_put`.
    pub fn try_add(
        &self,
        pass: &mut Pass<N, T::Rule>,
        key: u64,
        value: u128,
    ) -> Result<Numbered, PutLater>
        requires pass { IsIdlePassOf self.now pass.old }
        ensures pass { IsIdlePassOf self.now pass.new }
        ensures caller { SameCaller pass.old pass.new }
        ensures fills { OnlyFills N.layout N.ranged (N.Places.place_of key) pass.old pass.new }
        ensures tried { HasTriedPutIn self.now T.technique (Add (N.Places.place_of key) value) pass.old pass.new result }
        ensures never { PutMayTell T.technique result }
        ensures alone { WasAlone pass.old pass.new → HeldAlone pass.old → IsDoneIn result }
        ensures reuse { ReusesSafely T.Rule.lasts (seen_of pass.old) (seen_of pass.new) }
    {
        reuse_law::<T::Rule>();
        tries_law();
        T::try_add(&self.arena, pass, &NoGate, N::Places::place(key), value)
    }

    /// Sets the value of a key from `old` to `new`, as `swap`, and does not wait.
    ///
    /// # Errors
    ///
    /// As for `try_get`.
    pub fn try_swap(
        &self,
        pass: &mut Pass<N, T::Rule>,
        key: u64,
        old: u128,
        new: u128,
    ) -> Result<Numbered, Later>
        requires pass { IsIdlePassOf self.now pass.old }
        ensures pass { IsIdlePassOf self.now pass.new }
        ensures caller { SameCaller pass.old pass.new }
        ensures leaves { OnlySearches pass.old pass.new }
        ensures tried { HasTriedIn self.now T.technique (Swap (N.Places.place_of key) old new)
            pass.old pass.new result }
        ensures never { MayTell T.technique result }
        ensures alone { WasAlone pass.old pass.new → HeldAlone pass.old → IsTrue (is_ok result) }
        ensures reuse { ReusesSafely T.Rule.lasts (seen_of pass.old) (seen_of pass.new) }
    {
        reuse_law::<T::Rule>();
        tries_law();
        T::try_swap(&self.arena, pass, &NoGate, N::Places::place(key), old, new)
    }

    /// Deletes a key, and returns the value that it had; it does not wait. Once the call is decided, its merging leaves
    /// a right neighbour that another caller holds, and ends at a node on the search path that another holds.
    ///
    /// # Errors
    ///
    /// As for `try_get`.
    pub fn try_del(&self, pass: &mut Pass<N, T::Rule>, key: u64) -> Result<Numbered, Later>
        requires pass { IsIdlePassOf self.now pass.old }
        ensures pass { IsIdlePassOf self.now pass.new }
        ensures caller { SameCaller pass.old pass.new }
        ensures dels { OnlyDels N.layout N.ranged pass.old pass.new }
        ensures tried { HasTriedIn self.now T.technique (Del (N.Places.place_of key)) pass.old pass.new result }
        ensures never { MayTell T.technique result }
        ensures alone { WasAlone pass.old pass.new → HeldAlone pass.old → IsTrue (is_ok result) }
        ensures reuse { ReusesSafely T.Rule.lasts (seen_of pass.old) (seen_of pass.new) }
    {
        reuse_law::<T::Rule>();
        tries_law();
        T::try_del(&self.arena, pass, &NoGate, N::Places::place(key))
    }
}

impl<N: Node, T: Ruled> Dictionary<N, T> {
    /// The arena. A call by the technique itself may be made on it, as by a test of a call that does not wait, with a gate.
    pub fn arena(&self) -> &Arena<N, T::Rule>
        ensures { result.now ≡ arena_of self.now }
    {
        &self.arena
    }

    /// A note of what the pass has seen, for another caller to learn. It makes no event.
    pub fn note(&self, pass: &mut Pass<N, T::Rule>) -> Note<N, T::Rule>
        requires { IsIdlePassOf self.now pass.old }
        ensures pass { IsIdlePassOf self.now pass.new }
        ensures caller { SameCaller pass.old pass.new }
        ensures seen { seen_of pass.new ≡ seen_of pass.old }
        ensures note { IsNoteFrom self.now result }
        ensures noted { noted result ≡ seen_of pass.old }
    {
        self.arena.note(pass)
    }

    /// From now on the pass has seen what the note has, beside what it had seen itself: a call that it makes now is
    /// after both in the history. It makes no event.
    pub fn learn(&self, pass: &mut Pass<N, T::Rule>, note: Note<N, T::Rule>)
        requires pass { IsIdlePassOf self.now pass.old }
        requires note { IsNoteFrom self.now note }
        ensures pass { IsIdlePassOf self.now pass.new }
        ensures caller { SameCaller pass.old pass.new }
        ensures noted { noted note ⊑ seen_of pass.new }
        ensures own { GrowsByOthers (caller_of pass.old) (seen_of pass.old) (seen_of pass.new) }
    {
        self.arena.learn(pass, note);
    }

    /// Ends the dictionary. The passes are all that `start` returned, and hold no node.
    pub fn close(self, passes: Vec<Pass<N, T::Rule>>) -> Closed<N>
        requires { AreAllPassesOf self passes.items }
        ensures ended { HasEndedWith (sort_of N.layout N.ranged) N.body
            (nodes_of self) result }
        ensures sound { Sound (sort_of N.layout N.ranged) T.Rule.begins T.Rule.step
            (nodes_of self) (history result) }
        ensures seen { EndsAll (history result) passes.items }
        ensures callers { CallersBelow (callers_of self) (history result) }
        ensures reuse { ReusesSafely T.Rule.lasts [] (history result) }
    {
        let Dictionary { arena } = self;
        Closed {
            run: arena.close(passes),
        }
    }
}

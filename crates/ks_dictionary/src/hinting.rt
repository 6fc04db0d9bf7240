//! Calls by key that begin at a hint, and say where they were decided.
ghost use Rattle.std.specs.Prelude.{◌≡◌, ◌≢◌, IfOk, IfSome, None};
ghost use Rattle.ks_history.specs.declared.Op.TheVariants.{Add, Del, Get, Put, Swap};
ghost use Rattle.ks_history.specs.Map.{told};
ghost use Rattle.ks_arena.specs.Reuse.{ReusesSafely};
ghost use Rattle.ks_arena.specs.Clauses.{seen_of};
ghost use Rattle.ks_arena.specs.Of.{WasAlone, SameCaller};
ghost use Rattle.ks_shape.specs.Answers.{number_at, reply_at};
ghost use Rattle.ks_shape.specs.Does.{OnlyDels, OnlyFills, OnlySearches};
ghost use Rattle.ks_shape.specs.Hinted.{BeginsAtHint, HasPassed, IsDoneWhere, IsWhere};
ghost use Rattle.ks_shape.specs.Upkeep.{IsTidyIn, LeavesTidy};
ghost use Rattle.ks_dictionary.specs.Led.{HasLedNew};
ghost use Rattle.ks_dictionary.specs.Of.{HasCalledIn, IsIdlePassOf, nodes_of, site_of};

use crate::dictionary::Dictionary;
use crate::runtime::Runtime;
use ks_arena::laws::reuse_law;
use ks_arena::{Arena, Pass};
use ks_node::Node;
use ks_places::Placing;
use ks_shape::{Fill, Full, Hinting, NumberedAt, Ruled};

/// Calls from a hint: each does what the call without one does. It first takes the hinted node, if that is neither free
/// nor held and no other caller does anything in the time of the call. Any hint is right: if the search for the key's
/// place may not continue from that node, the call searches from the root. A hint that is no node of the dictionary is
/// none. The result says also where the call was decided: the node, and its range in places; and the last branch that
/// its search passed, if it passed one.
impl<N: Node, T: Ruled + Hinting<N, Arena<N, <T as Ruled>::Rule>>> Dictionary<N, T> {
    /// Returns the value of a key, as `get`.
    pub fn get_from<R: Runtime>(
        &self,
        rt: &R,
        pass: &mut Pass<N, T::Rule>,
        hint: Option<u32>,
        key: u64,
    ) -> NumberedAt
        requires pass { IsIdlePassOf self.now pass.old }
        ensures pass { IsIdlePassOf self.now pass.new }
        ensures caller { SameCaller pass.old pass.new }
        ensures leaves { OnlySearches pass.old pass.new }
        ensures done { HasCalledIn self.now T.technique (Get (N.Places.place_of key))
            pass.old pass.new (told result.found) result.number }
        ensures reuse { ReusesSafely T.Rule.lasts (seen_of pass.old) (seen_of pass.new) }
        ensures at { IsDoneWhere N.layout T.technique (site_of self.now)
            (Get (N.Places.place_of key)) pass.old pass.new result }
        ensures within { IsWhere (N.Places.place_of key) result }
        ensures above { IfSome result.above
            (HasPassed (site_of self.now).sort (N.Places.place_of key) pass.old pass.new) }
        ensures first { BeginsAtHint (nodes_of self.now) hint pass.old pass.new }
    {
        let (rt, gate) = rt.parts();
        reuse_law::<T::Rule>();
        T::get_from(rt, &self.arena, pass, gate, hint, N::Places::place(key))
    }

    /// Sets the value of a key, and returns the one that it had, as `put`.
    ///
    /// # Errors
    ///
    /// `Full` as for `put`.
    pub fn put_from<R: Runtime>(
        &self,
        rt: &R,
        pass: &mut Pass<N, T::Rule>,
        hint: Option<u32>,
        key: u64,
        value: u128,
    ) -> Result<NumberedAt, Full>
        requires pass { IsIdlePassOf self.now pass.old }
        ensures pass { IsIdlePassOf self.now pass.new }
        ensures caller { SameCaller pass.old pass.new }
        ensures fills { OnlyFills N.layout N.ranged (N.Places.place_of key) pass.old pass.new }
        ensures done { HasCalledIn self.now T.technique (Put (N.Places.place_of key) value)
            pass.old pass.new (reply_at result) (number_at result) }
        ensures reuse { ReusesSafely T.Rule.lasts (seen_of pass.old) (seen_of pass.new) }
        ensures led { HasLedNew self.now T.technique pass.old pass.new }
        ensures at { IfOk result (IsDoneWhere N.layout T.technique (site_of self.now)
            (Put (N.Places.place_of key) value) pass.old pass.new) }
        ensures within { IfOk result (IsWhere (N.Places.place_of key)) }
        ensures above { IfOk result (λ at. IfSome at.above
            (HasPassed (site_of self.now).sort (N.Places.place_of key) pass.old pass.new)) }
        ensures first { BeginsAtHint (nodes_of self.now) hint pass.old pass.new }
    {
        let (rt, gate) = rt.parts();
        reuse_law::<T::Rule>();
        let place = N::Places::place(key);
        T::fill_from(rt, &self.arena, pass, gate, hint, place, Fill::Put(value))
    }

    /// Sets the value of a key that has none, and returns the one that it had, as `add`.
    ///
    /// # Errors
    ///
    /// `Full` as for `put_from`.
    pub fn add_from<R: Runtime>(
        &self,
        rt: &R,
        pass: &mut Pass<N, T::Rule>,
        hint: Option<u32>,
        key: u64,
        value: u128,
    ) -> Result<NumberedAt, Full>
        requires pass { IsIdlePassOf self.now pass.old }
        ensures pass { IsIdlePassOf self.now pass.new }
        ensures caller { SameCaller pass.old pass.new }
        ensures fills { OnlyFills N.layout N.ranged (N.Places.place_of key) pass.old pass.new }
        ensures done { HasCalledIn self.now T.technique (Add (N.Places.place_of key) value)
            pass.old pass.new (reply_at result) (number_at result) }
        ensures reuse { ReusesSafely T.Rule.lasts (seen_of pass.old) (seen_of pass.new) }
        ensures led { HasLedNew self.now T.technique pass.old pass.new }
        ensures at { IfOk result (IsDoneWhere N.layout T.technique (site_of self.now)
            (Add (N.Places.place_of key) value) pass.old pass.new) }
        ensures within { IfOk result (IsWhere (N.Places.place_of key)) }
        ensures above { IfOk result (λ at. IfSome at.above
            (HasPassed (site_of self.now).sort (N.Places.place_of key) pass.old pass.new)) }
        ensures first { BeginsAtHint (nodes_of self.now) hint pass.old pass.new }
    {
        let (rt, gate) = rt.parts();
        reuse_law::<T::Rule>();
        let place = N::Places::place(key);
        T::fill_from(rt, &self.arena, pass, gate, hint, place, Fill::Add(value))
    }

    /// Sets the value of a key from `old` to `new`, and returns the one that it had, as `swap`.
    pub fn swap_from<R: Runtime>(
        &self,
        rt: &R,
        pass: &mut Pass<N, T::Rule>,
        hint: Option<u32>,
        key: u64,
        old: u128,
        new: u128,
    ) -> NumberedAt
        requires pass { IsIdlePassOf self.now pass.old }
        ensures pass { IsIdlePassOf self.now pass.new }
        ensures caller { SameCaller pass.old pass.new }
        ensures leaves { OnlySearches pass.old pass.new }
        ensures done { HasCalledIn self.now T.technique (Swap (N.Places.place_of key) old new)
            pass.old pass.new (told result.found) result.number }
        ensures reuse { ReusesSafely T.Rule.lasts (seen_of pass.old) (seen_of pass.new) }
        ensures at { IsDoneWhere N.layout T.technique (site_of self.now)
            (Swap (N.Places.place_of key) old new) pass.old pass.new result }
        ensures within { IsWhere (N.Places.place_of key) result }
        ensures above { IfSome result.above
            (HasPassed (site_of self.now).sort (N.Places.place_of key) pass.old pass.new) }
        ensures first { BeginsAtHint (nodes_of self.now) hint pass.old pass.new }
    {
        let (rt, gate) = rt.parts();
        reuse_law::<T::Rule>();
        T::swap_from(
            rt,
            &self.arena,
            pass,
            gate,
            hint,
            N::Places::place(key),
            old,
            new,
        )
    }

    /// Deletes a key, and returns the value that it had, as `del`.
    pub fn del_from<R: Runtime>(
        &self,
        rt: &R,
        pass: &mut Pass<N, T::Rule>,
        hint: Option<u32>,
        key: u64,
    ) -> NumberedAt
        requires pass { IsIdlePassOf self.now pass.old }
        ensures pass { IsIdlePassOf self.now pass.new }
        ensures caller { SameCaller pass.old pass.new }
        ensures dels { OnlyDels N.layout N.ranged pass.old pass.new }
        ensures done { HasCalledIn self.now T.technique (Del (N.Places.place_of key))
            pass.old pass.new (told result.found) result.number }
        ensures reuse { ReusesSafely T.Rule.lasts (seen_of pass.old) (seen_of pass.new) }
        ensures tidy { LeavesTidy T.technique → result.found ≢ None →
            WasAlone pass.old pass.new → IsTidyIn (site_of self.now) pass.new (N.Places.place_of key) }
        ensures at { IsDoneWhere N.layout T.technique (site_of self.now)
            (Del (N.Places.place_of key)) pass.old pass.new result }
        ensures within { IsWhere (N.Places.place_of key) result }
        ensures above { IfSome result.above
            (HasPassed (site_of self.now).sort (N.Places.place_of key) pass.old pass.new) }
        ensures first { BeginsAtHint (nodes_of self.now) hint pass.old pass.new }
    {
        let (rt, gate) = rt.parts();
        reuse_law::<T::Rule>();
        T::del_from(rt, &self.arena, pass, gate, hint, N::Places::place(key))
    }
}

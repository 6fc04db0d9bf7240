//! Calls that begin where a guide expects them to be decided.
ghost use Rattle.std.specs.Prelude.{◌≡◌, ◌≢◌, IfOk, None, Some};
ghost use Rattle.ks_history.specs.declared.Op.TheVariants.{Add, Del, Get, Put, Swap};
ghost use Rattle.ks_history.specs.Map.{told};
ghost use Rattle.ks_guide.specs.Guides.{guessed};
ghost use Rattle.ks_arena.specs.Reuse.{ReusesSafely};
ghost use Rattle.ks_arena.specs.Clauses.{seen_of};
ghost use Rattle.ks_arena.specs.Of.{WasAlone, SameCaller};
ghost use Rattle.ks_shape.specs.Answers.{number_in, reply_in};
ghost use Rattle.ks_shape.specs.Does.{OnlyDels, OnlyFills, OnlySearches};
ghost use Rattle.ks_shape.specs.Hinted.{IsWhere};
ghost use Rattle.ks_shape.specs.Upkeep.{IsTidyIn, LeavesTidy};
ghost use Rattle.ks_dictionary.specs.Guided.{BeginsNear, HasNoted};
ghost use Rattle.ks_dictionary.specs.Led.{HasLedNew};
ghost use Rattle.ks_dictionary.specs.Of.{HasCalledIn, IsIdlePassOf, site_of};

use crate::dictionary::Dictionary;
use crate::runtime::Runtime;
use ks_arena::laws::reuse_law;
use ks_arena::{Arena, Pass};
use ks_guide::Guide;
use ks_node::Node;
use ks_places::Placing;
use ks_shape::{Above, Fill, Full, Hinting, Numbered, NumberedAt, Ruled};

/// Notes the branch that a search passed, if it passed one.
fn note_above(guide: &mut Guide, above: Option<Above>) {
    if let Some(above) = above {
        guide.note_branch(above.low, above.last, above.node);
    }
}

/// Notes where a call of the place was decided, and the branch that its search passed; returns its number and what it
/// found.
fn noted(guide: &mut Guide, place: u64, at: NumberedAt) -> Numbered
    requires { IsWhere place at }
    ensures number { result.number ≡ at.number }
    ensures found { result.found ≡ at.found }
    ensures noted { guessed guide.new place ≡ Some at.node }
{
    note_above(guide, at.above);
    guide.note(place, at.low, at.last, at.node);
    Numbered {
        number: at.number,
        found: at.found,
    }
}

/// Calls with a guide: each does what the call without does. It first takes the node that the guide guesses for the
/// key's place, if that is neither free nor held and no other caller does anything in the time of the call. If the
/// search for the place may not continue there, the node is taken in vain, and the call searches from the root. The
/// guide then guesses for the place the node at which the call was decided. A guide may be used for any dictionary: one
/// that noted calls of another has guesses that serve for nothing.
impl<N: Node, T: Ruled + Hinting<N, Arena<N, <T as Ruled>::Rule>>> Dictionary<N, T> {
    /// Returns the value of a key, as `get`.
    pub fn get_near<R: Runtime>(
        &self,
        rt: &R,
        pass: &mut Pass<N, T::Rule>,
        guide: &mut Guide,
        key: u64,
    ) -> Numbered
        requires pass { IsIdlePassOf self.now pass.old }
        ensures pass { IsIdlePassOf self.now pass.new }
        ensures caller { SameCaller pass.old pass.new }
        ensures leaves { OnlySearches pass.old pass.new }
        ensures done { HasCalledIn self.now T.technique (Get (N.Places.place_of key))
            pass.old pass.new (told result.found) result.number }
        ensures reuse { ReusesSafely T.Rule.lasts (seen_of pass.old) (seen_of pass.new) }
        ensures first { BeginsNear (site_of self.now) guide.old (N.Places.place_of key) pass.old pass.new }
        ensures noted { HasNoted N.layout T.technique (site_of self.now) (Get (N.Places.place_of key))
            pass.old pass.new result guide.new (N.Places.place_of key) }
    {
        let (rt, gate) = rt.parts();
        reuse_law::<T::Rule>();
        let place = N::Places::place(key);
        let hint = guide.guess(place);
        let at = T::get_from(rt, &self.arena, pass, gate, hint, place);
        noted(guide, place, at)
    }

    /// Sets the value of a key, and returns the one that it had, as `put`.
    ///
    /// # Errors
    ///
    /// `Full` as for `put`. The guide then stays as it was.
    pub fn put_near<R: Runtime>(
        &self,
        rt: &R,
        pass: &mut Pass<N, T::Rule>,
        guide: &mut Guide,
        key: u64,
        value: u128,
    ) -> Result<Numbered, Full>
        requires pass { IsIdlePassOf self.now pass.old }
        ensures pass { IsIdlePassOf self.now pass.new }
        ensures caller { SameCaller pass.old pass.new }
        ensures fills { OnlyFills N.layout N.ranged (N.Places.place_of key) pass.old pass.new }
        ensures done { HasCalledIn self.now T.technique (Put (N.Places.place_of key) value)
            pass.old pass.new (reply_in result) (number_in result) }
        ensures reuse { ReusesSafely T.Rule.lasts (seen_of pass.old) (seen_of pass.new) }
        ensures led { HasLedNew self.now T.technique pass.old pass.new }
        ensures first { BeginsNear (site_of self.now) guide.old (N.Places.place_of key) pass.old pass.new }
        ensures noted { IfOk result (λ answer. HasNoted N.layout T.technique (site_of self.now)
            (Put (N.Places.place_of key) value) pass.old pass.new answer guide.new (N.Places.place_of key)) }
    {
        let (rt, gate) = rt.parts();
        reuse_law::<T::Rule>();
        let place = N::Places::place(key);
        let hint = guide.guess(place);
        match T::fill_from(rt, &self.arena, pass, gate, hint, place, Fill::Put(value)) {
            Ok(at) => Ok(noted(guide, place, at)),
            Err(full) => Err(full),
        }
    }

    /// Sets the value of a key that has none, and returns the one that it had, as `add`.
    ///
    /// # Errors
    ///
    /// `Full` as for `put_near`.
    pub fn add_near<R: Runtime>(
        &self,
        rt: &R,
        pass: &mut Pass<N, T::Rule>,
        guide: &mut Guide,
        key: u64,
        value: u128,
    ) -> Result<Numbered, Full>
        requires pass { IsIdlePassOf self.now pass.old }
        ensures pass { IsIdlePassOf self.now pass.new }
        ensures caller { SameCaller pass.old pass.new }
        ensures fills { OnlyFills N.layout N.ranged (N.Places.place_of key) pass.old pass.new }
        ensures done { HasCalledIn self.now T.technique (Add (N.Places.place_of key) value)
            pass.old pass.new (reply_in result) (number_in result) }
        ensures reuse { ReusesSafely T.Rule.lasts (seen_of pass.old) (seen_of pass.new) }
        ensures led { HasLedNew self.now T.technique pass.old pass.new }
        ensures first { BeginsNear (site_of self.now) guide.old (N.Places.place_of key) pass.old pass.new }
        ensures noted { IfOk result (λ answer. HasNoted N.layout T.technique (site_of self.now)
            (Add (N.Places.place_of key) value) pass.old pass.new answer guide.new (N.Places.place_of key)) }
    {
        let (rt, gate) = rt.parts();
        reuse_law::<T::Rule>();
        let place = N::Places::place(key);
        let hint = guide.guess(place);
        match T::fill_from(rt, &self.arena, pass, gate, hint, place, Fill::Add(value)) {
            Ok(at) => Ok(noted(guide, place, at)),
            Err(full) => Err(full),
        }
    }

    /// Sets the value of a key from `old` to `new`, and returns the one that it had, as `swap`.
    pub fn swap_near<R: Runtime>(
        &self,
        rt: &R,
        pass: &mut Pass<N, T::Rule>,
        guide: &mut Guide,
        key: u64,
        old: u128,
        new: u128,
    ) -> Numbered
        requires pass { IsIdlePassOf self.now pass.old }
        ensures pass { IsIdlePassOf self.now pass.new }
        ensures caller { SameCaller pass.old pass.new }
        ensures leaves { OnlySearches pass.old pass.new }
        ensures done { HasCalledIn self.now T.technique (Swap (N.Places.place_of key) old new)
            pass.old pass.new (told result.found) result.number }
        ensures reuse { ReusesSafely T.Rule.lasts (seen_of pass.old) (seen_of pass.new) }
        ensures first { BeginsNear (site_of self.now) guide.old (N.Places.place_of key) pass.old pass.new }
        ensures noted { HasNoted N.layout T.technique (site_of self.now) (Swap (N.Places.place_of key) old new)
            pass.old pass.new result guide.new (N.Places.place_of key) }
    {
        let (rt, gate) = rt.parts();
        reuse_law::<T::Rule>();
        let place = N::Places::place(key);
        let hint = guide.guess(place);
        let at = T::swap_from(rt, &self.arena, pass, gate, hint, place, old, new);
        noted(guide, place, at)
    }

    /// Deletes a key, and returns the value that it had, as `del`.
    pub fn del_near<R: Runtime>(
        &self,
        rt: &R,
        pass: &mut Pass<N, T::Rule>,
        guide: &mut Guide,
        key: u64,
    ) -> Numbered
        requires pass { IsIdlePassOf self.now pass.old }
        ensures pass { IsIdlePassOf self.now pass.new }
        ensures caller { SameCaller pass.old pass.new }
        ensures dels { OnlyDels N.layout N.ranged pass.old pass.new }
        ensures done { HasCalledIn self.now T.technique (Del (N.Places.place_of key))
            pass.old pass.new (told result.found) result.number }
        ensures reuse { ReusesSafely T.Rule.lasts (seen_of pass.old) (seen_of pass.new) }
        ensures tidy { LeavesTidy T.technique → result.found ≢ None →
            WasAlone pass.old pass.new → IsTidyIn (site_of self.now) pass.new (N.Places.place_of key) }
        ensures first { BeginsNear (site_of self.now) guide.old (N.Places.place_of key) pass.old pass.new }
        ensures noted { HasNoted N.layout T.technique (site_of self.now) (Del (N.Places.place_of key))
            pass.old pass.new result guide.new (N.Places.place_of key) }
    {
        let (rt, gate) = rt.parts();
        reuse_law::<T::Rule>();
        let place = N::Places::place(key);
        let hint = guide.guess(place);
        let at = T::del_from(rt, &self.arena, pass, gate, hint, place);
        noted(guide, place, at)
    }
}

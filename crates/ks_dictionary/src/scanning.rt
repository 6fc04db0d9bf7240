//! Ordered scans of a dictionary whose keys are their places.
ghost use Rattle.std.specs.Prelude.{◌≡◌, ◌≤◌, ◌<◌, ◌^◌, ℕ, [], length, vec_capacity};
ghost use Rattle.ks_history.specs.Trace.{calls_of};
ghost use Rattle.ks_arena.specs.Clauses.{seen_of};
ghost use Rattle.ks_arena.specs.Of.{SameCaller};
ghost use Rattle.ks_shape.specs.Does.{OnlySearches};
ghost use Rattle.ks_dictionary.specs.Ends.{HasFoundFirst, HasFoundLast};
ghost use Rattle.ks_dictionary.specs.Scan.{IsDoneScan, NumbersAscend};
ghost use Rattle.ks_lines.specs.Scan.{IsScanOf};
ghost use Rattle.ks_dictionary.specs.Of.{IsIdlePassOf, site_of};

use crate::dictionary::Dictionary;
use crate::ends::{Found, first_in, last_in};
use crate::row::scan_into;
use crate::runtime::Runtime;
use ks_arena::{Arena, Pass};
use ks_lines::Scanned;
use ks_node::Node;
use ks_shape::{Part, Ruled, Scanning, scanning_law};

impl<N: Node, T: Ruled + Scanning<N, Arena<N, <T as Ruled>::Rule>>> Dictionary<N, T> {
    /// Lists the pairs of the keys from `low` to `last`, both included, in ascending order, in at most `most` parts, which
    /// it pushes into `into`, an empty list with room for them: so it needs no memory. It stops at `last`, or after `most`
    /// parts.
    ///
    /// Each part is one call of the history, with a number of its own: it has just the pairs that the map has then from
    /// its first key to its last. The numbers of the parts ascend, unless 2^64 calls were made. Calls of other callers may
    /// come between two parts, so the whole is no picture of one moment.
    pub fn scan_into<R: Runtime>(
        &self,
        rt: &R,
        pass: &mut Pass<N, T::Rule>,
        low: u64,
        last: u64,
        most: usize,
        into: &mut Vec<Part>,
    ) -> Scanned
        requires pass { IsIdlePassOf self.now pass.old }
        requires span { low ≤ last }
        requires some { 1 ≤ most }
        requires blank { into.old.items ≡ [] }
        requires room { most ≤ vec_capacity into.old }
        ensures pass { IsIdlePassOf self.now pass.new }
        ensures caller { SameCaller pass.old pass.new }
        ensures leaves { OnlySearches pass.old pass.new }
        ensures done { IsDoneScan N.layout T.technique (site_of self.now) low last
            pass.old pass.new into.new.items }
        ensures scan { IsScanOf low last most into.new.items result }
        ensures ascend { length (calls_of (seen_of pass.new)) < 2 ^ 64 →
            NumbersAscend into.new.items }
        ensures capacity { vec_capacity into.new ≡ vec_capacity into.old }
        ensures keys { (k : ℕ) → k < 2 ^ 64 → N.Places.place_of k ≡ k }
    {
        let (rt, gate) = rt.parts();
        scanning_law::<N, Arena<N, <T as Ruled>::Rule>, T>();
        scan_into::<N, Arena<N, <T as Ruled>::Rule>, T, _, _>(
            rt,
            &self.arena,
            pass,
            gate,
            low,
            last,
            most,
            into,
        )
    }

    /// Returns the least key from `low` to `last`, both included, that a row of calls finds, with its value: it lists part
    /// after part from `low` on, as `scan_into` does, until one has a pair, and returns that part's first one. It returns
    /// `None` if no part up to `last` has a pair.
    ///
    /// Each part is one call of the history. That at which the pair was found had no key from its first one to the
    /// pair's, and each part before it had no key at all, each at its own moment: so the key need not have been the
    /// least one at any moment. It needs no memory.
    pub fn first_in<R: Runtime>(
        &self,
        rt: &R,
        pass: &mut Pass<N, T::Rule>,
        low: u64,
        last: u64,
    ) -> Option<Found>
        requires pass { IsIdlePassOf self.now pass.old }
        requires span { low ≤ last }
        ensures pass { IsIdlePassOf self.now pass.new }
        ensures caller { SameCaller pass.old pass.new }
        ensures leaves { OnlySearches pass.old pass.new }
        ensures done { HasFoundFirst N.layout T.technique (site_of self.now) low last
            pass.old pass.new result }
        ensures keys { (k : ℕ) → k < 2 ^ 64 → N.Places.place_of k ≡ k }
    {
        let (rt, gate) = rt.parts();
        scanning_law::<N, Arena<N, <T as Ruled>::Rule>, T>();
        first_in::<N, Arena<N, <T as Ruled>::Rule>, T, _, _>(rt, &self.arena, pass, gate, low, last)
    }

    /// Returns the greatest key from `low` to `last`, both included, that a row of calls finds, with its value: it lists the
    /// whole span part after part, as `scan_into` does, and returns the last pair of the last part that has one, or `None`
    /// if none has.
    ///
    /// Each part is one call of the history. That at which the pair was found had no key after the pair's, and each
    /// part after it had no key at all, each at its own moment: so the key need not have been the greatest one at any
    /// moment. It needs no memory.
    pub fn last_in<R: Runtime>(
        &self,
        rt: &R,
        pass: &mut Pass<N, T::Rule>,
        low: u64,
        last: u64,
    ) -> Option<Found>
        requires pass { IsIdlePassOf self.now pass.old }
        requires span { low ≤ last }
        ensures pass { IsIdlePassOf self.now pass.new }
        ensures caller { SameCaller pass.old pass.new }
        ensures leaves { OnlySearches pass.old pass.new }
        ensures done { HasFoundLast N.layout T.technique (site_of self.now) low last
            pass.old pass.new result }
        ensures keys { (k : ℕ) → k < 2 ^ 64 → N.Places.place_of k ≡ k }
    {
        let (rt, gate) = rt.parts();
        scanning_law::<N, Arena<N, <T as Ruled>::Rule>, T>();
        last_in::<N, Arena<N, <T as Ruled>::Rule>, T, _, _>(rt, &self.arena, pass, gate, low, last)
    }
}

//! Laws that callers of a dictionary cite. Each function here computes nothing: its contract is a law.
ghost use Rattle.std.specs.Prelude.{ℕ, List, Option};
ghost use Rattle.ks_keysets.specs.Layout.{Layout};
ghost use Rattle.ks_history.specs.declared.Answered.{Answered};
ghost use Rattle.ks_history.specs.declared.Event.{Event};
ghost use Rattle.ks_history.specs.declared.Op.TheVariants.{Get, Put};
ghost use Rattle.ks_history.specs.Done.{Template as Technique, Done};
ghost use Rattle.ks_history.specs.Map.{Legal, told};
ghost use Rattle.ks_history.specs.Trace.{◌⊑◌, calls_of};
ghost use Rattle.ks_arena.specs.Sound.{sort_of};
ghost use Rattle.ks_arena.specs.Clauses.{seen_of};
ghost use Rattle.ks_dictionary.specs.Ended.{HasEnded, history};
ghost use Rattle.ks_dictionary.specs.Kept.{AddedOnce, FindsPut};
ghost use Rattle.ks_dictionary.specs.Crew.{AreReplaced};
ghost use Rattle.ks_dictionary.specs.Of.{AreAllPassesOf, AreOrderedPassesOf, IsIdlePassOf, site_of};

use crate::closed::Closed;
use crate::dictionary::Dictionary;
use ks_arena::Pass;
use ks_arena::laws::sound_law;
use ks_history::keyset_theorem;
use ks_node::Node;
use ks_shape::Ruled;

impl<N: Node, T: Ruled> Dictionary<N, T> {
    /// What a pass has seen is a legal history of a map.
    pub fn seen_law(&self, pass: &Pass<N, T::Rule>)
        requires { IsIdlePassOf self.now pass.now }
        ensures { Legal (calls_of (seen_of pass.now)) }
    {
        sound_law::<T::Rule>();
        keyset_theorem();
    }

    /// Passes in their order are those of all callers; and these are still so if idle passes of the same callers
    /// replace some.
    pub fn passes_law(&self)
        ensures ordered { (passes : List _) → AreOrderedPassesOf self.now passes → AreAllPassesOf self.now passes }
        ensures replaced { (before after : List _) → AreAllPassesOf self.now before →
            AreReplaced (site_of self.now) before after → AreAllPassesOf self.now after }
    {}
}

impl<N: Node> Closed<N> {
    /// The trace of a dictionary that has ended is a legal history of a map.
    pub fn history_law(&self)
        requires { HasEnded (sort_of N.layout N.ranged) N.body self.now }
        ensures { Legal (calls_of (history self.now)) }
    {
        keyset_theorem();
    }

    /// In a dictionary that has ended an add found nothing at most once at a place, until a call removed the value
    /// there, or moved it to another place.
    pub fn once_law(&self)
        requires { HasEnded (sort_of N.layout N.ranged) N.body self.now }
        ensures { AddedOnce (calls_of (history self.now)) }
    {
        self.history_law();
        once_law();
    }
}

/// A caller that has seen all that another had finds what that one put, unless a call between the two wrote at the
/// place.
pub fn kept_law()
    ensures { (layout : Layout) (technique : Technique) (nodes c d p v : ℕ) (s t k l : List Event)
        (had found : Option ℕ) (m n : ℕ) → Done layout technique nodes c (Put p v) s t (told had) m → t ⊑ k →
        Done layout technique nodes d (Get p) k l (told found) n → Legal (calls_of l) →
        FindsPut p v found (calls_of l) }
{}

/// In a legal history of a map an add finds nothing at most once at a place, until a call removes the value there, or
/// moves it to another place.
pub fn once_law()
    ensures { (calls : List Answered) → Legal calls → AddedOnce calls }
{}

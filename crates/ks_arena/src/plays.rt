//! What a caller learns by each step on a word, and which event the step makes. These types are only for the proofs.
ghost use Rattle.std.specs.Prelude.{ℕ, [], ◌∷◌, ◌+◌};
ghost use Rattle.ks_history.specs.declared.Event.TheVariants.{Take};
ghost use Rattle.ks_history.specs.declared.Event.{Event as Happening};
ghost use Rattle.ks_history.specs.declared.Op.{Op};
ghost use Rattle.ks_history.specs.declared.Op.TheVariants.{Get};
ghost use Rattle.ks_history.specs.declared.Reply.{Reply};
ghost use Rattle.ks_history.specs.declared.Reply.TheVariants.{Nothing};
ghost use Rattle.ks_arena.specs.Rule.{maker_view, next_view, both_views, spent_view, note_view};
ghost use Rattle.ks_arena.specs.Sound.{sort_of};
ghost use Rattle.ks_arena.specs.Plays.{took, claimed, gave, brought, bit_was_set, bit_was_cleared, scanned, decided, gathered, formed};

use crate::view::View;
use atomic_table::{Join, Play, Split};
use ks_flow::Discipline;
use ks_node::Node;
use std::marker::{Brand, PhantomData};

pub(crate) struct Takes<D> {
    marker: PhantomData<D>,
}

impl<N: Node, D: Discipline> Play<Option<N>, View> for Takes<D> {
    ghost then = { took (sort_of N.layout N.ranged) D.begins D.step N.body };
}

pub(crate) struct Claims<D> {
    marker: PhantomData<D>,
}

impl<N: Node, D: Discipline> Play<Option<N>, View> for Claims<D> {
    ghost then = { claimed (sort_of N.layout N.ranged) D.begins D.step N.body };
}

pub(crate) struct Gives<D> {
    marker: PhantomData<D>,
}

impl<N: Node, D: Discipline> Play<Option<N>, View> for Gives<D> {
    ghost then = { gave (sort_of N.layout N.ranged) D.begins D.step N.body };
}

/// The bit of a node is set.
pub(crate) struct SetsBit<D> {
    marker: PhantomData<D>,
}

impl<N: Node, D: Discipline> Play<Option<N>, View> for SetsBit<D> {
    ghost then = { λ st m r n. bit_was_set (sort_of N.layout N.ranged) D.begins D.step N.body st m n };
}

/// The bit of a node is cleared.
pub(crate) struct ClearsBit<D> {
    marker: PhantomData<D>,
}

impl<N: Node, D: Discipline> Play<Option<N>, View> for ClearsBit<D> {
    ghost then = { λ st m r n. bit_was_cleared (sort_of N.layout N.ranged) D.begins D.step N.body st m n };
}

/// A free word is read.
pub(crate) struct Scans<D> {
    marker: PhantomData<D>,
}

impl<N: Node, D: Discipline> Play<Option<N>, View> for Scans<D> {
    ghost then = { scanned (sort_of N.layout N.ranged) D.begins D.step N.body };
}

pub(crate) struct Brings<D> {
    marker: PhantomData<D>,
}

impl<N: Node, D: Discipline> Play<Option<N>, View> for Brings<D> {
    ghost then = { brought (sort_of N.layout N.ranged) D.begins D.step N.body };
}

/// The event that a step makes, only for the proof. A call at `Brand` picks it.
pub(crate) trait Said {
    ghost event: { Happening };
}

impl Said for Brand {
    ghost event = { Take 0 0 };
}

/// The operation and the reply of a call that is decided, only for proofs: no value of them is built. A function that
/// decides has it as a type parameter, and its `requires` say what it is; a call of that function at `Brand` picks it, from
/// the arguments of the function.
pub trait Decision {
    ghost op: { Op };

    ghost reply: { Reply };
}

impl Decision for Brand {
    ghost op = { Get 0 };

    ghost reply = { Nothing };
}

pub(crate) struct Decides<D, W> {
    marker: PhantomData<(D, W)>,
}

impl<N: Node, D: Discipline, W: Said> Play<Option<N>, View> for Decides<D, W> {
    ghost then = { λ st. decided (sort_of N.layout N.ranged) D.begins D.step N.body st W.event };
}

pub(crate) struct Forms<D, W> {
    marker: PhantomData<(D, W)>,
}

impl<N: Node, D: Discipline, W: Said> Play<Option<N>, View> for Forms<D, W> {
    ghost then = { λ st m r n. formed (sort_of N.layout N.ranged) D.begins D.step N.body st W.event m n };
}

pub(crate) struct Gathers<D> {
    marker: PhantomData<D>,
}

impl<N: Node, D: Discipline> Play<Option<N>, View> for Gathers<D> {
    ghost then = { λ st m r n. gathered (sort_of N.layout N.ranged) D.begins D.step N.body st m n };
}

/// A pass is made.
pub(crate) struct Next;

impl Split<View> for Next {
    ghost left = { maker_view };

    ghost right = { next_view };
}

/// A seat takes another in.
pub(crate) struct TakeIn;

impl Join<View> for TakeIn {
    ghost both = { both_views };

    ghost spent = { spent_view };
}

/// What a seat has seen goes to a new seat.
pub(crate) struct Tell;

impl Split<View> for Tell {
    ghost left = { λ v. v };

    ghost right = { note_view };
}

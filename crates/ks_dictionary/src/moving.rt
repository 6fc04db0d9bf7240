//! Moves of a value between two keys.
ghost use Rattle.std.specs.Prelude.{◌≢◌};
ghost use Rattle.ks_history.specs.declared.Op.TheVariants.{Move};
ghost use Rattle.ks_arena.specs.Clauses.{seen_of};
ghost use Rattle.ks_arena.specs.Of.{SameCaller};
ghost use Rattle.ks_arena.specs.Reuse.{ReusesSafely};
ghost use Rattle.ks_shape.specs.Answers.{move_number, move_reply};
ghost use Rattle.ks_shape.specs.Does.{OnlyFills};
ghost use Rattle.ks_dictionary.specs.Of.{HasCalledIn, IsIdlePassOf};

use crate::dictionary::Dictionary;
use crate::runtime::Runtime;
use ks_arena::laws::reuse_law;
use ks_arena::{Arena, Pass};
use ks_node::Node;
use ks_places::Placing;
use ks_shape::{MoveLeft, Moving, Numbered, Ruled};

impl<N: Node, T: Ruled + Moving<N, Arena<N, <T as Ruled>::Rule>>> Dictionary<N, T> {
    /// Moves the value of a key to another one, which has none, and returns it; if the key has no value, the map stays
    /// as it was. It is one call of the history: no other call sees the value under both keys, or under neither. Splits
    /// that it made stay in any case.
    ///
    /// # Errors
    ///
    /// `Kept` if both keys have a value: both remain. `Full` comes only if `from` has a value, `to` has none, they are
    /// in two nodes, that of `to` is full, and each node was not free at some moment in the time of the call. Then the
    /// map is as before the call. Either has its number in the history.
    pub fn move_value<R: Runtime>(
        &self,
        rt: &R,
        pass: &mut Pass<N, T::Rule>,
        from: u64,
        to: u64,
    ) -> Result<Numbered, MoveLeft>
        requires pass { IsIdlePassOf self.now pass.old }
        requires apart { from ≢ to }
        ensures pass { IsIdlePassOf self.now pass.new }
        ensures caller { SameCaller pass.old pass.new }
        ensures fills { OnlyFills N.layout N.ranged (N.Places.place_of to) pass.old pass.new }
        ensures done { HasCalledIn self.now T.technique (Move (N.Places.place_of from) (N.Places.place_of to))
            pass.old pass.new (move_reply result) (move_number result) }
        ensures reuse { ReusesSafely T.Rule.lasts (seen_of pass.old) (seen_of pass.new) }
    {
        let (rt, gate) = rt.parts();
        reuse_law::<T::Rule>();
        let source = N::Places::place(from);
        let target = N::Places::place(to);
        T::move_value(rt, &self.arena, pass, gate, source, target)
    }
}

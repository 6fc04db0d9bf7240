//! What non-blocking calls return while no other caller acts.
ghost use Rattle.std.specs.Prelude.{ℕ, List, Result, IsTrue};
ghost use Rattle.std.specs.Result.{is_ok};
ghost use Rattle.ks_keysets.specs.Layout.{Layout};
ghost use Rattle.ks_history.specs.declared.Event.{Event as Happening};
ghost use Rattle.ks_history.specs.declared.Op.{Op as Operation};
ghost use Rattle.ks_history.specs.Alone.{ActsAlone, HoldsAlone};
ghost use Rattle.ks_history.specs.Done.{Template};
ghost use Rattle.ks_shape.specs.declared.answers.Numbered.{Numbered};
ghost use Rattle.ks_shape.specs.declared.answers.Later.{Later};
ghost use Rattle.ks_shape.specs.declared.answers.PutLater.{PutLater};
ghost use Rattle.ks_shape.specs.Tries.{IsPutOff, Tried, TriedPut, IsDoneIn, MayTell, PutMayTell};

use ks_history::alone_law;

/// While only one caller acts, from a moment at which no other holds a node, its calls are never put off: they return `Ok`,
/// or a put or an add `Full` if it is due. Only giving up reports that a node moved, and along links `Far` is never
/// reported. It computes nothing.
pub fn tries_law()
    ensures never { (template : Template) (n c : ℕ) (op : Operation) (s0 s1 : List Happening) (later : Later) →
        ActsAlone c s0 s1 → HoldsAlone c s0 → ¬ IsPutOff template n c op s0 s1 later }
    ensures ok { (layout : Layout) (template : Template) (n c : ℕ) (op : Operation) (s0 s1 : List Happening)
        (answer : Result Numbered Later) → ActsAlone c s0 s1 → HoldsAlone c s0 →
        Tried layout template n c op s0 s1 answer → IsTrue (is_ok answer) }
    ensures put { (layout : Layout) (template : Template) (n c : ℕ) (op : Operation) (s0 s1 : List Happening)
        (answer : Result Numbered PutLater) → ActsAlone c s0 s1 → HoldsAlone c s0 →
        TriedPut layout template n c op s0 s1 answer → IsDoneIn answer }
    ensures told { (layout : Layout) (template : Template) (n c : ℕ) (op : Operation)
        (s0 s1 : List Happening) (answer : Result Numbered Later) →
        Tried layout template n c op s0 s1 answer → MayTell template answer }
    ensures put_told { (layout : Layout) (template : Template) (n c : ℕ) (op : Operation)
        (s0 s1 : List Happening) (answer : Result Numbered PutLater) →
        TriedPut layout template n c op s0 s1 answer → PutMayTell template answer }
{
    alone_law();
}

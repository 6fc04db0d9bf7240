//! What follows from the clauses that say what a call leaves unchanged.
ghost use Rattle.std.specs.Prelude.{ℕ, List};
ghost use Rattle.ks_keysets.specs.declared.Change.{Change as Turned};
ghost use Rattle.ks_history.specs.declared.Event.{Event as Happening};
ghost use Rattle.ks_arena.specs.Sound.{Sort};
ghost use Rattle.ks_shape.specs.Does.{FreesNone, LivedBefore, MakesRoom, Merges};

/// A Shape that makes room makes no node free, so a put and an add merge nothing; one that merges makes no node live that was
/// not, so a del splits nothing. It computes nothing.
pub fn leaves_law()
    ensures fills { (sort : Sort) (place : ℕ) (h : List Happening) (changes : List Turned) →
        MakesRoom sort place h changes → FreesNone changes }
    ensures dels { (sort : Sort) (h : List Happening) (changes : List Turned) →
        Merges sort h changes → LivedBefore h changes }
{}

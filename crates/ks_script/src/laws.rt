//! Laws of the texts, each on a function that computes nothing.

ghost use Rattle.std.specs.Prelude.{ℕ, ◌≡◌, ◌⊎◌, List, [], ◌∷◌, ◌++◌, codes};
ghost use Rattle.ks_script.specs.Words.{Line, Version, lines_of, text_of, version_line, IsScript, script_lines, ScriptIn, Run, run_lines, IsRunOf, CheckedIn};

/// A script has one spelling in each version, except for the byte 10 at the end of the last line, and so has a script
/// with its run.
pub fn one_spelling()
    ensures scripts { (version : Version) (a b : List ℕ) (script : List (List Line)) →
        ScriptIn version a script → ScriptIn version b script → text_of (lines_of a) ≡ text_of (lines_of b) }
    ensures runs { (version : Version) (a b : List ℕ) (script : List (List Line)) (run : Run) →
        CheckedIn version a script run → CheckedIn version b script run → text_of (lines_of a) ≡ text_of (lines_of b) }
    ensures ends { (a : List ℕ) → (text_of (lines_of a) ≡ a) ⊎ (text_of (lines_of a) ≡ a ++ 10 ∷ []) }
{}

/// The text of a script in a version, `run` and the text of a run of it are read back as these two.
#[tactic(auto, using(crate::proofs::Spelled::written_read))]
pub fn written_is_read()
    ensures { (version : Version) (script : List (List Line)) (run : Run) → IsScript version script → IsRunOf script run →
        CheckedIn version (text_of (version_line version ++ (script_lines script ++ codes "run" ∷ run_lines run)))
        script run }
{}

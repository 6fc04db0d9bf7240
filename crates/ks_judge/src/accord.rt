//! What `serve` prints and what `check` accepts agree: a run that says what a trace served is judged legal.
ghost use Rattle.std.specs.Prelude.{ℕ, ◌≡◌, List, ◌≤◌};
ghost use Rattle.ks_history.specs.declared.Event.{Event};
ghost use Rattle.ks_lines.specs.declared.Line.{Line};
ghost use Rattle.ks_lines.specs.Lines.{ops_in, replies_in};
ghost use Rattle.ks_lines.specs.ServedLines.{ServedLines};
ghost use Rattle.ks_script.specs.Script.{calls_in};
ghost use Rattle.ks_script.specs.Run.{Run};
ghost use Rattle.ks_judge.specs.Judgment.{IsLegalRun};
ghost use Rattle.ks_judge.specs.Verdict.{IsJudgedRun};
ghost use Rattle.ks_judge.specs.declared.judging.Judged.{Judged};
ghost use Rattle.ks_judge.specs.declared.judging.Judged.TheVariants as verdict;
ghost use Rattle.ks_judge.specs.Keys.{AreKeys, KeepsSpans};

use ks_places::Placing;

/// A run that says what a trace served has no wrong number, and every judgment of it is legal: whatever places keys have
/// if no line is a scan, and else if each key is its own place. It computes nothing.
pub fn served_is_legal<P: Placing>()
    ensures legal { (script : List (List Line)) (run : Run) (h : List Event) →
        calls_in (ops_in script run.callers) ≤ 1114112 → AreKeys script → KeepsSpans P.place_of script →
        ServedLines P.place_of script run.callers run.pairs h →
        IsLegalRun (ops_in script run.callers) (replies_in script run.callers) run.pairs }
    ensures judged { (script : List (List Line)) (run : Run) (h : List Event) (j : Judged) →
        calls_in (ops_in script run.callers) ≤ 1114112 → AreKeys script → KeepsSpans P.place_of script →
        ServedLines P.place_of script run.callers run.pairs h → IsJudgedRun script run j →
        j ≡ verdict.Legal (calls_in (ops_in script run.callers)) }
{}

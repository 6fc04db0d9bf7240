//! The judgment of the script and the run on a source.

ghost use Rattle.std.specs.Prelude.{◌≡◌, Some, [], IfOk, OnOk, IfErr, IfSome};
ghost use Rattle.ks_script.specs.Outside.{Rose};
ghost use Rattle.ks_words.specs.declared.words.Text.TheVariants as text;
ghost use Rattle.ks_ends.specs.Serve.{Judges};
ghost use Rattle.ks_ends.specs.Stop.{IsCause, ReadToEnd};

use crate::input::{Stop, load_checked};
use ks_judge::{Judged, judge};
use ks_script::Source;
use std::alloc::Global;

/// Reads a script and a run of it from the source, and judges the run.
///
/// # Errors
///
/// As for `load_checked`, and `Memory` if memory runs out while the run is judged.
pub fn judged<S: Source>(alloc: Global, source: &mut S) -> Result<Judged, Stop>
    ensures ok { IfOk result (λ judged. IfSome (S.left source.old) (λ bytes. Judges bytes judged)) }
    ensures end { OnOk result (IfSome (S.left source.old) (λ _. S.left source.new ≡ Some [])) }
    ensures line { IfErr result (λ stop. ReadToEnd stop (S.left source.old) (S.left source.new)) }
    ensures cause { IfErr result
        (λ stop. IsCause stop text.Checked (S.left source.old) (Rose (S.faults source.old) (S.faults source.new))) }
{
    let (script, printed) = load_checked(alloc, source)?;
    match judge(alloc, &script, &printed) {
        Ok(judged) => Ok(judged),
        Err(_) => Err(Stop::Memory),
    }
}

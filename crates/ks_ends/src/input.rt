//! Reads what a command works on from its source.

ghost use Rattle.std.specs.Prelude.{ℕ, ◌≡◌, ◌≤◌, length, Some, [], IfOk, OnOk, IfErr, IfSome};
ghost use Rattle.ks_lines.specs.Lines.{AreAnswered, ops_in};
ghost use Rattle.ks_script.specs.Outside.{Rose};
ghost use Rattle.ks_script.specs.Script.{IsScript, ScriptOf, calls_in};
ghost use Rattle.ks_script.specs.declared.version.Version.{Version};
ghost use Rattle.ks_script.specs.Checked.{CheckedOf};
ghost use Rattle.ks_ends.specs.Serve.{limit_of, Accepts, AcceptsChecked};
ghost use Rattle.ks_ends.specs.Stop.{IsCause, IsRefusal, ReadToEnd};
ghost use Rattle.ks_words.specs.declared.words.Text.TheVariants as text;

use ks_script::{
    Printed, ReadFault, Reason, Script, Source, TextFault, read_all, read_checked, read_script,
};
use ks_words::Text;
use std::alloc::Global;

/// Why an input is not used: what functions that read it return as an error.
#[derive(Clone, Copy, Debug, PartialEq, Eq)]
pub enum Stop {
    /// The input is refused at this line, for this reason, or, at line 0 and with none, for its length.
    Refused { line: u64, why: Option<Reason> },
    /// The source failed.
    Source,
    /// Memory ran out, in reading or later.
    Memory,
}

/// How many bytes the text may have at most.
fn limit(text: Text) -> u64
    ensures { result ≡ limit_of text }
{
    match text {
        Text::Script => 16777216,
        Text::Checked => 134217728,
    }
}

/// Reads all bytes of the source.
///
/// # Errors
///
/// `Refused` with line 0 if they are more than the text may have. `Source` if the source failed. `Memory` if memory ran out.
fn input<S: Source>(alloc: Global, source: &mut S, text: Text) -> Result<Vec<u8>, Stop>
    ensures ok { IfOk result (λ read. IfSome (S.left source.old) (λ bytes. read.items ≡ bytes)) }
    ensures within { IfOk result (λ read. length read.items ≤ limit_of text) }
    ensures end { OnOk result (IfSome (S.left source.old) (λ _. S.left source.new ≡ Some [])) }
    ensures line { IfErr result (λ stop. ReadToEnd stop (S.left source.old) (S.left source.new)) }
    ensures cause { IfErr result
        (λ stop. IsCause stop text (S.left source.old) (Rose (S.faults source.old) (S.faults source.new))) }
{
    match read_all(alloc, source, limit(text)) {
        Ok(bytes) => Ok(bytes),
        Err(ReadFault::Failed) => Err(Stop::Source),
        Err(ReadFault::TooLong) => Err(Stop::Refused { line: 0, why: None }),
        Err(ReadFault::Memory) => Err(Stop::Memory),
    }
}

/// The script that the bytes spell.
///
/// # Errors
///
/// `Refused` with the first line that does not fit, and why. `Memory` if memory ran out.
fn script(alloc: Global, bytes: &[u8]) -> Result<Script, Stop>
    ensures accepted { IfOk result (λ script. ScriptOf bytes.now script) }
    ensures refused { IfErr result (λ stop. IsRefusal stop text.Script bytes.now) }
{
    match read_script(alloc, bytes) {
        Ok(script) => Ok(script),
        Err(TextFault::Refused { line, why }) => Err(Stop::Refused {
            line,
            why: Some(why),
        }),
        Err(TextFault::Memory) => Err(Stop::Memory),
    }
}

/// The script and the run that the bytes spell.
///
/// # Errors
///
/// `Refused` with the first line that does not fit, and why. `Memory` if memory ran out.
fn checked(alloc: Global, bytes: &[u8]) -> Result<(Script, Printed), Stop>
    ensures accepted { IfOk result (λ x. CheckedOf bytes.now x.0 x.1) }
    ensures refused { IfErr result (λ stop. IsRefusal stop text.Checked bytes.now) }
{
    match read_checked(alloc, bytes) {
        Ok(both) => Ok(both),
        Err(TextFault::Refused { line: at, why }) => Err(Stop::Refused {
            line: at,
            why: Some(why),
        }),
        Err(TextFault::Memory) => Err(Stop::Memory),
    }
}

/// Reads a script, of any version, from the source, to the end of the source.
///
/// # Errors
///
/// `Refused` with the first line that does not fit, and why: then the source was read to its end. `Refused` with line 0 if there are
/// more bytes than a script may have. `Source` if the source failed. `Memory` if memory ran out.
pub fn load<S: Source>(alloc: Global, source: &mut S) -> Result<Script, Stop>
    ensures ok { IfOk result (λ script. IfSome (S.left source.old) (λ bytes. Accepts bytes script)) }
    ensures is { IfOk result (λ script. (version : Version) × IsScript version script) }
    ensures callers { IfOk result (λ script. length script ≤ 1024) }
    ensures end { OnOk result (IfSome (S.left source.old) (λ _. S.left source.new ≡ Some [])) }
    ensures line { IfErr result (λ stop. ReadToEnd stop (S.left source.old) (S.left source.new)) }
    ensures cause { IfErr result
        (λ stop. IsCause stop text.Script (S.left source.old) (Rose (S.faults source.old) (S.faults source.new))) }
{
    let bytes = input(alloc, source, Text::Script)?;
    script(alloc, &bytes)
}

/// Reads a script and a run of it from the source, to the end of the source. Each line of the script has an answer in the
/// run.
///
/// # Errors
///
/// As for `load`.
pub fn load_checked<S: Source>(alloc: Global, source: &mut S) -> Result<(Script, Printed), Stop>
    ensures ok { IfOk result (λ x. IfSome (S.left source.old) (λ bytes. AcceptsChecked bytes x.0 x.1)) }
    ensures answered { IfOk result (λ x. AreAnswered x.0 x.1.callers) }
    ensures few { IfOk result (λ x. calls_in (ops_in x.0 x.1.callers) ≤ 1114112) }
    ensures end { OnOk result (IfSome (S.left source.old) (λ _. S.left source.new ≡ Some [])) }
    ensures line { IfErr result (λ stop. ReadToEnd stop (S.left source.old) (S.left source.new)) }
    ensures cause { IfErr result
        (λ stop. IsCause stop text.Checked (S.left source.old) (Rose (S.faults source.old) (S.faults source.new))) }
{
    let bytes = input(alloc, source, Text::Checked)?;
    checked(alloc, &bytes)
}

//! Why a line does not go on with a script. Its words are read from the left, and the first that does not fit is the reason.

ghost use Rattle.std.specs.Prelude.{ℕ, ◌≡◌, ◌≢◌, ◌<◌, ◌++◌, codes, IsTrue, ◌↔◌, IfSome, IfNone};
ghost use Rattle.ks_script.specs.Words.{Line, Version, lines_of, Lacks, NoneFirst, NotFirst, IsLineOf, IsLineWithin, line_text};
ghost use Rattle.ks_script.specs.Version.{callers_limit};
ghost use Rattle.ks_script.specs.Reasons.{Amiss, AreDue, Disorder, HasKind, IsDue, IsNumeral, IsWithin, MayCome, Misfit, Misplaced, Misread, NotDue, due_of, kind_word, reason_text, words_of};
ghost use Rattle.ks_script.specs.Misfits.{Behind, InOrder, words_behind};
ghost use Rattle.ks_script.specs.declared.reasons.Kind.{Kind};

use crate::lexer::value;
use crate::lines::any_line;
use crate::numeral::spells;
use crate::reader::MOST_CALLS;
use crate::version::Version;
use ks_history::Op;
use ks_lines::Line;

/// Why a line is refused. `text` says it in a sentence.
#[derive(Clone, Copy, Debug, PartialEq, Eq)]
pub enum Reason {
    MissingLine,
    UnknownWord,
    VersionLine,
    OtherVersion,
    NoCaller,
    TooManyCallers,
    TooManyCalls,
    MissingWord,
    ExtraWord,
    NoNumber,
    OutOfRange,
    LowAboveLast,
    SameKey,
    TooManyParts,
    NotTheRun,
}

impl Reason {
    /// The sentence, with no end.
    pub fn text(self) -> &'static str
        ensures { result.now ≡ reason_text self }
    {
        match self {
            Reason::MissingLine => "the text ends before it",
            Reason::UnknownWord => "no line begins with its first word",
            Reason::VersionLine =>
                "only the first line says a version: script 2, script 3 or script 4",
            Reason::OtherVersion => "the version of the script has no such line",
            Reason::NoCaller => "it comes before the first caller",
            Reason::TooManyCallers => "it is one caller more than the version of the script allows",
            Reason::TooManyCalls => "it is one call more than the 1048576 that a script may have",
            Reason::MissingWord => "a word is missing at its end",
            Reason::ExtraWord => "a word or a space is too many at its end",
            Reason::NoNumber =>
                "a word is no number: only digits, no leading zero, one space before it",
            Reason::OutOfRange => "a key or a value is too great, or PARTS is not 1 to 64",
            Reason::LowAboveLast => "LOW is greater than LAST",
            Reason::SameKey => "FROM and TO are the same key",
            Reason::TooManyParts => "the PARTS of the script are more than 65536 together",
            Reason::NotTheRun => "from it on the lines are no run of the script",
        }
    }
}

/// The lines of a script, by their first word.
#[derive(Clone, Copy)]
pub enum Kind {
    Caller,
    Get,
    Put,
    Del,
    Add,
    Swap,
    Scan,
    Move,
}

impl Kind {
    fn of(word: &[u8]) -> Option<Kind>
        ensures some { IfSome result (λ kind. word.now ≡ kind_word kind) }
        ensures none { IfNone result ((kind : Kind) → word.now ≢ kind_word kind) }
    {
        match word {
            b"caller" => Some(Kind::Caller),
            b"get" => Some(Kind::Get),
            b"put" => Some(Kind::Put),
            b"del" => Some(Kind::Del),
            b"add" => Some(Kind::Add),
            b"swap" => Some(Kind::Swap),
            b"scan" => Some(Kind::Scan),
            b"move" => Some(Kind::Move),
            _ => None,
        }
    }

    fn is_in(self, version: Version) -> bool
        ensures { IsTrue result ↔ HasKind version self }
    {
        match self {
            Kind::Caller | Kind::Get | Kind::Put | Kind::Del => true,
            Kind::Add | Kind::Swap => version != Version::First,
            Kind::Scan => matches!(version, Version::Third | Version::Fourth),
            Kind::Move => matches!(version, Version::Fourth),
        }
    }

    fn due(self) -> &'static [Due]
        ensures { result.now ≡ due_of self }
    {
        match self {
            Kind::Caller => &[],
            Kind::Get | Kind::Del => &[Due::Key],
            Kind::Put | Kind::Add => &[Due::Key, Due::Value],
            Kind::Swap => &[Due::Key, Due::Value, Due::Value],
            Kind::Scan => &[Due::Key, Due::Key, Due::Parts],
            Kind::Move => &[Due::Key, Due::Key],
        }
    }
}

/// What a number of a line is, or is to be.
#[derive(Clone, Copy)]
pub enum Due {
    Key,
    Value,
    Parts,
}

impl Due {
    fn allows(self, version: Version, number: u128) -> bool
        ensures { IsTrue result ↔ IsWithin version self number }
    {
        match self {
            Due::Key => number <= u64::MAX as u128,
            Due::Value => version != Version::First || number <= u64::MAX as u128,
            Due::Parts => 1 <= number && number <= 64,
        }
    }
}

fn is(word: &[u8], text: &[u8]) -> bool
    ensures { IsTrue result ↔ (word.now ≡ text.now) }
{
    word == text
}

// The bytes before the first such byte, and the others.
fn cut(bytes: &[u8], end: u8) -> (&[u8], &[u8])
    ensures parts { bytes.now ≡ result.0.now ++ result.1.now }
    ensures lacks { Lacks end result.0.now }
    ensures behind { Behind end result.1.now }
{
    let mut at = 0;
    'search: while at < bytes.len() {
        if bytes[at] == end {
            return bytes.split_at(at);
        }
        at += 1;
    }
    bytes.split_at(at)
}

fn is_numeral(word: &[u8]) -> bool
    ensures { IsTrue result ↔ IsNumeral word.now }
{
    let mut at = 0;
    'digits: while at < word.len() {
        if !word[at].is_ascii_digit() {
            return false;
        }
        at += 1;
    }
    spells(word, at)
}

fn not_due(version: Version, due: Due, word: &[u8]) -> Option<Reason>
    ensures some { IfSome result (NotDue version due word.now) }
    ensures none { IfNone result (IsDue version due word.now) }
{
    if !is_numeral(word) {
        return Some(Reason::NoNumber);
    }
    let Some((number, _)) = value(word) else {
        return Some(Reason::OutOfRange);
    };
    if !due.allows(version, number) {
        return Some(Reason::OutOfRange);
    }
    None
}

// Why the words behind a space are not the numbers that are due.
fn misread(version: Version, due: &[Due], words: &[u8]) -> Option<Reason>
    requires { Behind 32 words.now }
    ensures some { IfSome result (Misread version due.now (words_behind words.now)) }
    ensures none { IfNone result (AreDue version due.now (words_behind words.now)) }
{
    let mut rest = words;
    'numbers: for number in due {
        if rest.is_empty() {
            return Some(Reason::MissingWord);
        }
        let (word, more) = cut(rest.split_at(1).1, b' ');
        if let Some(why) = not_due(version, *number, word) {
            return Some(why);
        }
        rest = more;
    }
    if rest.is_empty() {
        return None;
    }
    Some(Reason::ExtraWord)
}

// Why a line whose numbers are what is due is refused.
fn disorder(line: Line) -> Reason
    ensures { (version : Version) (parts : ℕ) → (InOrder line → IsLineOf version line) →
        ¬ IsLineWithin version parts line → Disorder parts line result }
{
    match line {
        Line::Scan(low, last, _) => {
            if low > last {
                return Reason::LowAboveLast;
            }
            Reason::TooManyParts
        }
        Line::Call(_) => Reason::SameKey,
    }
}

// Why a line of the kind may not come behind this number of callers and of calls.
fn misplaced(version: Version, callers: usize, calls: usize, kind: Kind) -> Option<Reason>
    ensures some { IfSome result (Misplaced version callers calls kind) }
    ensures none { IfNone result (MayCome version callers calls kind) }
{
    if let Kind::Caller = kind {
        if callers >= version.most_callers() {
            return Some(Reason::TooManyCallers);
        }
        return None;
    }
    if callers == 0 {
        return Some(Reason::NoCaller);
    }
    if calls >= MOST_CALLS {
        return Some(Reason::TooManyCalls);
    }
    None
}

fn misfit(version: Version, callers: usize, calls: usize, parts: u32, line: &[u8]) -> Reason
    requires caller { callers < callers_limit version → line.now ≢ codes "caller" }
    requires line { 0 < callers → calls < 1048576 →
        (l : Line) → IsLineWithin version parts l → line.now ≢ line_text l }
    ensures { Misfit version callers calls parts line.now (words_of line.now) result }
{
    let (word, rest) = cut(line, b' ');
    if is(word, b"script") {
        return Reason::VersionLine;
    }
    let Some(kind) = Kind::of(word) else {
        return Reason::UnknownWord;
    };
    if !kind.is_in(version) {
        return Reason::OtherVersion;
    }
    if let Some(why) = misplaced(version, callers, calls, kind) {
        return why;
    }
    if let Some(why) = misread(version, kind.due(), rest) {
        return why;
    }
    match any_line(line) {
        Some((line, _)) => disorder(line),
        None => unreachable!(),
    }
}

/// Why the first line of the bytes does not go on with a script of the version, which has this number of callers and of
/// calls, and may ask for this number of parts more.
pub fn why(version: Version, callers: usize, calls: usize, parts: u32, bytes: &[u8]) -> Reason
    requires caller { callers < callers_limit version → NotFirst (codes "caller") (lines_of bytes.now) }
    requires line { 0 < callers → calls < 1048576 →
        NoneFirst (IsLineWithin version parts) line_text (lines_of bytes.now) }
    ensures { Amiss version callers calls parts (lines_of bytes.now) result }
{
    if bytes.is_empty() {
        return Reason::MissingLine;
    }
    misfit(version, callers, calls, parts, cut(bytes, b'\n').0)
}

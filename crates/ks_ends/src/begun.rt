//! What the words and the source ask for.

ghost use Rattle.std.specs.Prelude.{◌≡◌, ◌≢◌, None};
ghost use Rattle.ks_script.specs.Outside.{Rose};
ghost use Rattle.ks_words.specs.Words.{bytes_of};
ghost use Rattle.ks_ends.specs.Begun.{IfServes, IfEnds};
ghost use Rattle.ks_ends.specs.Request.{IsAskedFor};
ghost use Rattle.ks_ends.specs.Left.{Left};
ghost use Rattle.ks_ends.specs.Parts.{ReasonWith};

use crate::check::check;
use crate::ending::{Ending, halted};
use crate::printing::Printing;
use crate::request::{Request, load_served};
use ks_script::{Sink, Source};
use ks_words::status::{NO_COMMAND, NO_MEMORY, REFUSED};
use ks_words::{Asked, command};
use std::alloc::Global;

/// What has come of the words.
#[derive(Drop)]
pub enum Begun {
    /// A script is to be served. Nothing is written so far.
    Serves(Request),
    /// The program has ended, without a run.
    Ends(Ending),
}

/// Does what the words ask for, except serving: reads a script or makes it, or judges a run and writes the judgment.
pub fn begin<S: Source, K: Sink>(
    alloc: Global,
    words: &[String],
    source: &mut S,
    out: &mut K,
) -> Begun
    ensures asked { IfServes result (IsAskedFor (bytes_of words.now) (S.left source.old) (S.left source.new)) }
    ensures untouched { IfServes result (λ _. out.new ≡ out.old) }
    ensures ends { IfEnds result (λ ending. Left (bytes_of words.now)
        (S.left source.old) (S.left source.new) (Rose (S.faults source.old) (S.faults source.new))
        (K.taken out.old) (K.taken out.new) (Rose (K.faults out.old) (K.faults out.new))
        ending.status ending.line ending.number None) }
    ensures reason { IfEnds result (λ ending. ReasonWith (bytes_of words.now) ending.status ending.line ending.why (S.left source.old)) }
    ensures why { IfEnds result (λ ending. ending.status ≢ REFUSED → ending.why ≡ None) }
{
    match command(words) {
        Some(Asked::Run { pairing, setting }) => match load_served(alloc, pairing, source) {
            Ok(script) => Begun::Serves(Request {
                pairing,
                setting,
                script,
                printing: Printing::Run,
            }),
            Err(halt) => Begun::Ends(halted(halt)),
        },
        Some(
            Asked::Make {
                pairing,
                setting,
                draft,
            },
        ) => match Request::made(alloc, pairing, setting, draft) {
            Ok(request) => Begun::Serves(request),
            Err(_) => Begun::Ends(Ending::at(NO_MEMORY, 0)),
        },
        Some(Asked::Check) => Begun::Ends(check(alloc, source, out)),
        None => Begun::Ends(Ending::at(NO_COMMAND, 0)),
    }
}

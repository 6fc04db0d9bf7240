//! The number and the reply of a call at one key, by its result.
ghost use Rattle.std.specs.Prelude.{◌≡◌};
ghost use Rattle.ks_history.specs.Map.{told};
ghost use Rattle.ks_aid.specs.OneKey.{IsFound, IsFoundOrFull};
ghost use Rattle.ks_shape.specs.Answers.{number_in, reply_in};

use ks_history::{Reply, reply_of};
use ks_shape::{Full, Numbered};

/// Returns the number and the reply of a call, by what it found.
pub fn found_reply(answer: Numbered) -> (u64, Reply)
    ensures number { result.0 ≡ answer.number }
    ensures reply { result.1 ≡ told answer.found }
    ensures found { IsFound result.1 }
{
    (answer.number, reply_of(answer.found))
}

/// Returns the number and the reply of a put or an add, by its result.
pub fn filled_reply(answer: Result<Numbered, Full>) -> (u64, Reply)
    ensures number { result.0 ≡ number_in answer }
    ensures reply { result.1 ≡ reply_in answer }
    ensures filled { IsFoundOrFull result.1 }
{
    match answer {
        Ok(answer) => found_reply(answer),
        Err(full) => (full.number, Reply::Full),
    }
}

//! The replies of calls, by what the map has.

ghost use Rattle.std.specs.Prelude.{◌≡◌, ◌≢◌};
ghost use Rattle.ks_history.specs.declared.Reply.TheVariants.{Full};
ghost use Rattle.ks_history.specs.Map.{told, moved};

use crate::Reply;

/// The reply for what was found at a place: its value, or nothing.
pub fn reply_of(found: Option<u128>) -> Reply
    ensures told { result ≡ told found }
    ensures some { result ≢ Full }
{
    match found {
        Some(value) => Reply::Value(value),
        None => Reply::Nothing,
    }
}

/// The reply of a move, for what was at the place from which it moves and at the one to which it moves.
pub fn reply_of_move(from: Option<u128>, to: Option<u128>) -> Reply
    ensures { result ≡ moved from to }
{
    match (from, to) {
        (None, _) => Reply::Nothing,
        (Some(value), None) => Reply::Value(value),
        (Some(_), Some(_)) => Reply::Kept,
    }
}

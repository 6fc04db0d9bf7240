//! A line of a word, a number and what ends it, offered whole.

ghost use Rattle.std.specs.Prelude.{◌≤◌, ◌++◌, OnOk, OnErr};
ghost use Rattle.std.specs.Fmt.{decimal};
ghost use Rattle.ks_script.specs.Outside.{Rose, Grew, GrewByFront};
ghost use Rattle.ks_script.specs.Reasons.{refusal_text};

use crate::pieces::{Piece, finish, put, put_one};
use crate::{Failed, Reason, Sink};

/// Offers the word, the number and the end in one piece, if they fit one, so that where the sink takes it whole no text of
/// another writer comes between. After an error the sink has taken its first bytes.
pub fn send_line<K: Sink>(out: &mut K, word: &[u8], number: u64, end: &[u8]) -> Result<(), Failed>
    ensures ok { OnOk result (Grew (K.taken out.old) (K.taken out.new) (word.now ++ (decimal number ++ end.now))) }
    ensures front { OnErr result
        (GrewByFront (K.taken out.old) (K.taken out.new) (word.now ++ (decimal number ++ end.now))) }
    ensures cause { OnErr result (Rose (K.faults out.old) (K.faults out.new)) }
    ensures count { K.faults out.old ≤ K.faults out.new }
{
    let mut line = Piece::new();
    put(out, &mut line, word);
    put_one(out, &mut line, number, b"");
    put(out, &mut line, end);
    finish(out, line)
}

/// Offers what is said of a refused line, and on a second line why it is refused, in one piece as `send_line` does.
pub fn send_refusal<K: Sink>(out: &mut K, line: u64, why: Reason) -> Result<(), Failed>
    ensures ok { OnOk result (Grew (K.taken out.old) (K.taken out.new) (refusal_text line why)) }
    ensures front { OnErr result (GrewByFront (K.taken out.old) (K.taken out.new) (refusal_text line why)) }
    ensures cause { OnErr result (Rose (K.faults out.old) (K.faults out.new)) }
    ensures count { K.faults out.old ≤ K.faults out.new }
{
    let mut text = Piece::new();
    put(out, &mut text, b"line ");
    put_one(out, &mut text, line, b"");
    put(out, &mut text, b" refused\n");
    put(out, &mut text, why.text().as_bytes());
    put(out, &mut text, b"\n");
    finish(out, text)
}

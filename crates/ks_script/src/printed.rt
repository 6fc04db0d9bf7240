//! Printed runs: the reply to each call, and the map at the end.

ghost use Rattle.std.specs.Prelude.{◌≡◌, ◌≤◌, ◌<◌, [], ◌∷◌, ◌++◌, OnOk, OnErr, codes, length, map};
ghost use Rattle.ks_script.specs.Words.{decimal, flat_map, ended, text_of, Rose, Grew, GrewByFront, said_at, Puts, IsPlain, reply_line, part_line, stop_line, said_lines, callers_from, map_lines, run_text};

use crate::pieces::{Piece, finish, put, put_one, put_two};
use crate::{Failed, Replies, Sink};
use ks_history::Reply;
use ks_lines::{Part, Scanned};
use std::marker::Model;

/// For each caller the number and the reply of each of its calls, and the keys and values of the map at the end.
#[derive(Drop)]
pub struct Printed {
    pub callers: Vec<Replies>,
    pub pairs: Vec<(u64, u128)>,
}

impl Model for Printed {
    ghost use Rattle.ks_script.specs.Run.{Run};

    ghost Value = { Run };

    ghost view = { λ p. record { callers = p.callers.items; pairs = p.pairs.items } };
}

// The line of a call with a plain reply.
fn put_reply<K: Sink>(out: &mut K, piece: &mut Piece, line: &(u64, Reply))
    requires { IsPlain line.now.1 }
    ensures { Puts K.taken K.faults out.old piece.old (ended (reply_line line.now)) out.new piece.new }
{
    match &line.1 {
        Reply::Value(value) => put_two(out, piece, b"", line.0, *value, b"\n"),
        Reply::Nothing => put_one(out, piece, line.0, b" none\n"),
        Reply::Full => put_one(out, piece, line.0, b" full\n"),
        Reply::Kept => put_one(out, piece, line.0, b" kept\n"),
        Reply::Listed(_) => unreachable!(),
    }
}

// The line of a part of a scan, pair by pair, since it may have 1,018 bytes, and an `Ending` has room for 64.
fn put_part<K: Sink>(out: &mut K, piece: &mut Piece, part: &Part)
    ensures { Puts K.taken K.faults out.old piece.old (ended (part_line part.now)) out.new piece.new }
{
    put_two(out, piece, b"", part.number, part.last as u128, b"");
    for at in 0..part.pairs.len() {
        let pair = part.pairs.pair(at);
        put_two(out, piece, b" ", pair.place, pair.value, b"");
    }
    put(out, piece, b"\n");
}

// The lines of a scan.
fn put_scan<K: Sink>(out: &mut K, piece: &mut Piece, parts: &[Part], stop: Scanned)
    ensures { Puts K.taken K.faults out.old piece.old (text_of (map part_line parts.now ++ stop_line stop ∷ []))
        out.new piece.new }
{
    for part in parts {
        put_part(out, piece, part);
    }
    match stop {
        Scanned::Whole => put(out, piece, b"whole\n"),
        Scanned::Until { next } => {
            put(out, piece, b"until ");
            put_one(out, piece, next, b"\n");
        }
    }
}

// The lines of what is said to a caller at a place.
fn put_said<K: Sink>(out: &mut K, piece: &mut Piece, said: &Replies, at: usize)
    requires { at < length said.now }
    ensures { Puts K.taken K.faults out.old piece.old (text_of (said_lines (said_at said.now at))) out.new piece.new }
{
    match said.scan_at(at) {
        Some((parts, stop)) => put_scan(out, piece, parts.as_slice(), stop),
        None => put_reply(out, piece, &said.call_at(at)),
    }
}

// The lines of a caller.
fn put_caller<K: Sink>(out: &mut K, piece: &mut Piece, number: u64, said: &Replies)
    ensures { Puts K.taken K.faults out.old piece.old
        (text_of ((codes "caller " ++ decimal number) ∷ flat_map said_lines said.now)) out.new piece.new }
{
    put(out, piece, b"caller ");
    put_one(out, piece, number, b"\n");
    for at in 0..said.len() {
        put_said(out, piece, said, at);
    }
}

// The lines of callers, numbered from 0.
fn put_callers<K: Sink>(out: &mut K, piece: &mut Piece, callers: &[Replies])
    ensures { Puts K.taken K.faults out.old piece.old (text_of (callers_from 0 callers.now)) out.new piece.new }
{
    for (number, said) in callers.iter().enumerate() {
        put_caller(out, piece, number as u64, said);
    }
}

// The lines of the map.
fn put_map<K: Sink>(out: &mut K, piece: &mut Piece, pairs: &[(u64, u128)])
    ensures { Puts K.taken K.faults out.old piece.old (text_of (map_lines pairs.now)) out.new piece.new }
{
    put(out, piece, b"map\n");
    for pair in pairs {
        put_two(out, piece, b"", pair.0, pair.1, b"\n");
    }
    put(out, piece, b"end\n");
}

/// Writes the text of the run, in pieces of 4,096 bytes, the last one shorter. After an error the sink has taken its
/// first bytes.
pub fn write_run<K: Sink>(out: &mut K, printed: &Printed) -> Result<(), Failed>
    ensures ok { OnOk result (Grew (K.taken out.old) (K.taken out.new) (run_text printed.now)) }
    ensures front { OnErr result (GrewByFront (K.taken out.old) (K.taken out.new) (run_text printed.now)) }
    ensures cause { OnErr result (Rose (K.faults out.old) (K.faults out.new)) }
    ensures count { K.faults out.old ≤ K.faults out.new }
{
    let mut piece = Piece::new();
    put_callers(out, &mut piece, &printed.callers);
    put_map(out, &mut piece, &printed.pairs);
    finish(out, piece)
}

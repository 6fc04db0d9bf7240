//! Writing in pieces: bytes wait in a piece until it is full, and then it goes to the sink.

ghost use Rattle.std.specs.Prelude.{ℕ, ◌≡◌, ◌+◌, ◌≤◌, [], false, Option, List, ◌++◌, OnOk, OnErr, length};
ghost use Rattle.ks_script.specs.Words.{decimal, array_vec_len, Rose, Grew, GrewByFront, Holds, Puts, Takes, pair_line};

use crate::ending::Ending;
use crate::{Failed, Sink};
use arrayvec::ArrayVec;

/// How many bytes are offered at a time.
const PIECE: usize = 4096;

/// Bytes that wait to be offered. Once the sink has failed nothing more is.
#[derive(Drop)]
pub struct Piece {
    bytes: ArrayVec<u8, PIECE>,
    failed: bool,
}

impl Piece {
    pub fn new() -> Piece
        ensures { (result.bytes.items ≡ []) × (result.failed ≡ false) }
    {
        Piece {
            bytes: ArrayVec::new(),
            failed: false,
        }
    }
}

/// Offers the bytes until all are taken. What is taken in part is offered again from the first byte not taken.
pub fn send<K: Sink>(out: &mut K, bytes: &[u8]) -> Result<(), Failed>
    ensures ok { OnOk result (Grew (K.taken out.old) (K.taken out.new) bytes.now) }
    ensures front { OnErr result (GrewByFront (K.taken out.old) (K.taken out.new) bytes.now) }
    ensures cause { OnErr result (Rose (K.faults out.old) (K.faults out.new)) }
    ensures count { K.faults out.old ≤ K.faults out.new }
{
    let mut rest = bytes;
    while !rest.is_empty() {
        let count = out.write(rest)?;
        rest = rest.split_at(count).1;
    }
    Ok(())
}

// The bytes wait behind those that waited: there is room for all of them.
#[inline(always)]
fn append(piece: &mut Piece, bytes: &[u8])
    requires { array_vec_len piece.old.bytes + length bytes.now ≤ 4096 }
    ensures bytes { piece.new.bytes.items ≡ piece.old.bytes.items ++ bytes.now }
    ensures failed { piece.new.failed ≡ piece.old.failed }
{
    let _ = piece.bytes.try_extend_from_slice(bytes);
}

// What waits is offered, unless the sink has failed.
#[inline(never)]
fn offer<K: Sink>(out: &mut K, piece: &mut Piece)
    ensures none { piece.new.bytes.items ≡ [] }
    ensures puts { Puts K.taken K.faults out.old piece.old [] out.new piece.new }
{
    if !piece.failed {
        piece.failed = send(out, piece.bytes.as_slice()).is_err();
    }
    piece.bytes.clear();
}

// As `put`, where there is no room for all of the bytes: as many as there is room for wait, and then the piece is offered.
#[inline(never)]
fn put_over<K: Sink>(out: &mut K, piece: &mut Piece, bytes: &[u8])
    ensures { Puts K.taken K.faults out.old piece.old bytes.now out.new piece.new }
{
    let mut rest = bytes;
    while rest.len() > piece.bytes.remaining_capacity() {
        let (front, back) = rest.split_at(piece.bytes.remaining_capacity());
        append(piece, front);
        offer(out, piece);
        rest = back;
    }
    append(piece, rest);
}

/// The bytes wait behind those that waited, and each piece that is full, with more bytes to come, is offered.
#[inline(always)]
#[tactic(auto, using(crate::proofs::Putting::puts_append))]
pub fn put<K: Sink>(out: &mut K, piece: &mut Piece, bytes: &[u8])
    ensures { Puts K.taken K.faults out.old piece.old bytes.now out.new piece.new }
{
    if bytes.len() > piece.bytes.remaining_capacity() {
        put_over(out, piece, bytes);
        return;
    }
    append(piece, bytes);
}

/// A number, and an end of 8 bytes at most.
#[inline(always)]
pub fn put_one<K: Sink>(out: &mut K, piece: &mut Piece, number: u64, end: &[u8])
    requires { length end.now ≤ 8 }
    ensures { Puts K.taken K.faults out.old piece.old (decimal number ++ end.now) out.new piece.new }
{
    let mut text = Ending::new();
    text.word(end);
    text.number(number);
    put(out, piece, text.bytes());
}

/// Two numbers with a space between them, behind a front and before an end.
#[inline(always)]
pub fn put_two<K: Sink>(
    out: &mut K,
    piece: &mut Piece,
    front: &[u8],
    first: u64,
    second: u128,
    end: &[u8],
)
    requires { length front.now + length end.now ≤ 4 }
    ensures { Puts K.taken K.faults out.old piece.old (front.now ++ (pair_line (first, second) ++ end.now))
        out.new piece.new }
{
    let mut text = Ending::new();
    text.word(end);
    text.value(second);
    text.word(b" ");
    text.number(first);
    text.word(front);
    put(out, piece, text.bytes());
}

/// What waits is offered, and no piece more. What was put is taken, or its first bytes are and the sink has failed.
pub fn finish<K: Sink>(out: &mut K, mut piece: Piece) -> Result<(), Failed>
    ensures { (start : Option (List ℕ)) (faults : ℕ) (text : List ℕ) →
        Holds start faults text (K.taken out.old) (K.faults out.old) piece →
        Takes start faults text (K.taken out.new) (K.faults out.new) result }
{
    offer(out, &mut piece);
    if piece.failed {
        return Err(Failed);
    }
    Ok(())
}

//! Places for the keys of an operation.
ghost use Rattle.std.specs.Prelude.{◌≡◌, Bool};
ghost use Rattle.ks_history.specs.Served.{at_place};
ghost use Rattle.ks_lines.specs.declared.Line.TheVariants.{Call};
ghost use Rattle.ks_lines.specs.Lines.{IsServedLine};
ghost use Rattle.ks_lines.specs.Asked.{IsOwnLine};

use ks_history::Op;
use ks_places::Placing;

/// The operation with the place of each key. A script may ask for it, and a pairing serves it, as before.
pub fn placed<P: Placing>(op: Op) -> Op
    ensures is { result ≡ at_place P.place_of op }
    ensures own { IsOwnLine op → IsOwnLine result }
    ensures served { (scans moves : Bool) → IsServedLine scans moves (Call op) → IsServedLine scans moves (Call result) }
{
    match op {
        Op::Get(key) => Op::Get(P::place(key)),
        Op::Put(key, value) => Op::Put(P::place(key), value),
        Op::Del(key) => Op::Del(P::place(key)),
        Op::Add(key, value) => Op::Add(P::place(key), value),
        Op::Swap(key, old, new) => Op::Swap(P::place(key), old, new),
        Op::Part(low, last) => Op::Part(P::place(low), P::place(last)),
        Op::Move(from, to) => Op::Move(P::place(from), P::place(to)),
    }
}

//! The first and the last pair of a span of places, by rows of parts.
ghost use Rattle.std.specs.Prelude.{◌≡◌, ◌≤◌};
ghost use Rattle.ks_shape.specs.Idle.{IsIdle};
ghost use Rattle.ks_dictionary.specs.Scan.{HasSearched};
ghost use Rattle.ks_dictionary.specs.Ends.{HasFoundFirst, HasFoundLast, first_of, found_or, last_of};

use ks_arena::Pass;
use ks_gate::Gate;
use ks_keysets::Pair;
use ks_node::Node;
use ks_shape::{Part, Scanning, Shelf};
use std::sync::Wait;

/// A pair that one part of a scan has listed, and the number of that part in the one history of all calls, modulo 2^64.
#[derive(Clone, Copy, Debug, PartialEq, Eq)]
pub struct Found {
    pub number: u64,
    pub pair: Pair,
}

// The first pair of a part, if it has one.
fn first_of(part: &Part) -> Option<Found>
    ensures { result ≡ first_of part.now }
{
    if part.pairs.len() == 0 {
        return None;
    }
    Some(Found {
        number: part.number,
        pair: part.pairs.pair(0),
    })
}

// The last pair of a part, if it has one.
fn last_of(part: &Part) -> Option<Found>
    ensures { result ≡ last_of part.now }
{
    let many = part.pairs.len();
    if many == 0 {
        return None;
    }
    Some(Found {
        number: part.number,
        pair: part.pairs.pair(many - 1),
    })
}

// What was found, or else what was found before.
fn or_before(found: Option<Found>, before: Option<Found>) -> Option<Found>
    ensures { result ≡ found_or found before }
{
    match found {
        Some(found) => Some(found),
        None => before,
    }
}

/// Returns the first pair that a row of parts finds from `low` to `last`, both included: it scans from `low` until a
/// part has a pair, and returns its first one, or `None` if no part up to `last` has one. Each part is of a moment of
/// its own, so the place need not be the least one with a value at any one moment.
pub fn first_in<N: Node, A: Shelf, T: Scanning<N, A>, R: Wait, G: Gate>(
    rt: &R,
    arena: &A,
    pass: &mut Pass<N, T::Rule>,
    gate: &G,
    low: u64,
    last: u64,
) -> Option<Found>
    requires pass { IsIdle (A.site arena.now) pass.old }
    requires span { low ≤ last }
    ensures searched { HasSearched (A.site arena.now) pass.old pass.new }
    ensures done { HasFoundFirst N.layout T.technique (A.site arena.now) low last pass.old pass.new result }
{
    let mut from = low;
    loop {
        let part = T::scan_part(rt, arena, pass, gate, from, last);
        if let Some(found) = first_of(&part) {
            return Some(found);
        }
        if part.last == last {
            return None;
        }
        from = part.last + 1;
    }
}

/// Returns the last pair that a row of parts finds from `low` to `last`, both included: it scans the whole span, and
/// returns the last pair of the last part that has one, or `None` if none has. Each part is of a moment of its own, so
/// the place need not be the greatest one with a value at any one moment.
pub fn last_in<N: Node, A: Shelf, T: Scanning<N, A>, R: Wait, G: Gate>(
    rt: &R,
    arena: &A,
    pass: &mut Pass<N, T::Rule>,
    gate: &G,
    low: u64,
    last: u64,
) -> Option<Found>
    requires pass { IsIdle (A.site arena.now) pass.old }
    requires span { low ≤ last }
    ensures searched { HasSearched (A.site arena.now) pass.old pass.new }
    ensures done { HasFoundLast N.layout T.technique (A.site arena.now) low last pass.old pass.new result }
{
    let mut from = low;
    let mut found = None;
    loop {
        let part = T::scan_part(rt, arena, pass, gate, from, last);
        found = or_before(last_of(&part), found);
        if part.last == last {
            return found;
        }
        from = part.last + 1;
    }
}

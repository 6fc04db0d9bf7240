//! Whole scans: the pairs of a span of places, as a row of parts. Each part is a call of its own, decided at one node,
//! and begins at the place after the one where the part before it stopped. So a scan is no picture of one moment.
ghost use Rattle.std.specs.Prelude.{◌≡◌, ◌≤◌, ◌<◌, ◌^◌, [], length, vec_capacity};
ghost use Rattle.ks_history.specs.Trace.{calls_of};
ghost use Rattle.ks_arena.specs.Clauses.{seen_of};
ghost use Rattle.ks_shape.specs.Idle.{IsIdle};
ghost use Rattle.ks_dictionary.specs.Scan.{HasSearched, IsDoneScan, NumbersAscend};
ghost use Rattle.ks_lines.specs.Scan.{IsScanOf};

use ks_arena::Pass;
use ks_gate::Gate;
use ks_lines::Scanned;
use ks_node::Node;
use ks_shape::{Part, Scanning, Shelf};
use std::sync::Wait;

/// Lists the pairs from `low` to `last`, both included, in at most `most` parts, which it pushes into `into`, an empty list
/// with room for them: so it needs no memory. It stops at `last`, or after `most` parts. The numbers of the parts ascend,
/// unless 2^64 calls were made.
pub fn scan_into<N: Node, A: Shelf, T: Scanning<N, A>, R: Wait, G: Gate>(
    rt: &R,
    arena: &A,
    pass: &mut Pass<N, T::Rule>,
    gate: &G,
    low: u64,
    last: u64,
    most: usize,
    into: &mut Vec<Part>,
) -> Scanned
    requires pass { IsIdle (A.site arena.now) pass.old }
    requires span { low ≤ last }
    requires some { 1 ≤ most }
    requires blank { into.old.items ≡ [] }
    requires room { most ≤ vec_capacity into.old }
    ensures searched { HasSearched (A.site arena.now) pass.old pass.new }
    ensures done { IsDoneScan N.layout T.technique (A.site arena.now) low last pass.old pass.new into.new.items }
    ensures scan { IsScanOf low last most into.new.items result }
    ensures ascend { length (calls_of (seen_of pass.new)) < 2 ^ 64 → NumbersAscend into.new.items }
    ensures capacity { vec_capacity into.new ≡ vec_capacity into.old }
{
    let mut from = low;
    for _ in 0..most {
        let part = T::scan_part(rt, arena, pass, gate, from, last);
        let end = part.last;
        into.push_reserved(part);
        if end == last {
            return Scanned::Whole;
        }
        from = end + 1;
    }
    Scanned::Until { next: from }
}

//! Whether a list of pairs is what a map has from one place to another.

ghost use Rattle.std.specs.Prelude.{◌↔◌, IsTrue};
ghost use Rattle.std.specs.Ordering.{nat_cmp};
ghost use Rattle.std.specs.BTreeMap.{get};
ghost use Rattle.ks_history.specs.Map.{ListsSpan};

use ks_keysets::{Few, Pair};
use std::collections::BTreeMap;

/// Whether these pairs are what the map has from one place to another, in order of place: none if the first place is
/// above the last one.
pub fn lists_span(map: &BTreeMap<u64, u128>, low: u64, last: u64, pairs: &Few) -> bool
    ensures { IsTrue result ↔ ListsSpan (get nat_cmp map.now) low last pairs.now }
{
    if last < low {
        return pairs.len() == 0;
    }
    let mut at = 0;
    for (place, value) in map.range(low..=last) {
        if at == pairs.len() {
            return false;
        }
        let pair = Pair {
            place: *place,
            value: *value,
        };
        if pairs.pair(at) != pair {
            return false;
        }
        at += 1;
    }
    at == pairs.len()
}

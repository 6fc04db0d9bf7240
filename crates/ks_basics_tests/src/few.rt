ghost use Rattle.std.specs.Prelude.{◌≡◌};

use crate::wrong::Wrong;
use ks_keysets::{Few, Pair};
use std::process::Abort;

/// The pair of a place with twice the place as its value.
fn pair(place: u64) -> Pair {
    Pair {
        place,
        value: 2 * place as u128,
    }
}

/// The pairs of the places from 0 to below the end.
fn few_below(rt: &impl Abort, end: u64) -> Few {
    let mut few = Few::new();
    for place in 0..end {
        assert!(rt; few.len() < 16);
        few.push(pair(place));
    }
    few
}

/// Whether the list has the pairs of the places from 0 to below the end, in order.
fn is_below(few: &Few, end: u64) -> bool {
    if few.len() as u64 != end {
        return false;
    }
    for at in 0..few.len() {
        if few.pair(at) != pair(at as u64) {
            return false;
        }
    }
    true
}

/// Lists of up to sixteen pairs keep them in order.
fn keep_each(rt: &impl Abort) -> Result<(), Wrong> {
    for end in 0..17u64 {
        if !is_below(&few_below(rt, end), end) {
            return Err(Wrong::Row(end as usize));
        }
    }
    Ok(())
}

#[test]
fn keeps_sixteen_pairs_in_order(rt: HostRuntime) -> Result<(), Wrong> {
    keep_each(&rt)
}

#[test]
fn a_copy_is_a_list_of_its_own(rt: HostRuntime) {
    let mut few = few_below(&rt, 15);
    let copy = few.copied();
    assert!(rt; few == copy);
    assert!(rt; few.len() < 16);
    few.push(pair(20));
    assert!(rt; few != copy);
    assert!(rt; is_below(&copy, 15));
}

#[test]
fn lists_differ_by_a_place_a_value_or_their_length(rt: HostRuntime) {
    let mut one = Few::new();
    one.push(Pair { place: 1, value: 2 });
    let mut other_place = Few::new();
    other_place.push(Pair { place: 2, value: 2 });
    let mut other_value = Few::new();
    other_value.push(Pair { place: 1, value: 3 });
    assert!(rt; one != other_place);
    assert!(rt; one != other_value);
    assert!(rt; one != Few::new());
    assert!(rt; one == one.copied());
}

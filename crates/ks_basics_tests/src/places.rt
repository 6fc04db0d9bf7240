//! Keys to places and back.

ghost use Rattle.std.specs.Prelude.{◌≡◌};

use ks_places::{Golden, Placing, Plain};

/// A caller that knows only the trait bound of the placing.
fn there_and_back<P: Placing>(k: u64) -> (u64, u64)
    ensures { (result.0 ≡ k) × (result.1 ≡ k) }
{
    (P::key_of(P::place(k)), P::place(P::key_of(k)))
}

#[test]
fn golden_factors_are_the_known_ones(rt: HostRuntime) {
    assert!(rt; Golden::place(1) == 11400714819323198485);
    assert!(rt; Golden::key_of(1) == 17428512612931826493);
    assert!(rt; Golden::place(0) == 0);
}

#[test]
fn each_way_undoes_the_other(rt: HostRuntime) {
    assert!(rt; there_and_back::<Plain>(u64::MAX) == (u64::MAX, u64::MAX));
    assert!(rt; there_and_back::<Golden>(u64::MAX) == (u64::MAX, u64::MAX));
}

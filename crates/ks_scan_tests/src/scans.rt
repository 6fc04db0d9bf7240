//! Ordered scans of a dictionary, whole and cut short, and the first and the last key of a span.
ghost use Rattle.std.specs.Prelude.{IfOk};
ghost use Rattle.ks_dictionary.specs.Of.{IsIdlePassOf};

use ks_arena::{Arena, Pass};
use ks_bplus::BNode;
use ks_crews::two_callers;
use ks_dictionary::{Dictionary, Found};
use ks_giveup::GiveUp;
use ks_lines::Scanned;
use ks_link::LinkMove;
use ks_linked::WithLink;
use ks_node::{Node, WithRange};
use ks_shape::{Ruled, Scanning, Template};
use std::alloc::{AllocError, Global};
use std::sync::Wait;
use std::test::Fail;

/// Puts the keys 0, 10, .. 200, so that the second leaf begins at 80, and deletes 80.
fn fill<N: Node, T: Ruled + Template<N, Arena<N, <T as Ruled>::Rule>>, R: Wait>(
    rt: &R,
    map: &Dictionary<N, T>,
    pass: &mut Pass<N, T::Rule>,
)
    requires { IsIdlePassOf map.now pass.old }
    ensures { IsIdlePassOf map.now pass.new }
{
    for tenth in 0..21u64 {
        let _answer = map.put(rt, pass, tenth * 10, 7);
    }
    let _deleted = map.del(rt, pass, 80);
}

/// A dictionary with these keys, and the pass of a caller.
fn filled<N: Node, T: Ruled + Template<N, Arena<N, <T as Ruled>::Rule>>, R: Wait>(
    rt: &R,
    alloc: Global,
) -> Result<(Dictionary<N, T>, Pass<N, T::Rule>), AllocError>
    ensures { IfOk result (λ x. IsIdlePassOf x.0 x.1) }
{
    let (map, mut pass, _) = two_callers::<N, T>(alloc, 64)?;
    fill(rt, &map, &mut pass);
    Ok((map, pass))
}

/// The key of a pair that was found.
fn key_of(found: Option<Found>) -> Option<u64> {
    match found {
        Some(found) => Some(found.pair.place),
        None => None,
    }
}

/// Whether a whole scan has the two leaves, of 8 and of 12 pairs, and one of at most one part stops after the first leaf.
fn scans_leaves<N: Node, T: Ruled + Scanning<N, Arena<N, <T as Ruled>::Rule>>, R: Wait>(
    rt: &R,
    alloc: Global,
    map: &Dictionary<N, T>,
    pass: &mut Pass<N, T::Rule>,
) -> Result<bool, AllocError>
    requires { IsIdlePassOf map.now pass.old }
    ensures { IsIdlePassOf map.now pass.new }
{
    let mut whole = Vec::with_capacity(alloc, 4)?;
    let end = map.scan_into(rt, pass, 0, 300, 4, &mut whole);
    let mut cut = Vec::with_capacity(alloc, 1)?;
    let stop = map.scan_into(rt, pass, 0, 300, 1, &mut cut);
    Ok(
        whole.len() == 2
            && whole[0].pairs.len() == 8
            && whole[1].pairs.len() == 12
            && end == Scanned::Whole
            && stop == (Scanned::Until { next: 80 }),
    )
}

/// Whether first and last keys are found also behind an empty part of a leaf, and none in a span that has none.
fn finds_ends<N: Node, T: Ruled + Scanning<N, Arena<N, <T as Ruled>::Rule>>, R: Wait>(
    rt: &R,
    map: &Dictionary<N, T>,
    pass: &mut Pass<N, T::Rule>,
) -> bool
    requires { IsIdlePassOf map.now pass.old }
{
    let first = map.first_in(rt, pass, 71, 300);
    let last = map.last_in(rt, pass, 0, 85);
    let end = map.last_in(rt, pass, 0, u64::MAX);
    let none = map.first_in(rt, pass, 71, 85);
    let none_last = map.last_in(rt, pass, 201, u64::MAX);
    key_of(first) == Some(90)
        && key_of(last) == Some(70)
        && key_of(end) == Some(200)
        && none == None
        && none_last == None
}

/// Whether scans go from leaf to leaf, and first and last keys are found.
fn goes_from_leaf_to_leaf<N: Node, T: Ruled + Scanning<N, Arena<N, <T as Ruled>::Rule>>, R: Wait>(
    rt: &R,
    alloc: Global,
    map: &Dictionary<N, T>,
    pass: &mut Pass<N, T::Rule>,
) -> Result<bool, AllocError>
    requires { IsIdlePassOf map.now pass.old }
{
    Ok(scans_leaves(rt, alloc, map, pass)? && finds_ends(rt, map, pass))
}

#[test]
fn a_scan_goes_from_leaf_to_leaf_by_giving_up(rt: HostRuntime) -> Result<(), Fail> {
    let alloc = rt.alloc();
    let (map, mut pass) = filled::<WithRange<BNode>, GiveUp, HostRuntime>(&rt, alloc)?;
    assert!(rt; goes_from_leaf_to_leaf(&rt, alloc, &map, &mut pass)?);
    Ok(())
}

#[test]
fn a_scan_goes_from_leaf_to_leaf_along_links(rt: HostRuntime) -> Result<(), Fail> {
    let alloc = rt.alloc();
    let (map, mut pass) = filled::<WithLink<BNode>, LinkMove, HostRuntime>(&rt, alloc)?;
    assert!(rt; goes_from_leaf_to_leaf(&rt, alloc, &map, &mut pass)?);
    Ok(())
}

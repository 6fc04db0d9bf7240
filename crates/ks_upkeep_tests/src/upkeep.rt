//! What calls of a dictionary leave beside their results, where its technique and its nodes are known.
ghost use Rattle.std.specs.Prelude.{◌≡◌, ◌≢◌, None};
ghost use Rattle.ks_arena.specs.Of.{WasAlone};
ghost use Rattle.ks_dictionary.specs.Of.{IsIdlePassOf, place_in, site_of};
ghost use Rattle.ks_shape.specs.Upkeep.{AreNewLed, HasTwoFree, IsTidyIn};

use ks_arena::Pass;
use ks_bplus::BNode;
use ks_coupling::Coupling;
use ks_dictionary::Dictionary;
use ks_flow::{Link, Tree};
use ks_giveup::GiveUp;
use ks_link::LinkMove;
use ks_linked::WithLink;
use ks_node::WithRange;
use ks_shape::{Full, Numbered};
use std::sync::Wait;
use std::test::Fail;

/// Deletes a key by lock coupling.
fn del_by_coupling<R: Wait>(
    rt: &R,
    map: &Dictionary<BNode, Coupling>,
    pass: &mut Pass<BNode, Tree>,
    key: u64,
) -> Numbered
    requires { IsIdlePassOf map.now pass.old }
    ensures pass { IsIdlePassOf map.now pass.new }
    ensures tidy { result.found ≢ None → WasAlone pass.old pass.new →
        IsTidyIn (site_of map.now) pass.new (place_in map.now key) }
{
    map.del(rt, pass, key)
}

/// Deletes a key by giving up.
fn del_by_giving_up<R: Wait>(
    rt: &R,
    map: &Dictionary<WithRange<BNode>, GiveUp>,
    pass: &mut Pass<WithRange<BNode>, Tree>,
    key: u64,
) -> Numbered
    requires { IsIdlePassOf map.now pass.old }
    ensures pass { IsIdlePassOf map.now pass.new }
    ensures tidy { result.found ≢ None → WasAlone pass.old pass.new →
        IsTidyIn (site_of map.now) pass.new (place_in map.now key) }
{
    map.del(rt, pass, key)
}

/// Sets the value of a key along links.
fn put_along_links<R: Wait>(
    rt: &R,
    map: &Dictionary<WithLink<BNode>, LinkMove>,
    pass: &mut Pass<WithLink<BNode>, Link>,
    key: u64,
    value: u128,
) -> Result<Numbered, Full>
    requires { IsIdlePassOf map.now pass.old }
    ensures pass { IsIdlePassOf map.now pass.new }
    ensures led { WasAlone pass.old pass.new → HasTwoFree (site_of map.now) pass.new →
        AreNewLed (site_of map.now) pass.old pass.new }
{
    map.put(rt, pass, key, value)
}

#[test]
fn a_call_keeps_up_what_its_technique_owes(rt: HostRuntime) -> Result<(), Fail> {
    let (map, mut passes) = Dictionary::<BNode, Coupling>::start(rt.alloc(), 16, 1)?;
    let put = map.put(&rt, &mut passes[0], 5, 50);
    let deleted = del_by_coupling(&rt, &map, &mut passes[0], 5);
    assert!(rt; put.is_ok());
    assert_eq!(rt; deleted.found, Some(50));
    let (map, mut passes) = Dictionary::<WithRange<BNode>, GiveUp>::start(rt.alloc(), 16, 1)?;
    let put = map.put(&rt, &mut passes[0], 5, 50);
    let deleted = del_by_giving_up(&rt, &map, &mut passes[0], 5);
    assert!(rt; put.is_ok());
    assert_eq!(rt; deleted.found, Some(50));
    let (map, mut passes) = Dictionary::<WithLink<BNode>, LinkMove>::start(rt.alloc(), 16, 1)?;
    let put = put_along_links(&rt, &map, &mut passes[0], 5, 50);
    assert!(rt; matches!(put, Ok(Numbered { found: None, .. })));
    Ok(())
}

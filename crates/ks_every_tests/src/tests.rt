use ks_boxed::Boxed;
use ks_bplus::BNode;
use ks_bst::TNode;
use ks_coupling::Coupling;
use ks_giveup::GiveUp;
use ks_hash::HNode;
use ks_link::LinkMove;
use ks_linked::WithLink;
use ks_list::ListNode;
use ks_node::WithRange;
use ks_places::{Golden, Plain};
use ks_trials::{right_along_links, right_under_trees, rows};
use ks_wide::WNode;
use std::test::Fail;

#[test]
fn lists_by_lock_coupling(rt: HostRuntime) -> Result<(), Fail> {
    let trials = rows::lists_by_coupling(rt.alloc())?;
    let right = right_under_trees::<ListNode, Coupling, HostRuntime>(&rt, rt.alloc(), &trials)?;
    assert_eq!(rt; right, trials.len());
    Ok(())
}

#[test]
fn trees_by_lock_coupling(rt: HostRuntime) -> Result<(), Fail> {
    let trials = rows::trees_by_coupling(rt.alloc())?;
    let right = right_under_trees::<BNode, Coupling, HostRuntime>(&rt, rt.alloc(), &trials)?;
    assert_eq!(rt; right, trials.len());
    Ok(())
}

#[test]
fn tables_by_lock_coupling(rt: HostRuntime) -> Result<(), Fail> {
    let trials = rows::tables_under_trees(rt.alloc())?;
    let right = right_under_trees::<HNode, Coupling, HostRuntime>(&rt, rt.alloc(), &trials)?;
    assert_eq!(rt; right, trials.len());
    Ok(())
}

#[test]
fn binary_trees_by_lock_coupling(rt: HostRuntime) -> Result<(), Fail> {
    let trials = rows::binary_trees(rt.alloc())?;
    let right = right_under_trees::<TNode, Coupling, HostRuntime>(&rt, rt.alloc(), &trials)?;
    assert_eq!(rt; right, trials.len());
    Ok(())
}

#[test]
fn lists_by_giving_up(rt: HostRuntime) -> Result<(), Fail> {
    let trials = rows::lists_by_giving_up(rt.alloc())?;
    let right = right_under_trees::<WithRange<ListNode>, GiveUp, HostRuntime>(
        &rt,
        rt.alloc(),
        &trials,
    )?;
    assert_eq!(rt; right, trials.len());
    Ok(())
}

#[test]
fn trees_by_giving_up(rt: HostRuntime) -> Result<(), Fail> {
    let trials = rows::trees_by_giving_up(rt.alloc())?;
    let right = right_under_trees::<WithRange<BNode>, GiveUp, HostRuntime>(
        &rt,
        rt.alloc(),
        &trials,
    )?;
    assert_eq!(rt; right, trials.len());
    Ok(())
}

#[test]
fn tables_by_giving_up(rt: HostRuntime) -> Result<(), Fail> {
    let trials = rows::tables_under_trees(rt.alloc())?;
    let right = right_under_trees::<WithRange<HNode>, GiveUp, HostRuntime>(
        &rt,
        rt.alloc(),
        &trials,
    )?;
    assert_eq!(rt; right, trials.len());
    Ok(())
}

#[test]
fn binary_trees_by_giving_up(rt: HostRuntime) -> Result<(), Fail> {
    let trials = rows::binary_trees_by_giving_up(rt.alloc())?;
    let right = right_under_trees::<WithRange<TNode>, GiveUp, HostRuntime>(
        &rt,
        rt.alloc(),
        &trials,
    )?;
    assert_eq!(rt; right, trials.len());
    Ok(())
}

#[test]
fn trees_along_links(rt: HostRuntime) -> Result<(), Fail> {
    let trials = rows::trees_along_links(rt.alloc())?;
    let right = right_along_links::<WithLink<BNode>, LinkMove, HostRuntime>(
        &rt,
        rt.alloc(),
        &trials,
    )?;
    assert_eq!(rt; right, trials.len());
    Ok(())
}

#[test]
fn tables_along_links(rt: HostRuntime) -> Result<(), Fail> {
    let trials = rows::tables_along_links(rt.alloc())?;
    let right = right_along_links::<WithLink<HNode>, LinkMove, HostRuntime>(
        &rt,
        rt.alloc(),
        &trials,
    )?;
    assert_eq!(rt; right, trials.len());
    Ok(())
}

#[test]
fn wide_trees_by_lock_coupling(rt: HostRuntime) -> Result<(), Fail> {
    let trials = rows::wide_trees_under_trees(rt.alloc())?;
    let right = right_under_trees::<Boxed<WNode<Plain, 16, 64>>, Coupling, HostRuntime>(
        &rt,
        rt.alloc(),
        &trials,
    )?;
    assert_eq!(rt; right, trials.len());
    Ok(())
}

#[test]
fn wide_trees_along_links(rt: HostRuntime) -> Result<(), Fail> {
    let trials = rows::wide_trees_along_links(rt.alloc())?;
    let right = right_along_links::<WithLink<WNode<Plain, 16, 64>>, LinkMove, HostRuntime>(
        &rt,
        rt.alloc(),
        &trials,
    )?;
    assert_eq!(rt; right, trials.len());
    Ok(())
}

#[test]
fn wide_tables_by_lock_coupling(rt: HostRuntime) -> Result<(), Fail> {
    let trials = rows::wide_tables_under_trees(rt.alloc())?;
    let right = right_under_trees::<Boxed<WNode<Golden, 32, 64>>, Coupling, HostRuntime>(
        &rt,
        rt.alloc(),
        &trials,
    )?;
    assert_eq!(rt; right, trials.len());
    Ok(())
}

#[test]
fn wide_tables_along_links(rt: HostRuntime) -> Result<(), Fail> {
    let trials = rows::wide_tables_along_links(rt.alloc())?;
    let right = right_along_links::<WithLink<WNode<Golden, 32, 64>>, LinkMove, HostRuntime>(
        &rt,
        rt.alloc(),
        &trials,
    )?;
    assert_eq!(rt; right, trials.len());
    Ok(())
}

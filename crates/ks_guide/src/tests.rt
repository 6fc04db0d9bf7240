//! What a guide guesses after notes, and how fine its blocks become.
ghost use Rattle.std.specs.Prelude.{◌≤◌};

use crate::fits_threads;
use crate::guide::Guide;
use std::test::Fail;
use std::thread::join_mut;

/// Notes `count` leaves of `places` places each, one after another from 0 on, with their numbers for nodes.
fn note_row(guide: &mut Guide, places: u64, count: u32)
    requires { 1 ≤ places }
{
    for node in 0..count {
        let low = (node as u64).wrapping_mul(places);
        let last = low.saturating_add(places - 1);
        guide.note(low, low, last, node);
    }
}

/// How many of these leaves the guide has.
fn known_in_row(guide: &Guide, places: u64, count: u32) -> u32 {
    let mut known = 0u32;
    for node in 0..count {
        let low = (node as u64).wrapping_mul(places);
        if guide.guess(low) == Some(node) {
            known = known.saturating_add(1);
        }
    }
    known
}

#[test]
fn a_leaf_is_guessed_once_it_is_noted(rt: HostRuntime) -> Result<(), Fail> {
    let mut guide = Guide::start(rt.alloc(), 16, 4)?;
    assert!(rt; guide.guess(12).is_none());
    guide.note(12, 8, 15, 3);
    assert_eq!(rt; guide.guess(12), Some(3));
    assert!(rt; guide.guess(16).is_none());
    assert!(rt; guide.guess(u64::MAX).is_none());
    Ok(())
}

#[test]
fn a_leaf_that_was_split_leads_to_both_halves(rt: HostRuntime) -> Result<(), Fail> {
    let mut guide = Guide::start(rt.alloc(), 16, 0)?;
    guide.note(12, 8, 15, 3);
    guide.note(12, 12, 15, 5);
    assert_eq!(rt; guide.guess(9), Some(3));
    assert_eq!(rt; guide.guess(12), Some(5));
    assert_eq!(rt; guide.guess(14), Some(5));
    guide.note(9, 8, 11, 3);
    assert_eq!(rt; guide.guess(9), Some(3));
    assert_eq!(rt; guide.guess(12), Some(5));
    Ok(())
}

#[test]
fn of_two_spans_the_one_that_begins_later_is_guessed(rt: HostRuntime) -> Result<(), Fail> {
    let mut guide = Guide::start(rt.alloc(), 16, 0)?;
    guide.note(50, 40, u64::MAX, 2);
    guide.note(10, 0, u64::MAX, 1);
    assert_eq!(rt; guide.guess(10), Some(1));
    assert_eq!(rt; guide.guess(60), Some(2));
    // unless a call of the place was decided at the other
    guide.note(60, 0, u64::MAX, 1);
    assert_eq!(rt; guide.guess(60), Some(1));
    Ok(())
}

#[test]
fn blocks_become_nearly_as_fine_as_dense_leaves(rt: HostRuntime) -> Result<(), Fail> {
    let mut guide = Guide::start(rt.alloc(), 256, 0)?;
    note_row(&mut guide, 16, 200);
    assert_eq!(rt; guide.leaves.shift, 5);
    note_row(&mut guide, 16, 200);
    assert!(rt; known_in_row(&guide, 16, 200) >= 190);
    // and coarser, after many notes of wide leaves
    note_row(&mut guide, 1048576, 4096);
    assert_eq!(rt; guide.leaves.shift, 6);
    Ok(())
}

#[test]
fn blocks_stay_coarse_over_leaves_that_are_spread(rt: HostRuntime) -> Result<(), Fail> {
    let mut guide = Guide::start(rt.alloc(), 64, 0)?;
    note_row(&mut guide, 576460752303423488, 32);
    note_row(&mut guide, 576460752303423488, 32);
    assert_eq!(rt; guide.leaves.shift, 60);
    assert!(rt; known_in_row(&guide, 576460752303423488, 32) >= 30);
    Ok(())
}

#[test]
fn a_branch_is_guessed_where_no_leaf_is_known(rt: HostRuntime) -> Result<(), Fail> {
    let mut guide = Guide::start(rt.alloc(), 16, 3)?;
    guide.note_branch(0, 99, 1);
    guide.note_branch(100, 199, 2);
    assert_eq!(rt; guide.guess(99), Some(1));
    assert_eq!(rt; guide.guess(100), Some(2));
    assert!(rt; guide.guess(200).is_none());
    guide.note(105, 104, 107, 9);
    assert_eq!(rt; guide.guess(105), Some(9));
    // a split of a branch, and one branch in place of both
    guide.note_branch(150, 199, 3);
    assert_eq!(rt; guide.guess(149), Some(2));
    assert_eq!(rt; guide.guess(150), Some(3));
    guide.note_branch(100, 199, 2);
    assert_eq!(rt; guide.guess(150), Some(2));
    Ok(())
}

#[test]
fn a_full_table_of_branches_forgets_one_beside_the_new(rt: HostRuntime) -> Result<(), Fail> {
    let mut guide = Guide::start(rt.alloc(), 16, 2)?;
    guide.note_branch(0, 99, 1);
    guide.note_branch(200, 299, 3);
    guide.note_branch(100, 199, 2);
    assert_eq!(rt; guide.guess(150), Some(2));
    assert!(rt; guide.guess(50).is_some() != guide.guess(250).is_some());
    let mut none = Guide::start(rt.alloc(), 16, 0)?;
    none.note_branch(0, 99, 1);
    assert!(rt; none.guess(50).is_none());
    Ok(())
}

/// A guide notes on another thread what it then guesses here.
#[test]
fn a_guide_may_go_to_another_thread(rt: HostRuntime) -> Result<(), Fail> {
    let mut guide = Guide::start(rt.alloc(), 16, 0)?;
    fits_threads(&guide);
    let (known, ()) = join_mut(
        &rt,
        &mut || {
            guide.note(12, 8, 15, 3);
            guide.guess(12)
        },
        &mut || (),
    );
    assert_eq!(rt; known, Some(3));
    assert_eq!(rt; guide.guess(12), Some(3));
    Ok(())
}

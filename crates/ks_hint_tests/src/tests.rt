//! Gets from hints, right and wrong: at which node each is decided, and which branch it passed last; and a put that is
//! refused as full.
ghost use Rattle.ks_shape.specs.Idle.{IsIdle};

use ks_arena::Pass;
use ks_bplus::BNode;
use ks_flow::{Link, Tree};
use ks_gate::NoGate;
use ks_giveup::GiveUp;
use ks_link::LinkMove;
use ks_linked::WithLink;
use ks_node::{Node, WithRange};
use ks_runs::{Run, each, every_hint, get_from, one_caller};
use ks_shape::{Above, Fill, Hinting, Shelf};
use std::sync::Wait;
use std::test::Fail;

/// A get from a hint, and where it is to be decided: at which node, whose range begins where, below which branch.
#[derive(Clone, Copy)]
struct Asked {
    hint: Option<u32>,
    place: u64,
    node: u32,
    low: u64,
    above: Option<u32>,
}

/// A get that is decided at its hint, or continues to the right from it: it passes no branch.
fn near(hint: u32, place: u64, node: u32, low: u64) -> Asked {
    Asked {
        hint: Some(hint),
        place,
        node,
        low,
        above: None,
    }
}

/// A get that continues from the root.
fn from_root(hint: Option<u32>, place: u64, node: u32, low: u64) -> Asked {
    Asked {
        hint,
        place,
        node,
        low,
        above: Some(0),
    }
}

fn node_of(above: Option<Above>) -> Option<u32> {
    match above {
        Some(above) => Some(above.node),
        None => None,
    }
}

/// Makes the gets, whose numbers begin with `first`. Returns whether each found the place itself, and was decided where it
/// is to be.
fn gets_from<T: Hinting<N, A>, N: Node, A: Shelf, R: Wait>(
    rt: &R,
    arena: &A,
    pass: &mut Pass<N, T::Rule>,
    first: u64,
    gets: &[Asked],
) -> bool
    requires pass { IsIdle (A.site arena.now) pass.old }
    ensures pass { IsIdle (A.site arena.now) pass.new }
{
    let mut right = true;
    for at in 0..gets.len() {
        let get = gets[at];
        let told = get_from::<T, N, A, R>(rt, arena, pass, get.hint, get.place);
        let found = told.found == Some(u128::from(get.place));
        let there = told.node == get.node
            && told.low == get.low
            && node_of(told.above) == get.above;
        right = right && found && there && told.number == first.wrapping_add(at as u64);
    }
    right
}

/// Whether a put from the hint is refused as full, with this number.
fn is_full_from<T: Hinting<N, A>, N: Node, A: Shelf, R: Wait>(
    rt: &R,
    arena: &A,
    pass: &mut Pass<N, T::Rule>,
    hint: u32,
    place: u64,
    number: u64,
) -> bool
    requires pass { IsIdle (A.site arena.now) pass.old }
    ensures pass { IsIdle (A.site arena.now) pass.new }
{
    match T::fill_from(rt, arena, pass, &NoGate, Some(hint), place, Fill::Put(1)) {
        Ok(_) => false,
        Err(full) => full.number == number,
    }
}

#[test]
fn a_search_by_giving_up_begins_at_its_hint_or_at_the_root(rt: HostRuntime) -> Result<(), Fail> {
    let (arena, mut pass) = one_caller::<WithRange<BNode>, Tree>(rt.alloc(), 64)?;
    assert!(rt; each::<GiveUp, _, _, _>(&rt, &arena, &mut pass, Run::puts(0, 17, 1)));
    let gets = [
        near(2, 16, 2, 8),
        from_root(Some(1), 16, 2, 8),
        from_root(Some(9), 16, 2, 8),
        from_root(Some(70), 16, 2, 8),
        from_root(None, 16, 2, 8),
        from_root(Some(0), 3, 1, 0),
    ];
    assert!(rt; gets_from::<GiveUp, _, _, _>(&rt, &arena, &mut pass, 17, &gets));
    assert!(rt; every_hint::<GiveUp, _, _, _>(&rt, &arena, &mut pass, 23, 3));
    Ok(())
}

#[test]
fn a_hinted_node_has_been_merged_away_and_used_again(rt: HostRuntime) -> Result<(), Fail> {
    let (arena, mut pass) = one_caller::<WithRange<BNode>, Tree>(rt.alloc(), 64)?;
    assert!(rt; each::<GiveUp, _, _, _>(&rt, &arena, &mut pass, Run::puts(0, 17, 1)));
    assert!(rt; each::<GiveUp, _, _, _>(&rt, &arena, &mut pass, Run::dels(0, 1, 1).from(17)));
    let merged = [near(2, 16, 0, 0)];
    assert!(rt; gets_from::<GiveUp, _, _, _>(&rt, &arena, &mut pass, 18, &merged));
    assert!(rt; each::<GiveUp, _, _, _>(&rt, &arena, &mut pass, Run::puts(100, 1, 1).from(19)));
    let again = [from_root(Some(2), 8, 1, 0), near(2, 9, 2, 9)];
    assert!(rt; gets_from::<GiveUp, _, _, _>(&rt, &arena, &mut pass, 20, &again));
    Ok(())
}

#[test]
fn a_put_at_a_full_hinted_node_is_full_if_no_other_is_free(rt: HostRuntime) -> Result<(), Fail> {
    let (arena, mut pass) = one_caller::<WithRange<BNode>, Tree>(rt.alloc(), 4)?;
    assert!(rt; each::<GiveUp, _, _, _>(&rt, &arena, &mut pass, Run::puts(0, 32, 1)));
    assert!(rt; is_full_from::<GiveUp, _, _, _>(&rt, &arena, &mut pass, 3, 32, 32));
    Ok(())
}

#[test]
fn a_search_along_links_moves_right_twice_from_its_hint(rt: HostRuntime) -> Result<(), Fail> {
    let (arena, mut pass) = one_caller::<WithLink<BNode>, Link>(rt.alloc(), 64)?;
    assert!(rt; each::<LinkMove, _, _, _>(&rt, &arena, &mut pass, Run::puts(0, 33, 1)));
    let gets = [
        near(1, 20, 3, 16),
        from_root(Some(1), 32, 4, 24),
        from_root(Some(4), 3, 1, 0),
        from_root(None, 20, 3, 16),
    ];
    assert!(rt; gets_from::<LinkMove, _, _, _>(&rt, &arena, &mut pass, 33, &gets));
    assert!(rt; every_hint::<LinkMove, _, _, _>(&rt, &arena, &mut pass, 37, 20));
    Ok(())
}

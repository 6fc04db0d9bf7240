//! Moves of values between keys: within one leaf, between two in both directions, to a full leaf, and where both keys have a
//! value.
ghost use Rattle.ks_dictionary.specs.Of.{IsIdlePassOf};

use ks_arena::{Arena, Pass};
use ks_bplus::BNode;
use ks_dictionary::Dictionary;
use ks_giveup::GiveUp;
use ks_node::{Node, WithRange};
use ks_shape::{MoveLeft, Moving, Numbered, Ruled, Template};
use std::sync::Wait;
use std::test::Fail;

type Leaves = Dictionary<WithRange<BNode>, GiveUp>;

/// What a move returns.
type Moved = Result<Numbered, MoveLeft>;

/// The move with this number, which found this value.
fn found(number: u64, found: Option<u128>) -> Moved {
    Ok(Numbered { number, found })
}

/// Puts `many` keys, each `step` after the one before it, with themselves as their values.
fn fill<N: Node, T: Ruled + Template<N, Arena<N, <T as Ruled>::Rule>>, R: Wait>(
    rt: &R,
    map: &Dictionary<N, T>,
    pass: &mut Pass<N, T::Rule>,
    many: u64,
    step: u64,
)
    requires { IsIdlePassOf map.now pass.old }
    ensures { IsIdlePassOf map.now pass.new }
{
    for n in 0..many {
        let key = n.wrapping_mul(step);
        let _answer = map.put(rt, pass, key, key as u128);
    }
}

/// Whether a value moves from the higher leaf to the lower one, and back.
fn moves_between<N: Node, T: Ruled + Moving<N, Arena<N, <T as Ruled>::Rule>>, R: Wait>(
    rt: &R,
    map: &Dictionary<N, T>,
    pass: &mut Pass<N, T::Rule>,
) -> bool
    requires { IsIdlePassOf map.now pass.old }
    ensures { IsIdlePassOf map.now pass.new }
{
    let down = map.move_value(rt, pass, 20, 3);
    let up = map.move_value(rt, pass, 3, 21);
    down == found(17, Some(20)) && up == found(18, Some(20))
}

/// Whether three moves within the lower leaf return the value, nothing, and that both keys have one.
fn moves_within<N: Node, T: Ruled + Moving<N, Arena<N, <T as Ruled>::Rule>>, R: Wait>(
    rt: &R,
    map: &Dictionary<N, T>,
    pass: &mut Pass<N, T::Rule>,
) -> bool
    requires { IsIdlePassOf map.now pass.old }
{
    let first = map.move_value(rt, pass, 2, 5);
    let again = map.move_value(rt, pass, 2, 7);
    let both = map.move_value(rt, pass, 4, 5);
    first == found(19, Some(2))
        && again == found(20, None)
        && both == Err(MoveLeft::Kept { number: 21 })
}

/// Whether a move to a full leaf is full while no node is free, one within that leaf is not, and one between two keys that
/// have values keeps both.
fn moves_when_full<N: Node, T: Ruled + Moving<N, Arena<N, <T as Ruled>::Rule>>, R: Wait>(
    rt: &R,
    map: &Dictionary<N, T>,
    pass: &mut Pass<N, T::Rule>,
) -> bool
    requires { IsIdlePassOf map.now pass.old }
{
    let full = map.move_value(rt, pass, 0, 32);
    let within = map.move_value(rt, pass, 16, 32);
    let both = map.move_value(rt, pass, 0, 8);
    full == Err(MoveLeft::Full { number: 32 })
        && within == found(33, Some(16))
        && both == Err(MoveLeft::Kept { number: 34 })
}

#[test]
fn a_value_moves_between_two_leaves_and_within_one(rt: HostRuntime) -> Result<(), Fail> {
    let (map, mut passes) = Leaves::start(rt.alloc(), 64, 1)?;
    fill(&rt, &map, &mut passes[0], 17, 2);
    assert!(rt; moves_between(&rt, &map, &mut passes[0]));
    assert!(rt; moves_within(&rt, &map, &mut passes[0]));
    Ok(())
}

#[test]
fn a_move_to_a_full_leaf_is_full_while_no_node_is_free(rt: HostRuntime) -> Result<(), Fail> {
    let (map, mut passes) = Leaves::start(rt.alloc(), 4, 1)?;
    fill(&rt, &map, &mut passes[0], 32, 1);
    assert!(rt; moves_when_full(&rt, &map, &mut passes[0]));
    Ok(())
}

#[test]
fn a_move_makes_room_while_a_node_is_free(rt: HostRuntime) -> Result<(), Fail> {
    let (map, mut passes) = Leaves::start(rt.alloc(), 64, 1)?;
    fill(&rt, &map, &mut passes[0], 32, 1);
    let moved = map.move_value(&rt, &mut passes[0], 0, 32);
    assert!(rt; moved == found(32, Some(0)));
    Ok(())
}

//! A pass that is dropped keeps nobody, and a dictionary that is not closed can be dropped.
ghost use Rattle.ks_arena.specs.Of.{SameCaller};
ghost use Rattle.ks_dictionary.specs.Of.{IsIdlePassOf};

use ks_arena::{Arena, Pass};
use ks_coupling::Coupling;
use ks_crews::two_callers;
use ks_dictionary::Dictionary;
use ks_list::ListNode;
use ks_node::Node;
use ks_shape::{Ruled, Template};
use std::alloc::{AllocError, Global};
use std::sync::Wait;
use std::test::Fail;

/// Puts the keys below `many`, each as its own value. Returns whether these are the first calls, and no key had a value.
pub(crate) fn puts_below<N: Node, T: Ruled + Template<N, Arena<N, <T as Ruled>::Rule>>, R: Wait>(
    rt: &R,
    map: &Dictionary<N, T>,
    pass: &mut Pass<N, T::Rule>,
    many: u64,
) -> bool
    requires { IsIdlePassOf map.now pass.old }
    ensures pass { IsIdlePassOf map.now pass.new }
    ensures caller { SameCaller pass.old pass.new }
{
    let mut right = true;
    for key in 0..many {
        right = match map.put(rt, pass, key, u128::from(key)) {
            Ok(put) => right && put.number == key && put.found.is_none(),
            Err(_) => false,
        };
    }
    right
}

/// Drops the pass of caller 1 when the list has two nodes, and then all. Returns whether the calls of caller 0 return what they
/// should.
fn drops<N: Node, T: Ruled + Template<N, Arena<N, <T as Ruled>::Rule>>, R: Wait>(
    rt: &R,
    alloc: Global,
) -> Result<bool, AllocError> {
    let (map, mut one, two) = two_callers::<N, T>(alloc, 4)?;
    let filled = puts_below(rt, &map, &mut one, 9);
    drop(two);
    let got = map.get(rt, &mut one, 8);
    drop(one);
    drop(map);
    Ok(filled && got.number == 9 && got.found == Some(8))
}

#[test]
fn a_pass_that_is_dropped_keeps_nobody(rt: HostRuntime) -> Result<(), Fail> {
    assert!(rt; drops::<ListNode, Coupling, HostRuntime>(&rt, rt.alloc())?);
    Ok(())
}

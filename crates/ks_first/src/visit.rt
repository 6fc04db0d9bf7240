//! A function of one's own.
ghost use Rattle.guttertide.specs.Words.{IsIdlePassOf};

use guttertide::{BTree, BTreePass};
use std::sync::Wait;

/// Returns the value of the key 5, if it has one.
pub fn visit<R: Wait>(rt: &R, map: &BTree, pass: &mut BTreePass) -> Option<u128>
    requires { IsIdlePassOf map.now pass.old }
    ensures { IsIdlePassOf map.now pass.new }
{
    map.get(rt, pass, 5).found
}

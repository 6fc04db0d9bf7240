//! The calls of a script, made by one caller.
ghost use Rattle.std.specs.Prelude.{◌≤◌, IfOk};
ghost use Rattle.guttertide.specs.Words.{IsIdlePassOf, SameCaller};
ghost use Rattle.ks_draw.specs.Drawn.{IsDrawn};

use guttertide::{Arena, Dictionary, Node, PassOf, Ruled, Template};
use ks_history::Op;
use ks_keysets::Graph;
use ks_lines::Line;
use ks_script::{Calls, Script};
use std::alloc::{AllocError, Global};
use std::sync::Wait;

/// Makes the calls of the script on a new dictionary with this number of nodes, and returns the graph that they leave.
///
/// # Errors
///
/// Only lack of memory.
pub(crate) fn graph_left<N: Node, T: Ruled + Template<N, Arena<N, <T as Ruled>::Rule>>, R: Wait>(
    rt: &R,
    alloc: Global,
    nodes: u32,
    script: &Script,
) -> Result<Graph, AllocError>
    requires nodes { (4 ≤ nodes) × (nodes ≤ 1048576) }
    ensures { IfOk result (IsDrawn nodes) }
{
    let (map, mut passes) = Dictionary::<N, T>::start(alloc, nodes, 1)?;
    call_each(rt, &map, &mut passes[0], script);
    map.passes_law();
    let closed = map.close(passes);
    closed.history_law();
    let graph = closed.graph(alloc)?;
    Ok(graph)
}

/// Makes the calls of each caller of the script.
fn call_each<N: Node, T: Ruled + Template<N, Arena<N, <T as Ruled>::Rule>>, R: Wait>(
    rt: &R,
    map: &Dictionary<N, T>,
    pass: &mut PassOf<N, T>,
    script: &Script,
)
    requires { IsIdlePassOf map.now pass.old }
    ensures idle { IsIdlePassOf map.now pass.new }
    ensures same { SameCaller pass.old pass.new }
{
    for calls in &script.callers {
        call_all(rt, map, pass, calls);
    }
}

/// Makes the calls of one caller of the script.
fn call_all<N: Node, T: Ruled + Template<N, Arena<N, <T as Ruled>::Rule>>, R: Wait>(
    rt: &R,
    map: &Dictionary<N, T>,
    pass: &mut PassOf<N, T>,
    calls: &Calls,
)
    requires { IsIdlePassOf map.now pass.old }
    ensures idle { IsIdlePassOf map.now pass.new }
    ensures same { SameCaller pass.old pass.new }
{
    for at in 0..calls.len() {
        if let Line::Call(op) = calls.get(at) {
            call(rt, map, pass, op);
        }
    }
}

/// Makes a call, if it is one at one key.
fn call<N: Node, T: Ruled + Template<N, Arena<N, <T as Ruled>::Rule>>, R: Wait>(
    rt: &R,
    map: &Dictionary<N, T>,
    pass: &mut PassOf<N, T>,
    op: Op,
)
    requires { IsIdlePassOf map.now pass.old }
    ensures idle { IsIdlePassOf map.now pass.new }
    ensures same { SameCaller pass.old pass.new }
{
    match op {
        Op::Put(key, value) => {
            let _full = map.put(rt, pass, key, value);
        }
        Op::Add(key, value) => {
            let _full = map.add(rt, pass, key, value);
        }
        Op::Swap(key, old, new) => {
            map.swap(rt, pass, key, old, new);
        }
        Op::Del(key) => {
            map.del(rt, pass, key);
        }
        Op::Get(_) | Op::Part(_, _) | Op::Move(_, _) => {}
    }
}

//! One caller.
#![tactic(auto)]

mod visit;

use guttertide::BTree;

fn main(rt: HostRuntime) -> anyhow::Result<()> {
    let (map, mut passes) = BTree::start(rt.alloc(), 64, 1)?;
    let pass = &mut passes[0];
    match map.put(&rt, pass, 5, 50) {
        Ok(done) => println!(rt; "call {}", done.number)?,
        Err(full) => println!(rt; "call {}: no room", full.number)?,
    }
    let answer = map.get(&rt, pass, 5);
    println!(rt; "call {} finds {:?}", answer.number, answer.found)?;
    Ok(())
}

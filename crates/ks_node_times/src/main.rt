//! One call of a node, made many times over: for `bench/nodes`, which counts what it takes.
//!
//! The words are a type of nodes (`list`, `bplus`, `hash` or `bst`), a call, and how often it is made. What is printed is a
//! sum of the results of the calls, so that none of them is left out when the program is built.
#![tactic(auto)]

mod asked;
mod calls;

use calls::repeat;
use ks_bplus::BNode;
use ks_bst::TNode;
use ks_hash::HNode;
use ks_list::ListNode;
use ks_node::WithRange;
use std::alloc::{AllocError, Global};
use std::{env, io};

/// The words after the program's name.
fn words(rt: &HostRuntime) -> io::Result<Vec<String>> {
    let words = env::args(rt)?.skip(1).collect(rt.alloc())?;
    Ok(words)
}

/// Makes the call on a node of the type, and returns the sum; `None` if there is no such type or call.
fn sum_of(alloc: Global, nodes: &str, call: &str, times: u64) -> Result<Option<u64>, AllocError> {
    match nodes {
        "list" => repeat::<WithRange<ListNode>>(alloc, call, times),
        "bplus" => repeat::<WithRange<BNode>>(alloc, call, times),
        "hash" => repeat::<WithRange<HNode>>(alloc, call, times),
        "bst" => repeat::<WithRange<TNode>>(alloc, call, times),
        _ => Ok(None),
    }
}

fn main(rt: HostRuntime) -> anyhow::Result<()> {
    let words = words(&rt)?;
    if words.len() == 3 {
        let times = words[2].as_str().parse::<u64>().unwrap_or(0);
        if let Some(sum) = sum_of(rt.alloc(), words[0].as_str(), words[1].as_str(), times)? {
            println!(rt; "{sum}")?;
            return Ok(());
        }
    }
    anyhow::bail!("usage: ks_node_times NODES CALL TIMES")
}

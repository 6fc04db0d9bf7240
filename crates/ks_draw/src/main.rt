//! Draws the graph of nodes that the calls of a script leave, as DOT, with the keyset of each node: `tools/draw` makes a
//! picture of it.
//!
//! The words are a structure (`list`, `bplus`, `blink`, `hash` or `bst`) and how many nodes it has. The script is read from
//! standard input. One caller makes its calls in their order, those of the script's first caller first; scans and moves
//! change no node's edges, and are left out.
#![tactic(auto)]

mod build;
mod dot;

ghost use Rattle.std.specs.Prelude.{◌≤◌, IfOk, IfSome, OnSome};
ghost use Rattle.ks_draw.specs.Drawn.{IsDrawn};

use build::graph_left;
use dot::{Places, draw};
use guttertide::{BNode, Boxed, Coupling, HNode, LinkMove, ListNode, TNode, WithLink};
use ks_keysets::Graph;
use ks_script::{Script, read_script};
use std::alloc::{AllocError, Global};
use std::io::Read;
use std::sync::Wait;
use std::{env, io};

/// What is drawn.
#[derive(Clone, Copy, Debug, PartialEq, Eq)]
enum Structure {
    List,
    BPlus,
    BLink,
    Hash,
    BinaryTree,
}

impl Structure {
    fn named(word: &str) -> Option<Structure> {
        match word {
            "list" => Some(Structure::List),
            "bplus" => Some(Structure::BPlus),
            "blink" => Some(Structure::BLink),
            "hash" => Some(Structure::Hash),
            "bst" => Some(Structure::BinaryTree),
            _ => None,
        }
    }

    /// What a place of its nodes is.
    fn places(self) -> Places {
        match self {
            Structure::Hash => Places::Hashed,
            _ => Places::Keys,
        }
    }
}

/// The graph that the calls of the script leave in a structure with this number of nodes.
///
/// # Errors
///
/// Only lack of memory.
fn graph_of<R: Wait>(
    rt: &R,
    alloc: Global,
    structure: Structure,
    nodes: u32,
    script: &Script,
) -> Result<Graph, AllocError>
    requires nodes { (4 ≤ nodes) × (nodes ≤ 1048576) }
    ensures { IfOk result (IsDrawn nodes) }
{
    match structure {
        Structure::List => graph_left::<ListNode, Coupling, R>(rt, alloc, nodes, script),
        Structure::BPlus => graph_left::<Boxed<BNode>, Coupling, R>(rt, alloc, nodes, script),
        Structure::BLink => graph_left::<WithLink<BNode>, LinkMove, R>(rt, alloc, nodes, script),
        Structure::Hash => graph_left::<Boxed<HNode>, Coupling, R>(rt, alloc, nodes, script),
        Structure::BinaryTree => graph_left::<Boxed<TNode>, Coupling, R>(rt, alloc, nodes, script),
    }
}

/// How many nodes a word says, if a structure can have as many.
fn nodes_in(word: &str) -> Option<u32>
    ensures { IfSome result (λ nodes. (4 ≤ nodes) × (nodes ≤ 1048576)) }
{
    let nodes = word.parse::<u32>().ok()?;
    if (4..=1_048_576).contains(&nodes) {
        Some(nodes)
    } else {
        None
    }
}

/// The words after the program's name.
fn words(rt: &HostRuntime) -> io::Result<Vec<String>> {
    let words = env::args(rt)?.skip(1).collect(rt.alloc())?;
    Ok(words)
}

/// What the words ask for.
fn asked(words: &[String]) -> Option<(Structure, u32)>
    ensures { IfSome result (λ r. (4 ≤ r.1) × (r.1 ≤ 1048576)) }
{
    if words.len() != 2 {
        return None;
    }
    let structure = Structure::named(words[0].as_str())?;
    let nodes = nodes_in(words[1].as_str())?;
    Some((structure, nodes))
}

fn main(rt: HostRuntime) -> anyhow::Result<()> {
    let words = words(&rt)?;
    let Some((structure, nodes)) = asked(&words) else {
        anyhow::bail!(
            "usage: ks_draw list|bplus|blink|hash|bst NODES, and a script on standard input"
        )
    };
    let mut text = Vec::new(rt.alloc());
    rt.stdin().read_to_end(&mut text)?;
    let Ok(script) = read_script(rt.alloc(), &text) else {
        anyhow::bail!("what is on standard input is no script")
    };
    let graph = graph_of(&rt, rt.alloc(), structure, nodes, &script)?;
    draw(&rt, &graph, structure.places())?;
    Ok(())
}

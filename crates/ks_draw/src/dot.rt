//! A graph of nodes as DOT: a box for each live node, with its pairs and its keyset, and an arrow for each edge, with its
//! span.
ghost use Rattle.std.specs.Prelude.{◌≤◌, length};
ghost use Rattle.ks_keysets.specs.Keyset.{AreApart};
ghost use Rattle.ks_keysets.specs.Listed.{graph_of};

use ks_keysets::{Edge, Graph, NodeRecord, NodeState, Pair, Span, keyset_spans};
use ks_places::{Golden, Placing};
use std::io;

/// What the places of a structure's nodes are.
#[derive(Clone, Copy, Debug, PartialEq, Eq)]
pub(crate) enum Places {
    /// A place is the key itself.
    Keys,
    /// A place is that of a key by the golden ratio.
    Hashed,
}

impl Places {
    fn key_of(self, place: u64) -> u64 {
        match self {
            Places::Keys => place,
            Places::Hashed => Golden::key_of(place),
        }
    }
}

/// Prints the graph. A branch, at which no search ends, is drawn with rounded corners.
///
/// # Errors
///
/// Lack of memory, and what standard output returns.
pub(crate) fn draw(rt: &HostRuntime, graph: &Graph, places: Places) -> io::Result<()>
    requires apart { AreApart (graph_of graph.now) }
    requires count { length graph.now ≤ 1048576 }
{
    println!(rt; "digraph nodes {{")?;
    println!(rt; "  node [shape=box, fontname=\"monospace\"];")?;
    println!(rt; "  edge [fontname=\"monospace\", fontsize=11];")?;
    for number in 0..graph.nodes.len() as u32 {
        if let Some(NodeState::Live(record)) = graph.nodes.get(number as usize) {
            let keyset = keyset_spans(rt.alloc(), graph, number)?;
            draw_node(rt, number, record, &keyset, places)?;
            for edge in &record.edges {
                draw_edge(rt, number, edge)?;
            }
        }
    }
    println!(rt; "}}")
}

/// Prints the box of a node: its number, its pairs, and its keyset.
fn draw_node(
    rt: &HostRuntime,
    number: u32,
    record: &NodeRecord,
    keyset: &[Span],
    places: Places,
) -> io::Result<()> {
    let style = if keyset.is_empty() {
        ", style=rounded"
    } else {
        ""
    };
    print!(rt; "  n{number} [label=\"node {number}")?;
    for pair in &record.pairs {
        draw_pair(rt, pair, places)?;
    }
    print!(rt; "\\nkeyset")?;
    if keyset.is_empty() {
        print!(rt; ": none")?;
    }
    for span in keyset {
        print!(rt; "\\n")?;
        draw_span(rt, span)?;
    }
    println!(rt; "\"{style}];")
}

fn draw_pair(rt: &HostRuntime, pair: &Pair, places: Places) -> io::Result<()> {
    let key = places.key_of(pair.place);
    match places {
        Places::Keys => print!(rt; "\\n{key}: {}", pair.value),
        Places::Hashed => print!(rt; "\\n{key}: {} at {}", pair.value, pair.place),
    }
}

/// Prints an edge, with the places that it carries.
fn draw_edge(rt: &HostRuntime, from: u32, edge: &Edge) -> io::Result<()> {
    print!(rt; "  n{from} -> n{} [label=\"", edge.node)?;
    draw_span(rt, &edge.span)?;
    println!(rt; "\"];")
}

/// Prints a span, with `end` for the last place of all.
fn draw_span(rt: &HostRuntime, span: &Span) -> io::Result<()> {
    if span.last == u64::MAX {
        print!(rt; "{} .. end", span.low)
    } else {
        print!(rt; "{} .. {}", span.low, span.last)
    }
}

//! A node beside its plain twin: each step is made on both, and then the two are compared.

ghost use Rattle.std.specs.Prelude.{◌<◌};

use crate::asked;
use crate::plain::{COUNT, Plain, Told};
use ks_node::{Linked, Next, Node, Ranged, Unlinked};
use std::alloc::Global;
use std::process::Abort;

/// A node and what it is to be.
#[derive(Drop)]
pub struct Trial<N: Drop> {
    pub node: N,
    pub plain: Plain,
}

/// Two nodes, and what they are to be.
fn both<N: Drop>(nodes: (N, N), plains: (Plain, Plain)) -> (Trial<N>, Trial<N>) {
    let left = Trial {
        node: nodes.0,
        plain: plains.0,
    };
    let right = Trial {
        node: nodes.1,
        plain: plains.1,
    };
    (left, right)
}

/// What a search for a place finds.
fn told<N: Node>(node: &N, place: u64) -> Told {
    match node.next(place) {
        Next::Go(node) => Told::Lead(node),
        Next::Here => match node.get(place) {
            Some(value) => Told::Value(value),
            None => Told::Nothing,
        },
    }
}

/// Compares the pairs of the record.
fn has_pairs<N: Node>(rt: &impl Abort, node: &N, plain: &Plain) {
    let mut held = 0u32;
    for i in 0..COUNT {
        if let Some(pair) = plain.pair(i) {
            assert!(rt; held < node.pairs_held());
            assert!(rt; node.pair_at(held) == pair);
            held += 1;
        }
    }
    assert!(rt; held == node.pairs_held());
}

/// Compares the edges of the record.
fn has_edges<N: Node>(rt: &impl Abort, node: &N, plain: &Plain) {
    let mut held = 0u32;
    for i in 0..COUNT {
        if let Some(edge) = plain.edge(i) {
            assert!(rt; held < node.edges_held());
            assert!(rt; node.edge_at(held) == edge);
            held += 1;
        }
    }
    assert!(rt; held == node.edges_held());
}

impl<N: Ranged> Trial<N> {
    pub fn blank(rt: &impl Abort, alloc: Global, length: u64) -> Trial<N> {
        Trial {
            node: asked::blank(rt, alloc),
            plain: Plain::blank(length),
        }
    }

    /// Compares the range, the record, and what a search finds in each stretch.
    pub fn agrees(&self, rt: &impl Abort) {
        assert!(rt; self.node.range() == self.plain.range());
        for i in 0..COUNT {
            assert!(rt;
                told(&self.node, self.plain.first(i)) == self.plain.told[i],
                "stretch {i}"
            );
        }
        has_pairs(rt, &self.node, &self.plain);
        has_edges(rt, &self.node, &self.plain);
    }

    /// Puts a value into every `step`-th stretch, from `begin` on to below `end`.
    pub fn fill(&mut self, rt: &impl Abort, begin: usize, end: usize, step: usize)
        requires { 0 < step }
    {
        for i in 0..COUNT {
            if begin <= i && i < end && (i - begin) % step == 0 {
                let place = self.plain.first(i);
                assert!(rt; asked::put(rt, &mut self.node, place, i as u128) == None);
                self.plain.set(i, Told::Value(i as u128));
            }
        }
        self.agrees(rt);
    }

    /// Deletes what is in them.
    pub fn thin(&mut self, rt: &impl Abort, begin: usize, end: usize, step: usize)
        requires { 0 < step }
    {
        for i in 0..COUNT {
            if begin <= i && i < end && (i - begin) % step == 0 {
                let place = self.plain.first(i);
                assert!(rt; asked::del(rt, &mut self.node, place) == Some(i as u128));
                self.plain.set(i, Told::Nothing);
            }
        }
        self.agrees(rt);
    }

    /// Adds an edge from a stretch on.
    pub fn adopt(&mut self, rt: &impl Abort, cut: usize, id: u32)
        requires { cut < 64 }
    {
        asked::adopt(rt, &mut self.node, self.plain.first(cut), id);
        self.plain.adopt(cut, id);
        self.agrees(rt);
    }

    /// Adds twelve edges, so that a branch of four of them has sixteen.
    pub fn adopt_dozen(&mut self, rt: &impl Abort) {
        for i in 1..16usize {
            if i % 4 != 0 {
                self.adopt(rt, 4 * i, 20 + i as u32);
            }
        }
    }

    /// Adds edges until a branch of those sixteen is full: one from each stretch on, if it has room for 64.
    pub fn adopt_rest(&mut self, rt: &impl Abort) {
        for i in 1..64usize {
            if i % 4 != 0 && !self.node.is_full() {
                self.adopt(rt, i, 100 + i as u32);
            }
        }
    }
}

impl<N: Unlinked + Ranged> Trial<N> {
    /// Splits at a stretch.
    pub fn split(&mut self, rt: &impl Abort, alloc: Global, cut: usize) -> Trial<N> {
        let right = Trial {
            node: asked::split_to(rt, alloc, &mut self.node),
            plain: self.plain.split(cut, None),
        };
        self.agrees(rt);
        right.agrees(rt);
        right
    }

    /// Becomes a branch over two nodes that meet at a stretch.
    pub fn grow(
        &mut self,
        rt: &impl Abort,
        alloc: Global,
        cut: usize,
        ids: [u32; 2],
    ) -> (Trial<N>, Trial<N>) {
        let nodes = asked::grow(rt, alloc, &mut self.node, ids);
        let (left, right) = both(nodes, self.plain.grow(cut, ids, false));
        self.agrees(rt);
        left.agrees(rt);
        right.agrees(rt);
        (left, right)
    }

    pub fn reach(&mut self, rt: &impl Abort, right: &Trial<N>) {
        asked::reach(rt, &mut self.node, &right.node);
        self.plain.end = right.plain.end;
        self.agrees(rt);
    }

    pub fn absorb(&mut self, rt: &impl Abort, right: &mut Trial<N>) {
        asked::absorb(rt, &mut self.node, &mut right.node);
        self.plain.absorb(&mut right.plain);
        self.agrees(rt);
        right.agrees(rt);
    }

    pub fn forget(&mut self, rt: &impl Abort, id: u32) {
        asked::forget(rt, &mut self.node, id);
        self.plain.forget(id);
        self.agrees(rt);
    }

    pub fn collapse(&mut self, rt: &impl Abort, child: &mut Trial<N>) {
        asked::collapse(rt, &mut self.node, &mut child.node);
        self.plain.collapse(&mut child.plain);
        self.agrees(rt);
        child.agrees(rt);
    }
}

impl<N: Linked> Trial<N> {
    /// Compares level and link as well.
    pub fn agrees_linked(&self, rt: &impl Abort) {
        self.agrees(rt);
        assert!(rt; self.node.level() == self.plain.level);
        assert!(rt; self.node.link() == self.plain.link);
    }

    /// Splits at a stretch and links to the right node.
    pub fn split_link(
        &mut self,
        rt: &impl Abort,
        alloc: Global,
        cut: usize,
        right_id: u32,
    ) -> Trial<N> {
        let right = Trial {
            node: asked::split_link(rt, alloc, &mut self.node, right_id),
            plain: self.plain.split(cut, Some(right_id)),
        };
        self.agrees_linked(rt);
        right.agrees_linked(rt);
        right
    }

    /// Becomes a branch over two nodes that meet at a stretch, one level higher.
    pub fn grow_link(
        &mut self,
        rt: &impl Abort,
        alloc: Global,
        cut: usize,
        ids: [u32; 2],
    ) -> (Trial<N>, Trial<N>) {
        let nodes = asked::grow_link(rt, alloc, &mut self.node, ids);
        let (left, right) = both(nodes, self.plain.grow(cut, ids, true));
        self.agrees_linked(rt);
        left.agrees_linked(rt);
        right.agrees_linked(rt);
        (left, right)
    }

    /// A search for what another node has is led to it, by the link.
    pub fn links_to(&self, rt: &impl Abort, right: &Trial<N>, id: u32) {
        assert!(rt; self.node.link() == Some(id));
        assert!(rt; told(&self.node, right.node.range().low) == Told::Lead(id));
    }
}

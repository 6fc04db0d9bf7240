//! `Children`: the children of one branch, in ascending order of the places at which they start.

ghost use Rattle.std.specs.Prelude.{◌≡◌, suc, ◌+◌, ◌<◌, ◌≤◌, ◌++◌, length, drop, slice_index_or};
ghost use Rattle.ks_keysets.specs.Record.{top};
ghost use Rattle.ks_node.specs.Keyed.{Ascends, IsRank};
ghost use Rattle.ks_node.specs.Body.{begins, first_node, go_to, led_to, sole, starts_below, starts_from};
ghost use Rattle.ks_node.specs.Effect.{first_from, without};
ghost use Rattle.ks_node.specs.Spans.{plain_edges};
ghost use Rattle.ks_wide.specs.Started.{Stands};
ghost use Rattle.ks_wide.specs.Wide.{two_children, with_child};

use crate::search::{guess, rank_from, scale_of};
use crate::slices::{append, item, only_of, position_of, set_item, split_off};
use arrayvec::ArrayVec;
use ks_keysets::{Edge, Span};
use ks_node::Next;
use std::marker::Model;

/// At most `F` children, the places at which they start apart from their numbers. A search reads the places only; the scale
/// guesses where among them a place is, and no clause depends on it.
#[derive(Drop)]
pub struct Children<const F: usize> {
    lows: ArrayVec<u64, F>,
    nodes: ArrayVec<u32, F>,
    scale: u64,
}

impl<const F: usize> Model for Children<F> {
    ghost use Rattle.std.specs.Prelude.{◌≡◌, ◌≤◌, length};
    ghost use Rattle.ks_wide.specs.Started.{Kids, started};

    ghost Value = { Kids };

    ghost view = { λ c. record { items = started c.lows.items c.nodes.items } };

    ghost invariant = { λ c. (length c.lows.items ≡ length c.nodes.items) × (length c.lows.items ≤ F) };
}

impl<const F: usize> Children<F> {
    /// Two children, the right one from a cut on.
    pub(crate) fn over(left: u32, cut: u64, right: u32) -> Self
        requires { 2 ≤ F }
        ensures { result.items ≡ two_children left cut right }
    {
        let mut lows = ArrayVec::new();
        lows.push(0);
        lows.push(cut);
        let mut nodes = ArrayVec::new();
        nodes.push(left);
        nodes.push(right);
        Children {
            lows,
            nodes,
            scale: 0,
        }
    }

    /// The number of children.
    pub(crate) fn len(&self) -> usize
        ensures value { result ≡ length self.now.items }
        ensures fits { result ≤ F }
    {
        self.lows.len()
    }

    /// The place at which a child starts.
    pub(crate) fn low(&self, at: usize) -> u64
        requires { at < length self.now.items }
        ensures { result ≡ (slice_index_or self.now.items at (record { low = 0; node = 0 })).low }
    {
        item(self.lows.as_slice(), at)
    }

    /// The number of a child.
    fn node(&self, at: usize) -> u32
        requires { at < length self.now.items }
        ensures { result ≡ (slice_index_or self.now.items at (record { low = 0; node = 0 })).node }
    {
        item(self.nodes.as_slice(), at)
    }

    /// How many children start below a place.
    fn rank(&self, place: u64) -> usize
        requires { Ascends (λ s. s.low) self.now.items }
        ensures { IsRank (λ s. s.low) place self.now.items result }
    {
        let lows = self.lows.as_slice();
        let from = guess(lows, self.scale, place);
        rank_from(lows, place, from)
    }

    /// Returns where the child that starts at a place is, or `Err` with where it would be.
    fn seek(&self, place: u64) -> Result<usize, usize>
        requires { Ascends (λ s. s.low) self.now.items }
        ensures { Stands place self.now.items result }
    {
        let at = self.rank(place);
        if at >= self.len() {
            return Err(at);
        }
        if self.low(at) == place {
            Ok(at)
        } else {
            Err(at)
        }
    }

    /// Where the search for a place continues.
    pub(crate) fn next(&self, place: u64) -> Next
        requires { Ascends (λ s. s.low) self.now.items }
        ensures { result ≡ go_to (led_to self.now.items place) }
    {
        match self.seek(place) {
            Ok(at) => Next::Go(self.node(at)),
            Err(at) => {
                if at == 0 {
                    Next::Here
                } else {
                    Next::Go(self.node(at - 1))
                }
            }
        }
    }

    /// Whether a child starts at the place.
    pub(crate) fn begins_at(&self, place: u64) -> bool
        requires { Ascends (λ s. s.low) self.now.items }
        ensures { result ≡ begins place self.now.items }
    {
        match self.seek(place) {
            Ok(_) => true,
            Err(_) => false,
        }
    }

    /// The child after the one to which the place leads.
    pub(crate) fn after(&self, place: u64) -> Option<u32>
        requires { Ascends (λ s. s.low) self.now.items }
        ensures { result ≡ first_node (starts_from (suc place) self.now.items) }
    {
        match self.seek(place) {
            Ok(at) => self.first_past(at),
            Err(at) => self.first_of(at),
        }
    }

    /// The first of the children from an index on.
    fn first_of(&self, at: usize) -> Option<u32>
        ensures { result ≡ first_node (drop at self.now.items) }
    {
        if at < self.len() {
            Some(self.node(at))
        } else {
            None
        }
    }

    /// The child after the one at an index.
    fn first_past(&self, at: usize) -> Option<u32>
        requires { at < length self.now.items }
        ensures { result ≡ first_node (drop (suc at) self.now.items) }
    {
        let count = self.len();
        if at + 1 < count {
            Some(self.node(at + 1))
        } else {
            None
        }
    }

    /// The child that all children are.
    pub(crate) fn only(&self) -> Option<u32>
        ensures { result ≡ sole self.now.items }
    {
        only_of(self.nodes.as_slice())
    }

    /// The edge to the child at an index.
    pub(crate) fn edge(&self, at: usize) -> Edge
        requires within { at < length self.now.items }
        requires ascend { Ascends (λ s. s.low) self.now.items }
        ensures { result ≡ slice_index_or (plain_edges 0 top self.now.items) at result }
    {
        let count = self.len();
        let low = self.low(at);
        let node = self.node(at);
        let last = if at + 1 == count {
            u64::MAX
        } else {
            self.low(at + 1) - 1
        };
        Edge {
            span: Span { low, last },
            node,
        }
    }

    /// Lets a new child begin at a place at which none begins.
    pub(crate) fn add(&mut self, low: u64, node: u32)
        requires ascend { Ascends (λ s. s.low) self.old.items }
        requires room { length self.old.items < F }
        ensures items { self.new.items ≡ with_child low node self.old.items }
        ensures fits { length self.new.items ≤ F }
    {
        let at = self.rank(low);
        self.lows.insert(at, low);
        self.nodes.insert(at, node);
        self.scale = scale_of(self.lows.as_slice());
    }

    /// Takes away the first child that is `node`.
    pub(crate) fn forget(&mut self, node: u32)
        ensures { self.new.items ≡ without node self.old.items }
    {
        match position_of(self.nodes.as_slice(), node) {
            Some(at) => {
                self.lows.remove(at);
                self.nodes.remove(at);
                self.scale = scale_of(self.lows.as_slice());
            }
            None => {}
        }
    }

    /// Lets the first child begin at `low`.
    fn reach_down(&mut self, low: u64)
        ensures { self.new.items ≡ first_from low self.old.items }
    {
        if !self.lows.is_empty() {
            set_item(self.lows.as_mut_slice(), 0, low);
            self.scale = scale_of(self.lows.as_slice());
        }
    }

    /// Takes away the children from a cut on, and returns them, the first from place 0 on.
    pub(crate) fn upper(&mut self, cut: u64) -> Self
        requires { Ascends (λ s. s.low) self.old.items }
        ensures left { self.new.items ≡ starts_below cut self.old.items }
        ensures right { result.items ≡ first_from 0 (starts_from cut self.old.items) }
    {
        let mut upper = self.split_at(cut);
        upper.reach_down(0);
        upper
    }

    /// Takes away the children from a cut on, and returns them.
    fn split_at(&mut self, cut: u64) -> Self
        requires { Ascends (λ s. s.low) self.old.items }
        ensures left { self.new.items ≡ starts_below cut self.old.items }
        ensures right { result.items ≡ starts_from cut self.old.items }
    {
        let at = self.rank(cut);
        let lows = split_off(&mut self.lows, at);
        let nodes = split_off(&mut self.nodes, at);
        self.scale = scale_of(self.lows.as_slice());
        let scale = scale_of(lows.as_slice());
        Children { lows, nodes, scale }
    }

    /// Puts the children of another branch behind these, the first of them from the seam on.
    pub(crate) fn append(&mut self, right: &mut Self, seam: u64)
        requires { length self.old.items + length right.old.items ≤ F }
        ensures left { self.new.items ≡ self.old.items ++ first_from seam right.old.items }
        ensures fits { length self.new.items ≤ F }
    {
        right.reach_down(seam);
        self.take_in(right);
    }

    /// Puts the children of another branch behind these.
    fn take_in(&mut self, right: &Self)
        requires { length self.old.items + length right.now.items ≤ F }
        ensures left { self.new.items ≡ self.old.items ++ right.now.items }
        ensures fits { length self.new.items ≤ F }
    {
        append(&mut self.lows, &right.lows);
        append(&mut self.nodes, &right.nodes);
        self.scale = scale_of(self.lows.as_slice());
    }
}

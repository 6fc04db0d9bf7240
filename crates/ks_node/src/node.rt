//! What every node type offers: a search, its pairs and edges, and where it may be cut.
//!
//! A body means edges by where they start, pairs, and a frame; `body` says which. Each call's clause is a function over
//! that meaning, so code that is generic over nodes needs no more of them. What a type chooses for itself (its
//! capacities, its cuts, which cuts it can adopt) are ghost members over what a body holds, and the laws bind them.

ghost use Rattle.std.specs.Prelude.{◌≡◌, ℕ, ◌<◌, Bool, Option, IsTrue, IfOk, true, false, length, slice_index_or, is_some, Some, All, cond};
ghost use Rattle.std.specs.Option.{ForSome};
ghost use Rattle.ks_keysets.specs.declared.Span.{Span};
ghost use Rattle.ks_keysets.specs.declared.Kind.{Kind};
ghost use Rattle.ks_keysets.specs.Layout.{Layout, room};
ghost use Rattle.ks_node.specs.Body.{Body, Content, content_of, is_branch_kind, is_branch, all_places, blank_body, next_at, value_at, only_child_of, chained_of, right_child};
ghost use Rattle.ks_node.specs.Edges.{edges_of};
ghost use Rattle.ks_node.specs.Room.{is_full, is_low, IsHeld, fit_together, may_grow, in_place};
ghost use Rattle.ks_node.specs.Effect.{pairs_put, pairs_del, with_pairs, adopted, split_left};
ghost use Rattle.ks_node.specs.Asks.{IsCut, IsBelowOwn, Suits, IsNoneOr, IsGoodCut, IsSpanOf, BranchesAdopt, HalvesHaveRoom};
ghost use Rattle.ks_node.specs.Sound.{Sound, Framed};

use crate::start::Next;
use ks_keysets::{Edge, Pair, Span};
use ks_places::Placing;
use std::alloc::{AllocError, Global};

/// A node of a search structure. Code that takes nodes to threads requires `Send` beside it: a method of a trait's `impl`
/// cannot yet pass on a bound that has `Send` or `Sync` above it.
pub trait Node: Drop {
    /// How keys become places here.
    type Places: Placing;

    /// The pairs at which a node that is no branch is full.
    const ROOM: u32;

    ghost ROOM: { ℕ };

    /// What a body means.
    ghost body: { Self → Body };

    /// Whether a body has a range.
    ghost ranged: { Bool };

    /// Whether a node is cut by its own range, whatever span is passed.
    ghost cuts_by_range: { Bool };

    /// The line of the table of layouts that says how much its nodes hold.
    ghost layout: { Layout };

    /// The kind of branch that a full node becomes.
    ghost branch_kind: { Kind };

    /// Whether an edge from a cut on can be added.
    ghost can_adopt_at: { Content → ℕ → Bool };

    /// Whether only branches have edges, and adopt each cut in their range at which no edge starts, unless they are full.
    ghost branches_adopt: { Bool };

    /// Whether neither half of a full node is full after a split at its cut.
    ghost halves_have_room: { Bool };

    /// Whether a full node can become a branch.
    ghost grows_at: { Content → Bool };

    /// Whether it can become one at a cut.
    ghost can_grow_at: { Content → ℕ → Bool };

    /// Where a full node is cut, given a span or none.
    ghost cut_at: { Content → Option Span → ℕ };

    /// The places that a branch leads to the child of a place, if the child is cut by them.
    ghost span_at: { Content → ℕ → Option Span };

    /// A node with no edge and no pair, of low 0. It fails only if memory runs out.
    fn blank(alloc: Global) -> Result<Self, AllocError>
        ensures { IfOk result (λ n. body n ≡ blank_body ranged) };

    /// Where the search for a place continues: at the node to which an edge carries it, or here.
    fn next(&self, place: u64) -> Next
        ensures { result ≡ next_at (body self.now) place };

    /// The value at a place.
    fn get(&self, place: u64) -> Option<u128>
        ensures { result ≡ value_at (body self.now).pairs place };

    /// Sets the value at a place that is below an edge of the node's own; returns the one that was there.
    fn put(&mut self, place: u64, value: u128) -> Option<u128>
        requires no_branch { is_branch (body self.old) ≡ false }
        requires below_own { IsBelowOwn (body self.old) place }
        requires room { value_at (body self.old).pairs place ≡ None → is_full layout (body self.old) ≡ false }
        ensures body { body self.new ≡ with_pairs (body self.old) (pairs_put place value (body self.old).pairs) }
        ensures answer { result ≡ value_at (body self.old).pairs place };

    /// Removes the pair at a place; returns the value that was there.
    fn del(&mut self, place: u64) -> Option<u128>
        requires { is_branch (body self.old) ≡ false }
        ensures body { body self.new ≡ with_pairs (body self.old) (pairs_del place (body self.old).pairs) }
        ensures answer { result ≡ value_at (body self.old).pairs place };

    /// Whether pairs or children are at capacity.
    fn is_full(&self) -> bool
        ensures { result ≡ is_full layout (body self.now) };

    /// Whether they are at most half of it.
    fn is_low(&self) -> bool
        ensures { result ≡ is_low layout (body self.now) };

    /// Whether the node has edges that cover all its places.
    fn is_branch(&self) -> bool
        ensures { result ≡ is_branch (body self.now) };

    /// How many pairs the record has.
    fn pairs_held(&self) -> u32
        ensures { result ≡ length (body self.now).pairs };

    /// The pair at a position of the record.
    fn pair_at(&self, n: u32) -> Pair
        requires { n < length (body self.now).pairs }
        ensures { result ≡ slice_index_or (body self.now).pairs n result };

    /// How many edges the record has.
    fn edges_held(&self) -> u32
        ensures { result ≡ length (edges_of (body self.now)) };

    /// The edge at a position of the record.
    fn edge_at(&self, n: u32) -> Edge
        requires { n < length (edges_of (body self.now)) }
        ensures { result ≡ slice_index_or (edges_of (body self.now)) n result };

    /// Whether the node can become a branch when it is full.
    fn grows(&self) -> bool
        ensures { result ≡ grows_at (content_of (body self.now)) };

    /// Whether it does so anywhere in the graph, and not only at the root.
    fn grows_in_place() -> bool
        ensures { result ≡ in_place layout };

    /// The child of a branch all of whose edges lead to it.
    fn only_child(&self) -> Option<u32>
        ensures { result ≡ only_child_of (body self.now) };

    /// The target of the edge that a node has though it is no branch.
    fn chained(&self) -> Option<u32>
        ensures { result ≡ chained_of (body self.now) };

    /// The places that go to the child of a place, if that child has to be cut by them.
    fn span_for(&self, place: u64) -> Option<Span>
        ensures is { result ≡ span_at (content_of (body self.now)) place }
        ensures edge { ForSome result (IsSpanOf (body self.now).starts place) };

    /// Where a full node is cut: what is from the cut on goes right. The span is the places that the node may hold, if they
    /// are known.
    fn cut(&self, span: Option<Span>) -> u64
        requires { IsTrue (is_full layout (body self.now)) }
        ensures is { result ≡ cut_at (content_of (body self.now)) (cond cuts_by_range (body self.now).range span) }
        ensures good { (whole : Span) → Suits (body self.now) whole → IsNoneOr span whole →
            IsGoodCut (body self.now) whole result }
        ensures grows { (whole : Span) → Suits (body self.now) whole → IsNoneOr span whole →
            IsTrue (grows_at (content_of (body self.now))) → (in_place layout ≡ false → span ≡ Some all_places) →
            IsTrue (can_grow_at (content_of (body self.now)) result) }
        ensures adopts { is_branch (body self.now) ≡ false →
            IsTrue (can_adopt_at (content_of (body self.now)) result) →
            IsTrue (can_adopt_at (content_of (split_left result (body self.now))) result) }
        ensures halves { IsTrue halves_have_room → HalvesHaveRoom layout result (body self.now) };

    /// Whether an edge from the cut on can be added.
    fn can_adopt(&self, cut: u64) -> bool
        ensures { result ≡ can_adopt_at (content_of (body self.now)) cut };

    /// Adds an edge to a node from the cut on: in a branch to the end of the edge that carried the cut.
    fn adopt(&mut self, cut: u64, id: u32)
        requires can { IsTrue (can_adopt_at (content_of (body self.old)) cut) }
        requires pairs { All (λ x. x.place < cut) (body self.old).pairs }
        requires cut { IsCut (body self.old) cut }
        ensures { body self.new ≡ adopted cut id (body self.old) };

    /// In a branch the target of the edge after the one that carries the place.
    fn right_of(&self, place: u64) -> Option<u32>
        ensures { result ≡ right_child (body self.now) place };

    /// Whether two nodes are of one kind that can be joined, and hold together no more than the capacity.
    fn fits(&self, right: &Self) -> bool
        ensures { result ≡ fit_together layout (body self.now) (body right.now) };

    /// Edges and pairs are in order.
    ghost sound: { (s : Self) → Sound (content_of (body s)) };

    /// A range begins at the low, and no edge is outside it.
    ghost framed: { (s : Self) → ForSome (body s).range (λ r. Framed r (body s)) };

    /// The load is within the capacity.
    ghost held: { (s : Self) → IsHeld layout (body s) };

    /// All bodies of the type have a range, or none.
    ghost has_range: { (s : Self) → is_some (body s).range ≡ ranged };

    /// How branches adopt, if `branches_adopt` promises it.
    ghost adopting: { IsTrue branches_adopt → (s : Self) → BranchesAdopt can_adopt_at layout (body s) };

    /// `ROOM` is the number of the table.
    ghost room_is: { room layout ≡ ROOM };

    /// Nothing grows if the table says so.
    ghost grows_as: { (c : Content) → IsTrue (grows_at c) → IsTrue (may_grow layout) };

    /// What a full node becomes is a branch.
    ghost becomes_branch: { IsTrue (is_branch_kind branch_kind) };
}

//! The library under one name: what a program over a dictionary uses, from the crates in which it is defined.
//!
//! A dictionary is a `Dictionary<N, T>` over nodes of type `N`, by a technique `T`. Each pairing of the two has a name
//! here, and so has a pass of each. All have the five calls and their `try_` forms, with the same clauses: a program that
//! makes no others changes its structure by changing the name. `specs/Words.antt` passes on the words of these clauses.
//!
//! The other calls depend on the pairing: `compact` is there by lock coupling and by giving up, calls with a guide and from
//! a hint by giving up and along links, ordered scans for the B+ trees of those two, and moves by giving up.
#![tactic(auto)]

pub use ks_arena::{Arena, Note, Pass};
pub use ks_boxed::Boxed;
pub use ks_bplus::BNode;
pub use ks_bst::TNode;
pub use ks_coupling::Coupling;
pub use ks_dictionary::{Closed, Dictionary, Found, Gated, Runtime, kept_law, once_law};
pub use ks_flow::{Link, Tree};
pub use ks_gate::{Gate, Meet, Point, Stand, Standing};
pub use ks_giveup::GiveUp;
pub use ks_guide::Guide;
pub use ks_hash::HNode;
pub use ks_keysets::{Few, Pair};
pub use ks_lines::Scanned;
pub use ks_link::LinkMove;
pub use ks_linked::WithLink;
pub use ks_list::ListNode;
pub use ks_node::{Node, WithRange};
pub use ks_places::{Golden, Plain};
pub use ks_shape::{
    Above, Compacting, Fill, Full, Hinting, Later, MoveLeft, Moving, Numbered, NumberedAt, Part,
    PutLater, Ruled, Scanning, Template,
};
pub use ks_wide::{WNode, Widths};

/// A pass of a dictionary over nodes of type `N`, by the technique `T`.
pub type PassOf<N, T> = Pass<N, <T as Ruled>::Rule>;

/// A B+ tree by lock coupling, whose nodes are merged as keys are deleted: take it unless another of these fits better.
pub type BTree = Dictionary<Boxed<BNode>, Coupling>;

/// A pass of a `BTree`.
pub type BTreePass = PassOf<Boxed<BNode>, Coupling>;

/// A B+ tree whose searches hold one node at a time, and restart if the next node is free or its range lacks their key: take
/// it for many callers, if nodes are to be merged as keys are deleted.
pub type GiveUpTree = Dictionary<WithRange<BNode>, GiveUp>;

/// A pass of a `GiveUpTree`.
pub type GiveUpTreePass = PassOf<WithRange<BNode>, GiveUp>;

/// A B-link tree, whose searches hold one node at a time and never restart, and whose nodes are never merged: take it
/// for many callers, if few keys are deleted.
pub type BLinkTree = Dictionary<WithLink<BNode>, LinkMove>;

/// A pass of a `BLinkTree`.
pub type BLinkTreePass = PassOf<WithLink<BNode>, LinkMove>;

/// A hash table by lock coupling: take it for some hundred keys, since with more its searches get longer.
pub type HashTable = Dictionary<Boxed<HNode>, Coupling>;

/// A pass of a `HashTable`.
pub type HashTablePass = PassOf<Boxed<HNode>, Coupling>;

/// A hash table whose searches hold one node at a time, and restart as those of a `GiveUpTree`: take it for many callers
/// of some hundred keys.
pub type GiveUpHashTable = Dictionary<WithRange<HNode>, GiveUp>;

/// A pass of a `GiveUpHashTable`.
pub type GiveUpHashTablePass = PassOf<WithRange<HNode>, GiveUp>;

/// A hash table whose searches move right along links, as those of a `BLinkTree`, and whose buckets are never merged: take
/// it for many callers of some hundred keys, few of which are deleted.
pub type LinkHashTable = Dictionary<WithLink<HNode>, LinkMove>;

/// A pass of a `LinkHashTable`.
pub type LinkHashTablePass = PassOf<WithLink<HNode>, LinkMove>;

/// The node of a B+ tree whose branches have up to 64 children: a leaf has at most 16 pairs.
pub type WideTreeNode = WNode<Plain, 16, 64>;

/// A B+ tree of wide branches by lock coupling, whose searches pass fewer nodes than those of a `BTree`: take it for many
/// keys.
pub type WideTree = Dictionary<Boxed<WideTreeNode>, Coupling>;

/// A pass of a `WideTree`.
pub type WideTreePass = PassOf<Boxed<WideTreeNode>, Coupling>;

/// A B+ tree of wide branches whose searches hold one node at a time, and restart as those of a `GiveUpTree`: take it for
/// many callers of many keys, if nodes are to be merged as keys are deleted.
pub type GiveUpWideTree = Dictionary<WithRange<WideTreeNode>, GiveUp>;

/// A pass of a `GiveUpWideTree`.
pub type GiveUpWideTreePass = PassOf<WithRange<WideTreeNode>, GiveUp>;

/// A B-link tree of wide branches, whose searches move right along links, as those of a `BLinkTree`: take it for many
/// callers of many keys, if few keys are deleted.
pub type BLinkWideTree = Dictionary<WithLink<WideTreeNode>, LinkMove>;

/// A pass of a `BLinkWideTree`.
pub type BLinkWideTreePass = PassOf<WithLink<WideTreeNode>, LinkMove>;

/// The node of a hash table of any size: a bucket of at most 32 pairs, or a directory of up to 64 children.
pub type WideHashNode = WNode<Golden, 32, 64>;

/// A hash table of any size by lock coupling: a tree over the hashed places of keys, so it has no order of keys, and as
/// many levels as their number needs.
pub type WideHashTable = Dictionary<Boxed<WideHashNode>, Coupling>;

/// A pass of a `WideHashTable`.
pub type WideHashTablePass = PassOf<Boxed<WideHashNode>, Coupling>;

/// A hash table of any size whose searches hold one node at a time, and restart as those of a `GiveUpTree`: take it for
/// many callers.
pub type GiveUpWideHashTable = Dictionary<WithRange<WideHashNode>, GiveUp>;

/// A pass of a `GiveUpWideHashTable`.
pub type GiveUpWideHashTablePass = PassOf<WithRange<WideHashNode>, GiveUp>;

/// A hash table of any size whose searches move right along links, as those of a `BLinkTree`, and whose buckets are never
/// merged: take it for many callers, if few keys are deleted.
pub type LinkWideHashTable = Dictionary<WithLink<WideHashNode>, LinkMove>;

/// A pass of a `LinkWideHashTable`.
pub type LinkWideHashTablePass = PassOf<WithLink<WideHashNode>, LinkMove>;

/// A sorted list of nodes by lock coupling, which has the least code: take it for few keys.
pub type SortedList = Dictionary<ListNode, Coupling>;

/// A pass of a `SortedList`.
pub type SortedListPass = PassOf<ListNode, Coupling>;

/// A sorted list whose searches hold one node at a time, and restart as those of a `GiveUpTree`: take it for few keys, if
/// no search is to hold a node while it waits for the next. Calls that split or merge nodes do.
pub type GiveUpList = Dictionary<WithRange<ListNode>, GiveUp>;

/// A pass of a `GiveUpList`.
pub type GiveUpListPass = PassOf<WithRange<ListNode>, GiveUp>;

/// A binary search tree by lock coupling, each node of which has at most two pairs or two children: take a `BTree` instead,
/// which is faster and smaller. This one shows that a tree of another shape has the same contracts.
pub type BinaryTree = Dictionary<Boxed<TNode>, Coupling>;

/// A pass of a `BinaryTree`.
pub type BinaryTreePass = PassOf<Boxed<TNode>, Coupling>;

/// A binary search tree whose searches hold one node at a time, and restart as those of a `GiveUpTree`: take a `GiveUpTree`
/// instead, for the same reason.
pub type GiveUpBinaryTree = Dictionary<WithRange<TNode>, GiveUp>;

/// A pass of a `GiveUpBinaryTree`.
pub type GiveUpBinaryTreePass = PassOf<WithRange<TNode>, GiveUp>;

//! A caller that C keeps, of a dictionary of one of the structures that C may choose.
ghost use Rattle.std.specs.Prelude.{◌≡◌, ◌≤◌, length};
ghost use Rattle.ks_c.specs.Calls.{Called, IsReady};
ghost use Rattle.ks_c.specs.Scans.{Scanned};

use crate::answers::Answer;
use crate::listing::{Entry, Listing, UNFIT};
use crate::scans::{scan_along_links, scan_by_giving_up};
use crate::tries::{Call, CallerOf, along_links, by_coupling, by_giving_up};
use ks_boxed::Boxed;
use ks_bplus::BNode;
use ks_flow::{Link, Tree};
use ks_linked::WithLink;
use ks_node::WithRange;
use ks_places::{Golden, Plain};
use ks_wide::WNode;

/// A leaf of 16 pairs, or a branch of 64 children.
pub type WideTreeNode = WNode<Plain, 16, 64>;

/// A bucket of 32 pairs, or a branch of 64 children.
pub type WideHashNode = WNode<Golden, 32, 64>;

/// One caller of a dictionary, whose nodes and technique are those of its structure.
#[derive(Drop)]
pub enum Caller {
    /// A B-link tree.
    BLinkTree(CallerOf<WithLink<BNode>, Link>),
    /// A B+ tree by giving up.
    GiveUpTree(CallerOf<WithRange<BNode>, Tree>),
    /// A B+ tree by lock coupling.
    BTree(CallerOf<Boxed<BNode>, Tree>),
    /// A hash table along links.
    LinkHashTable(CallerOf<WithLink<WideHashNode>, Link>),
    /// A B-link tree of wide branches.
    BLinkWideTree(CallerOf<WithLink<WideTreeNode>, Link>),
    /// A B+ tree of wide branches, by giving up.
    GiveUpWideTree(CallerOf<WithRange<WideTreeNode>, Tree>),
}

/// A caller over some nodes, as C keeps it.
pub trait Kept: Drop {
    ghost use Rattle.ks_c.specs.declared.caller.Caller.{Caller};

    /// The caller of the structure that has these nodes and this technique.
    ghost kept: { Self → Caller };

    /// Makes it a caller of its structure.
    fn keep(self) -> Caller
        ensures { result ≡ kept self };
}

impl Kept for CallerOf<WithLink<BNode>, Link> {
    ghost use Rattle.ks_c.specs.declared.caller.Caller.TheVariants.{BLinkTree};

    ghost kept = { λ c. BLinkTree c };

    fn keep(self) -> Caller {
        Caller::BLinkTree(self)
    }
}

impl Kept for CallerOf<WithRange<BNode>, Tree> {
    ghost use Rattle.ks_c.specs.declared.caller.Caller.TheVariants.{GiveUpTree};

    ghost kept = { λ c. GiveUpTree c };

    fn keep(self) -> Caller {
        Caller::GiveUpTree(self)
    }
}

impl Kept for CallerOf<Boxed<BNode>, Tree> {
    ghost use Rattle.ks_c.specs.declared.caller.Caller.TheVariants.{BTree};

    ghost kept = { λ c. BTree c };

    fn keep(self) -> Caller {
        Caller::BTree(self)
    }
}

impl Kept for CallerOf<WithLink<WideHashNode>, Link> {
    ghost use Rattle.ks_c.specs.declared.caller.Caller.TheVariants.{LinkHashTable};

    ghost kept = { λ c. LinkHashTable c };

    fn keep(self) -> Caller {
        Caller::LinkHashTable(self)
    }
}

impl Kept for CallerOf<WithLink<WideTreeNode>, Link> {
    ghost use Rattle.ks_c.specs.declared.caller.Caller.TheVariants.{BLinkWideTree};

    ghost kept = { λ c. BLinkWideTree c };

    fn keep(self) -> Caller {
        Caller::BLinkWideTree(self)
    }
}

impl Kept for CallerOf<WithRange<WideTreeNode>, Tree> {
    ghost use Rattle.ks_c.specs.declared.caller.Caller.TheVariants.{GiveUpWideTree};

    ghost kept = { λ c. GiveUpWideTree c };

    fn keep(self) -> Caller {
        Caller::GiveUpWideTree(self)
    }
}

impl Caller {
    /// Makes a call, writes its result to `out`, and returns its code.
    pub fn call(&mut self, key: u64, call: Call, out: &mut Answer) -> u32
        requires { IsReady self.old }
        ensures { Called call key self.old self.new result out.new }
    {
        match self {
            Caller::BLinkTree(caller) => along_links(caller, key, call, out),
            Caller::GiveUpTree(caller) => by_giving_up(caller, key, call, out),
            Caller::BTree(caller) => by_coupling(caller, key, call, out),
            Caller::LinkHashTable(caller) => along_links(caller, key, call, out),
            Caller::BLinkWideTree(caller) => along_links(caller, key, call, out),
            Caller::GiveUpWideTree(caller) => by_giving_up(caller, key, call, out),
        }
    }

    /// Lists a part of a scan, writes its result to `entries` and `out`, and returns its code: `UNFIT` if the structure has
    /// no scans.
    pub fn scan(&mut self, low: u64, last: u64, entries: &mut [Entry], out: &mut Listing) -> u32
        requires ready { IsReady self.old }
        requires span { low ≤ last }
        requires room { 16 ≤ length entries.old }
        ensures { Scanned low last self.old self.new entries.old entries.new result out.new }
    {
        match self {
            Caller::BLinkTree(caller) => scan_along_links(caller, low, last, entries, out),
            Caller::GiveUpTree(caller) => scan_by_giving_up(caller, low, last, entries, out),
            Caller::BTree(_) => UNFIT,
            Caller::LinkHashTable(_) => UNFIT,
            Caller::BLinkWideTree(caller) => scan_along_links(caller, low, last, entries, out),
            Caller::GiveUpWideTree(caller) => scan_by_giving_up(caller, low, last, entries, out),
        }
    }
}

//! Where a caller's calls were decided, and which branches they passed.
ghost use Rattle.std.specs.Prelude.{ℕ, ◌≡◌, ◌≤◌, ◌<◌, Some, None, IfOk};
ghost use Rattle.ks_guide.specs.Branches.{guess_among};
ghost use Rattle.ks_guide.specs.Guides.{guessed, guessed_leaf, most_branches};

use crate::branches::Branches;
use crate::leaves::Leaves;
use crate::spot::Spot;
use std::alloc::{AllocError, Global};

/// One caller's memory of where its calls were decided, and which branches they passed.
#[derive(Drop)]
pub struct Guide {
    pub(crate) leaves: Leaves,
    branches: Branches,
}

impl Guide {
    /// A guide that has no place, with `sets` sets of two leaves, at least one, 48 bytes each, and room for `branches`
    /// branches, 24 bytes each.
    ///
    /// A caller that uses some thousand leaves takes as many sets; branches lead to the others, at one node more a call, and
    /// there are some ten times fewer of them.
    ///
    /// # Errors
    ///
    /// Only lack of memory.
    pub fn start(alloc: Global, sets: usize, branches: usize) -> Result<Guide, AllocError>
        requires { 1 ≤ sets }
        ensures none { IfOk result (λ guide. (p : ℕ) → guessed guide p ≡ None) }
        ensures most { IfOk result (λ guide. most_branches guide ≡ branches) }
    {
        Ok(Guide {
            leaves: Leaves::start(alloc, sets)?,
            branches: Branches::start(alloc, branches)?,
        })
    }

    /// The node at which a call of this place may begin: a leaf that was noted, or else a branch, or else `None`.
    #[inline(always)]
    pub fn guess(&self, place: u64) -> Option<u32>
        ensures { result ≡ guessed self.now place }
    {
        match self.leaves.guess(place) {
            Some(node) => Some(node),
            None => self.branches.guess(place),
        }
    }

    /// Notes at which node a call of the place was decided, and the span of places that the node had then. The guess of
    /// the place is then this node.
    #[inline(always)]
    pub fn note(&mut self, place: u64, low: u64, last: u64, node: u32)
        requires { (low ≤ place) × (place ≤ last) }
        ensures noted { guessed_leaf self.new place ≡ Some node }
        ensures most { most_branches self.new ≡ most_branches self.old }
    {
        self.leaves.note(place, Spot { low, last, node });
    }

    /// Notes a branch that a search passed, and the span of places that it had then: of each place there with no leaf the
    /// guess is then this node, if the guide has room for branches.
    pub fn note_branch(&mut self, low: u64, last: u64, node: u32)
        ensures noted { (p : ℕ) → 0 < most_branches self.old → low ≤ p → p ≤ last →
            guessed_leaf self.new p ≡ None → guessed self.new p ≡ Some node }
        ensures leaves { (p : ℕ) → guessed_leaf self.new p ≡ guessed_leaf self.old p }
        ensures most { most_branches self.new ≡ most_branches self.old }
    {
        if low <= last {
            self.branches.note(Spot { low, last, node });
        }
    }
}

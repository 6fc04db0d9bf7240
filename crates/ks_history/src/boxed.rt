//! `BoxedFew`: the pairs of a reply, in a box.

ghost use Rattle.std.specs.Prelude.{◌≡◌, IfOk};
ghost use Rattle.std.proofs.Common.{rules};
ghost use Rattle.std.specs.Cmp.Rules.{comparing};
ghost use Rattle.ks_keysets.specs.Paired.{same_pairs};

use ks_keysets::Few;
use std::alloc::{AllocError, Global};
use std::marker::Model;

/// At most 16 pairs, in a box, so that a reply is small. A clause reads it as the list of its pairs.
#[derive(Debug, Drop)]
pub struct BoxedFew {
    few: Box<Few>,
}

impl Model for BoxedFew {
    ghost use Rattle.std.specs.Prelude.{List};
    ghost use Rattle.ks_keysets.specs.declared.Pair.{Pair};

    ghost Value = { List Pair };

    ghost view = { λ b. b.few.value };
}

impl BoxedFew {
    /// These pairs in a box. It fails only if memory runs out.
    pub fn new(alloc: Global, few: Few) -> Result<BoxedFew, AllocError>
        ensures { IfOk result (λ b. b ≡ few) }
    {
        Ok(BoxedFew {
            few: Box::new(alloc, few)?,
        })
    }

    /// The pairs.
    pub fn few(&self) -> &Few
        ensures { result.now ≡ self.now }
    {
        &self.few
    }
}

impl PartialEq for BoxedFew {
    ghost eq = { same_pairs };

    ghost laws = { Prim.search (comparing, rules) };

    fn eq(&self, other: &BoxedFew) -> bool {
        self.few() == other.few()
    }
}

impl Eq for BoxedFew {
    ghost laws = { Prim.search (comparing, rules) };
}

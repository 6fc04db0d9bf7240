//! Lock coupling as a technique of dictionaries.
ghost use Rattle.ks_history.specs.Done.{coupling};

use ks_flow::Tree;
use ks_shape::Ruled;

/// Lock coupling, over any nodes without links.
pub struct Coupling;

impl Ruled for Coupling {
    type Rule = Tree;

    ghost technique = { coupling };
}

//! What the jobs of one run are about.
ghost use Rattle.std.specs.Prelude.{ℕ, List, []};
ghost use Rattle.atomic_table.specs.Seated.{TableId};
ghost use Rattle.ks_lines.specs.declared.Line.{Line};
ghost use Rattle.ks_jobs.specs.About.{no_table};

use std::marker::Brand;

/// What the jobs of one run are about: the arena and the scripts of all callers. It serves proofs only, and a call at
/// `Brand` picks it.
pub trait About {
    /// The table of the arena.
    ghost table: { TableId };

    /// How many callers the arena has.
    ghost callers: { ℕ };

    /// How many nodes it has.
    ghost nodes: { ℕ };

    /// The scripts of the callers, in their order.
    ghost scripts: { List (List Line) };
}

impl About for Brand {
    ghost table = { no_table };

    ghost callers = { 0 };

    ghost nodes = { 0 };

    ghost scripts = { [] };
}

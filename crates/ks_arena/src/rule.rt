//! The rule of the table.
ghost use Rattle.ks_arena.specs.Sound.{sort_of};
ghost use Rattle.ks_arena.specs.Rule.{Running, first_view};

use crate::view::View;
use atomic_table::TableRule;
use ks_flow::Discipline;
use ks_node::Node;
use std::marker::PhantomData;

/// What holds of the table between any two steps.
pub struct Rule<N, D> {
    marker: PhantomData<(N, D)>,
}

impl<N: Node, D: Discipline> TableRule<Option<N>, View, ()> for Rule<N, D> {
    ghost holds = { λ _. Running (sort_of N.layout N.ranged) D.begins D.step N.body };

    ghost first = { λ _. first_view };
}

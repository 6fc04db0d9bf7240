//! The rule of the table.
ghost use Rattle.ks_tickets.specs.Rule.{Running, first_view};

use crate::ticketed::Ticketed;
use crate::view::View;
use atomic_table::TableRule;
use std::marker::PhantomData;

/// What holds of the table between any two steps.
pub struct Rule<J> {
    marker: PhantomData<J>,
}

impl<J: Ticketed> TableRule<Option<J>, View, ()> for Rule<J> {
    ghost holds = { λ _. Running J.waits J.finished };

    ghost first = { λ _. first_view };
}

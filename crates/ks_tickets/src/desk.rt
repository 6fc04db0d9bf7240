//! The tickets that all workers share, and the desk of each.
ghost use Rattle.std.specs.Prelude.{◌≡◌, ◌+◌};

use crate::rule::Rule;
use crate::ticketed::Ticketed;
use crate::view::View;
use atomic_table::{Seat, Table};
use std::alloc::Global;

/// Jobs that workers draw by ticket. The ticket of a job is its place among them, counted from 0.
#[derive(Drop)]
pub struct Tickets<J: Ticketed> {
    pub(crate) table: Table<Option<J>, View, (), Rule<J>, Global>,
    pub(crate) jobs: u32,
    ghost sized: { (table.shared.table_id.words ≡ jobs + 1) × (table.shared.table_id.slots ≡ jobs) },
}

/// What one worker draws with. At most one ticket is open at it; it has ended once it found no job left.
#[derive(Drop)]
pub struct Desk<J> {
    pub(crate) seat: Seat<Option<J>, View>,
}

//! The traits of techniques, and what their calls share: their results, the steps of their searches, and how they end.
//! And the shapes of maintenance, each some calls of held nodes and then one Shape.
#![tactic(auto)]

mod answers;
mod child;
mod claims;
mod compacting;
mod ending;
mod far;
mod fills;
mod here;
mod hinting;
mod laws;
mod leaves;
mod link;
mod located;
mod moving;
mod parts;
mod path;
mod scanning;
mod steps;
mod template;
mod tree;
mod tries;
mod try_path;
mod visits;

pub use answers::{Above, Full, Later, MoveLeft, Numbered, NumberedAt, PutLater};
pub use child::child_law;
pub use claims::{claim_one, claim_two};
pub use compacting::Compacting;
pub use ending::{conclude_as, conclude_found, refuse};
pub use far::turn_back;
pub use fills::{Fill, fill_at, not_put_off};
pub use here::{
    add_here, del_here, get_here, has_room, put_here, refuse_here, swap_here, tree_end_law,
};
pub use hinting::{Hinting, start_of};
pub use laws::search_law;
pub use leaves::leaves_law;
pub use link::{attach, grow_right, split_right};
pub use located::{del_located, fill_located, get_located, passed, swap_located};
pub use moving::Moving;
pub use parts::{Part, part_here};
pub use path::{Path, enter, keep_alone, keep_left, let_go, step_down};
pub use scanning::{Scanning, scanning_law};
pub use steps::{give_last, take_root};
pub use template::{Ruled, Shelf, Template};
pub use tree::{absorb_own, absorb_under, collapse, grow, split_own, split_under};
pub use tries::tries_law;
pub use try_path::{try_enter, try_step_down};
pub use visits::{leave_above, leave_last, lift_path, visit_below, visit_root};

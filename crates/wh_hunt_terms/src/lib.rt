//! What the hunt for loops stands on: its work, and terms. Nothing is known of the terms that a hunt walks over; a call
//! that needs to know something of one tests it first, and says by `None` that it does not hold.
#![tactic(auto)]

mod checked;
mod marks;
mod measures;
mod meeting;
mod naming;
mod ways;
mod work;

pub use checked::{last_of, opened_part, raw_kind_of, raw_of, reduct_by_step};
pub use marks::mark;
pub use measures::{Head, head_of, room_behind};
pub use meeting::{Met, instance_of};
pub use naming::canonical;
pub use ways::{Way, joined, path_of, step_of};
pub use work::Work;

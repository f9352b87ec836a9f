//! A log followed as it is read: each commit is told once no later commit can come before it in the serial order.
#![tactic(auto)]

mod follow;
mod laws;
mod seen;
mod turn;

pub use follow::Follow;
pub use laws::{lines_are_the_order_so_far, lines_stay_in_front, takes_go_on};
pub use seen::{Broken, FollowStop, Seen};

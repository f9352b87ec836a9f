//! One seat, as the running machine keeps it. Each step of a seat is a method, `true` where its guard is met; `SeatState::turn` is
//! the step of a kind.
#![tactic(auto)]

mod claiming;
mod ending;
mod flushing;
mod life;
mod reading;
mod room;
mod seat;
mod settling;
mod snapshot;
mod turn;

pub use seat::SeatState;

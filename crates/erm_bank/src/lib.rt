//! A bank on a disk: tellers as programs, each with a session of its own, and what becomes of the customers' accounts whatever crash there is.
#![tactic(auto)]

mod bank;
mod laws;
mod teller;

pub use bank::run_bank;
pub use laws::{
    audits_show_what_is, audits_show_what_was, audits_stand_in_order,
    crashes_leave_solvent_customers, crashes_leave_totals, ends_leave_solvent_customers,
    ends_leave_totals,
};
pub use teller::{Errand, Teller, Told};

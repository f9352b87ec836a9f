//! The top call: from the words of the command line to a status.
#![tactic(auto)]

mod checkpoint;
mod commands;
mod inspect;
mod make;
mod printing;
mod reading;
mod run;
mod script;
mod stream;
mod texts;
mod threads;
mod top;

pub use erm_command_line::Command;
pub use top::{Ended, ermia};

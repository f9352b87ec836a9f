//! The words of the command line.
#![tactic(auto)]

mod command;
mod line;
mod number;

pub use command::{
    Command, MOST_SESSIONS, MOST_TRANSACTIONS, command_of, command_words_are_commands,
};

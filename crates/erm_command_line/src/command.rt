//! Which command the words ask for.
ghost use Rattle.std.specs.Prelude.{◌≡◌, ◌⊎◌, IfNone, IfSome, IsErr, Ok, Some, None, ℕ, List, ◌∷◌, map, String as AnyString, string_bytes};
ghost use Rattle.std.specs.declared.alloc.Global.{Global as AnyGlobal};
ghost use Rattle.clap.specs.Simple.{subcommand_rows_of};
ghost use Rattle.erm_command_line.specs.CommandLine.{AreCommandWords, IsCommand, IsNoCommand, IsReadAs};

use crate::line::command_line;
use crate::number::number;
use clap::ArgMatches;
use clap::error::ErrorKind;
use std::alloc::{AllocError, Global};

/// The most transactions that `make` makes.
pub const MOST_TRANSACTIONS: u32 = 100_000;

/// The most sessions that `make` has.
pub const MOST_SESSIONS: u32 = 16;

/// What the program is asked for.
#[derive(Clone, Copy, PartialEq, Eq)]
pub enum Command {
    /// To read a script, run it and put its report.
    Run,
    /// The same, each session on a thread of its own where one can be made.
    Threads,
    /// To tell what the disk recovers to.
    Recover,
    /// To tell what stands in the log.
    Audit,
    /// To take a checkpoint.
    Checkpoint,
    /// To put the log as a stream.
    Ship,
    /// To read a stream, and to tell the commits below its safe stamps.
    Follow,
    /// To read a stream, and to tell what its replica answers.
    Replica,
    /// To make a script and run it, or to print its text.
    Make {
        /// How many transactions it has.
        count: u32,
        /// How many sessions.
        sessions: u8,
        /// Whether its text is asked for.
        text: bool,
    },
}

/// The command that the words of the command line ask for: none where they ask for none, help being such a case.
pub fn command_of(alloc: Global, words: &[String]) -> Result<Option<Command>, AllocError>
    ensures asked { (command : Command) → result ≡ Ok (Some command) → IsCommand words.now command }
    ensures none { result ≡ Ok None → IsNoCommand words.now }
    // Words ask for one command at most, and that is the answer unless memory runs out.
    ensures found { (command : Command) → IsCommand words.now command → (result ≡ Ok (Some command)) ⊎ IsErr result }
{
    let command_line = command_line(alloc)?;
    match command_line.try_get_matches_from(words) {
        Ok(matches) => Ok(command_read(&matches)),
        Err(error) => {
            if error.kind() == ErrorKind::OutOfMemory {
                Err(AllocError)
            } else {
                Ok(None)
            }
        }
    }
}

/// The words of a command as they are meant to be given, with the program's name in front, ask for it: the command's word and nothing more, or `make`
/// and its options, in any order, each value a word of its own.
pub fn command_words_are_commands()
    ensures { (words : List (AnyString AnyGlobal)) (command : Command) (name : List ℕ) (args : List (List ℕ)) → AreCommandWords command args → map string_bytes words ≡ name ∷ args → IsCommand words command }
{}

// The command that was read.
fn command_read(matches: &ArgMatches) -> Option<Command>
    ensures asked { IfSome result (λ command. IsReadAs (subcommand_rows_of matches.now) command) }
    ensures none { IfNone result ((command : Command) → IsReadAs (subcommand_rows_of matches.now) command → ⊥) }
{
    let (name, options) = matches.subcommand()?;
    match name {
        "run" => Some(Command::Run),
        "threads" => Some(Command::Threads),
        "recover" => Some(Command::Recover),
        "audit" => Some(Command::Audit),
        "checkpoint" => Some(Command::Checkpoint),
        "ship" => Some(Command::Ship),
        "follow" => Some(Command::Follow),
        "replica" => Some(Command::Replica),
        "make" => {
            let count = number(options.get_str("count")?, MOST_TRANSACTIONS)?;
            let sessions = number(options.get_str("sessions")?, MOST_SESSIONS)?;
            Some(Command::Make {
                count,
                sessions: sessions as u8,
                text: options.get_flag("text"),
            })
        }
        _ => None,
    }
}

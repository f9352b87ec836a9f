//! The command line that the program takes.
ghost use Rattle.std.specs.Prelude.{◌≡◌, IfOk, false};
ghost use Rattle.clap.specs.Simple.{app_of};
ghost use Rattle.clap.specs.Simple.{shape_of};
ghost use Rattle.clap.specs.declared.builder.command.Command.TheViews.{out-Command as fields_of};
ghost use Rattle.erm_command_line.specs.CommandLine.{command_line, make_shape};

use clap::{Arg, ArgAction, Command};
use std::alloc::{AllocError, Global};

/// The program's name, and its commands.
pub fn command_line<'a>(alloc: Global) -> Result<Command<'a>, AllocError>
    ensures { IfOk result (λ c. app_of c ≡ command_line) }
{
    Command::new(alloc, "erm")
        .subcommand_required(true)
        .subcommand(Command::new(alloc, "run"))?
        .subcommand(Command::new(alloc, "threads"))?
        .subcommand(make(alloc)?)?
        .subcommand(Command::new(alloc, "recover"))?
        .subcommand(Command::new(alloc, "audit"))?
        .subcommand(Command::new(alloc, "checkpoint"))?
        .subcommand(Command::new(alloc, "ship"))?
        .subcommand(Command::new(alloc, "follow"))?
        .subcommand(Command::new(alloc, "replica"))
}

// The command `make`, with its options.
fn make<'a>(alloc: Global) -> Result<Command<'a>, AllocError>
    ensures { IfOk result (λ c. (shape_of c ≡ make_shape) × ((fields_of c).has_globals ≡ false)) }
{
    Command::new(alloc, "make")
        .arg(Arg::new(alloc, "count").long("count").required(true))?
        .arg(Arg::new(alloc, "sessions").long("sessions").required(true))?
        .arg(
            Arg::new(alloc, "text")
                .long("text")
                .action(ArgAction::SetTrue),
        )
}

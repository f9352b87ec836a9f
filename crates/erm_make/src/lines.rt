//! Lines of a script, one after another.
ghost use Rattle.std.specs.Prelude.{◌≡◌, ◌+◌, ◌≤◌, ◌∷◌, [], OnOk, vec_len};
ghost use Rattle.erm_make.specs.Workload.{Adds, by_each};
ghost use Rattle.erm_script.specs.declared.script.Command.TheVariants as command;

use erm_model::Seat;
use erm_script::{Command, ScriptLine};
use std::alloc::AllocError;

/// Adds a line with the next number.
pub fn push(lines: &mut Vec<ScriptLine>, session: Seat, command: Command) -> Result<(), AllocError>
    requires { vec_len lines.old + 1 ≤ u32.MAX }
    ensures added { OnOk result (Adds ((session, command) ∷ []) lines.old.items lines.new.items) }
    ensures many { OnOk result (vec_len lines.new ≡ vec_len lines.old + 1) }
{
    let line = lines.len() as u32 + 1;
    lines.push(ScriptLine {
        line,
        session,
        command,
    })?;
    Ok(())
}

/// Adds a line for each of the first sessions, to begin a transaction.
pub fn push_begins(lines: &mut Vec<ScriptLine>, size: Seat) -> Result<(), AllocError>
    requires { vec_len lines.old + size ≤ u32.MAX }
    ensures added { OnOk result (Adds (by_each size command.Begin) lines.old.items lines.new.items) }
    ensures many { OnOk result (vec_len lines.new ≡ vec_len lines.old + size) }
{
    for place in 0..size {
        push(lines, place + 1, Command::Begin)?;
    }
    Ok(())
}

/// Adds a line for each of the first sessions, to commit its transaction.
pub fn push_commits(lines: &mut Vec<ScriptLine>, size: Seat) -> Result<(), AllocError>
    requires { vec_len lines.old + size ≤ u32.MAX }
    ensures added { OnOk result (Adds (by_each size command.Commit) lines.old.items lines.new.items) }
    ensures many { OnOk result (vec_len lines.new ≡ vec_len lines.old + size) }
{
    for place in 0..size {
        push(lines, place + 1, Command::Commit)?;
    }
    Ok(())
}

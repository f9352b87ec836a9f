//! What is made before the threads of a script's sessions start.
ghost use Rattle.std.specs.Prelude.{◌≡◌, ◌+◌, ◌^◌, ◌<◌, ◌≤◌, ◌++◌, IfOk, OnOk, length};
ghost use Rattle.erm_model.specs.Member.{◌∈◌};
ghost use Rattle.erm_model.specs.declared.limits.TheConstants.{SESSIONS};
ghost use Rattle.erm_script.specs.declared.script.ScriptLine.{ScriptLine as LineOfScript};
ghost use Rattle.erm_threads.specs.Parts.{IsSeatOf};
ghost use Rattle.erm_run_at_once.specs.Room.{IsRoomFor, spare_names};

use erm_model::{Name, SESSIONS};
use erm_report::Line;
use erm_script::ScriptLine;
use erm_threads::split;
use std::alloc::{AllocError, Global};

/// What a run at once has of memory before its threads start.
#[derive(Drop)]
pub(crate) struct Room {
    /// The lines of each session, by seat from 1 on.
    pub parts: Vec<Vec<ScriptLine>>,
    /// A name for each session of the table: those of the script, and behind them spare ones, which no session has.
    pub names: Vec<Name>,
    /// Empty, with room for the lines of a report that is cut off.
    pub lines: Vec<Line>,
}

// The same names once more, with room for one of each session of a table.
fn copied_names(alloc: Global, names: &[Name]) -> Result<Vec<Name>, AllocError>
    ensures { IfOk result (λ all. all.items ≡ names.now) }
{
    let mut all = Vec::with_capacity(alloc, usize::from(SESSIONS))?;
    for name in names {
        all.push(name.copied())?;
    }
    Ok(all)
}

// Adds spare names, up to one for each session of a table.
fn add_spare(names: &mut Vec<Name>) -> Result<(), AllocError>
    requires { length names.old.items ≤ SESSIONS }
    ensures { OnOk result (names.new.items ≡ names.old.items ++ spare_names (length names.old.items)) }
{
    for _ in names.len()..usize::from(SESSIONS) {
        names.push(Name::empty())?;
    }
    Ok(())
}

/// The script split, a name for each session of a table, and room for a report that is cut off.
pub(crate) fn make_room(
    alloc: Global,
    names: &[Name],
    script: &[ScriptLine],
) -> Result<Room, AllocError>
    requires few { length names.now ≤ SESSIONS }
    requires seats { (l : LineOfScript) → l ∈ script.now → IsSeatOf (length names.now) l }
    requires short { length script.now + 2 < 2 ^ 64 }
    ensures { IfOk result (IsRoomFor names.now script.now) }
{
    let parts = split(alloc, names.len(), script)?;
    let mut names = copied_names(alloc, names)?;
    add_spare(&mut names)?;
    let lines = Vec::with_capacity(alloc, script.len() + 2)?;
    Ok(Room {
        parts,
        names,
        lines,
    })
}

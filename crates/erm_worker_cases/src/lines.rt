//! Whether lines are those of one session.
ghost use Rattle.std.specs.Prelude.{◌≡◌, true};
ghost use Rattle.erm_worker.specs.Work.{MayBeAsked};
ghost use Rattle.erm_worker_cases.specs.Lines.{AreOf};

use erm_model::{Seat, TABLES};
use erm_script::{Command, ScriptLine};

// Whether a session may be asked so.
fn may_be_asked(command: &Command) -> bool
    ensures { result ≡ true → MayBeAsked command.now }
{
    match command {
        Command::Get { table, .. } => *table < TABLES,
        Command::Put { table, .. } => *table < TABLES,
        Command::Del { table, .. } => *table < TABLES,
        Command::Next { table, .. } => *table < TABLES,
        Command::Scan { table, .. } => *table < TABLES,
        Command::Tidy { table, .. } => *table < TABLES,
        Command::Flush => false,
        Command::Checkpoint => false,
        _ => true,
    }
}

/// Whether these are lines of one session.
pub fn are_of(lines: &[ScriptLine], seat: Seat) -> bool
    ensures { result ≡ true → AreOf seat lines.now }
{
    for line in lines {
        if line.session != seat {
            return false;
        }
        if !may_be_asked(&line.command) {
            return false;
        }
    }
    true
}

//! From the bytes of a script to its lines.
ghost use Rattle.std.specs.Prelude.{◌≡◌, ◌≢◌, ℕ, ◌+◌, ◌-◌, ◌<◌, ◌≤◌, ◌^◌, List, [], ◌∷◌, ◌++◌, ◌⊎◌, length, vec_len, IfOk, OnOk};
ghost use Rattle.erm_script.specs.declared.fault.FaultKind.{FaultKind};
ghost use Rattle.erm_script.specs.Script.{IsScript, is_skipped};
ghost use Rattle.erm_script.specs.Asked.{Adds, IsNewWhereAdded};
ghost use Rattle.erm_script.specs.Faults.{IsFirstBadLine};

mod line;
mod word;

use crate::sessions::Sessions;
use crate::{Grammar, NO_SESSION, ScriptFault, ScriptLine};
use erm_model::Name;
use line::Asked;
use std::alloc::{AllocError, Global};
use thiserror::Error;

/// A script: its sessions' names by the order of their first lines, and its lines but for those that are skipped.
#[derive(Drop)]
pub struct Script {
    pub names: Vec<Name>,
    pub lines: Vec<ScriptLine>,
}

/// Why bytes were not read as a script.
#[derive(Clone, Copy, Debug, Error)]
pub enum ParseError {
    /// Memory ran out.
    #[error("memory ran out")]
    Memory,
    /// The first line that is not in the grammar, and what is wrong with it.
    #[error("{0}")]
    Fault(ScriptFault),
}

impl From<AllocError> for ParseError {
    ghost use Rattle.erm_script.specs.declared.parser.ParseError.{ParseError};

    ghost from_gives = { λ _ error. error ≡ ParseError.Memory };

    fn from(_: AllocError) -> ParseError {
        ParseError::Memory
    }
}

/// Reads a script. Each line is in the grammar, or the first one that is not is the answer, with the first kind of
/// fault that applies to it.
pub fn parse(alloc: Global, bytes: &[u8], grammar: Grammar) -> Result<Script, ParseError>
    requires { length bytes.now < 2 ^ 32 - 1 }
    ensures script { IfOk result (λ script. IsScript grammar bytes.now script.names.items script.lines.items) }
    ensures short { IfOk result (λ script. length script.lines.items ≤ length bytes.now + 1) }
    ensures fault { (line : ℕ) (kind : FaultKind) → result ≡ Err (ParseError.Fault (record { line = line; kind = kind }))
        → IsFirstBadLine grammar bytes.now line kind }
{
    let mut read = Reading {
        sessions: Sessions::new(alloc),
        lines: Vec::new(alloc),
    };
    for (index, line) in bytes.split(|b| *b == b'\n').enumerate() {
        if is_skipped(line) {
            continue;
        }
        read.add(index as u32 + 1, line, grammar)?;
    }
    Ok(Script {
        names: read.sessions.to_names(alloc)?,
        lines: read.lines,
    })
}

// whether a line is empty or begins with `#`
fn is_skipped(line: &[u8]) -> bool
    ensures { result ≡ is_skipped line.now }
{
    line.is_empty() || line[0] == b'#'
}

/// What was read of a script so far.
#[derive(Drop)]
struct Reading {
    sessions: Sessions,
    lines: Vec<ScriptLine>,
}

impl Reading {
    ghost use Rattle.erm_script.specs.Script.{AreScript};
    ghost use Rattle.erm_script.specs.Faults.{IsFirstFault};
    ghost use Rattle.erm_script.specs.Words.{words_of};

    // adds a line with its number after those that are there
    fn add(&mut self, number: u32, line: &[u8], grammar: Grammar) -> Result<(), ParseError>
        requires { length self.old.sessions ≤ grammar.sessions }
        ensures added { OnOk result ((kept : List (ℕ × List ℕ)) → AreScript grammar kept self.old.sessions self.old.lines.items
            → AreScript grammar (kept ++ (number, line.now) ∷ []) self.new.sessions self.new.lines.items) }
        ensures fault { (line_number : ℕ) (kind : FaultKind)
            → result ≡ Err (ParseError.Fault (record { line = line_number; kind = kind }))
            → (line_number ≡ number) × IsFirstFault grammar self.old.sessions (words_of line.now) kind }
    {
        match line::line(line, &self.sessions, grammar) {
            Ok(asked) => self.add_asked(number, asked)?,
            Err(kind) => return Err(ParseError::Fault(ScriptFault { line: number, kind })),
        }
        Ok(())
    }

    // adds what a line asks for
    fn add_asked(&mut self, number: u32, asked: Asked) -> Result<(), AllocError>
        requires new { IsNewWhereAdded asked self.old.sessions }
        ensures { OnOk result (Adds number asked self.old.sessions self.old.lines.items self.new.sessions self.new.lines.items) }
    {
        let (session, command) = match asked {
            Asked::OfSession {
                name,
                seat,
                command,
            } => {
                if usize::from(seat) > self.sessions.len() {
                    self.sessions.add(&name)?;
                }
                (seat, command)
            }
            Asked::Alone(command) => (NO_SESSION, command),
        };
        self.lines.push(ScriptLine {
            line: number,
            session,
            command,
        })?;
        Ok(())
    }
}

//! Scripts as the commands read them, and what is to be told of one that was run.
ghost use Rattle.std.specs.Prelude.{◌≡◌, ℕ, ◌+◌, ◌≤◌, ◌⊎◌, List, length, IfErr, IfOk};
ghost use Rattle.erm_disk_run.specs.Runs.{AreInTables};
ghost use Rattle.erm_report.specs.Texts.{line_text};
ghost use Rattle.erm_report.specs.declared.line.Line.TheVariants as line;
ghost use Rattle.erm_script.specs.Script.{IsScript};
ghost use Rattle.erm_top.specs.Stopped.{IsRefusal, NotRead, TellsEnded};
ghost use Rattle.erm_top.specs.Told.{TookAtMost, WasRead};
ghost use Rattle.erm_top.specs.declared.printing.Stop.TheVariants as stop;

use crate::printing::Stop;
use crate::reading::{ReadError, SCRIPT_BYTES, read_all};
use crate::texts::{line_text, lines_text, not_opened};
use erm_disk_run::RunStop;
use erm_outside::Source;
use erm_report::{Line, Text};
use erm_script::{Grammar, ParseError, Script, ScriptFault, parse};
use std::alloc::Global;

/// Reads a script of a grammar from the source to its end.
pub fn read_script<S: Source>(
    alloc: Global,
    source: &mut S,
    grammar: Grammar,
) -> Result<Script, Stop>
    ensures script { IfOk result (λ script. (bytes : List ℕ) × WasRead bytes (S.left source.old) (S.left source.new)
        × IsScript grammar bytes script.names.items script.lines.items) }
    ensures short { IfOk result (λ script. length script.lines.items ≤ SCRIPT_BYTES + 1) }
    ensures sound { IfOk result (λ script. S.faults source.new ≡ S.faults source.old) }
    ensures stop { IfErr result (λ stop. NotRead grammar stop (S.left source.old) (S.left source.new) (S.faults source.old) (S.faults source.new)) }
    ensures taken { TookAtMost (SCRIPT_BYTES + 1) (S.left source.old) (S.left source.new) }
{
    match read_all(alloc, source) {
        Ok(bytes) => parsed(alloc, &bytes, grammar),
        Err(ReadError::Memory) => Err(Stop::Memory),
        Err(ReadError::Fault) => Err(Stop::ReadFault),
        Err(ReadError::TooLong) => Err(Stop::TooLong),
    }
}

// The script of a grammar that these bytes spell.
fn parsed(alloc: Global, bytes: &[u8], grammar: Grammar) -> Result<Script, Stop>
    requires { length bytes.now ≤ SCRIPT_BYTES }
    ensures script { IfOk result (λ script. IsScript grammar bytes.now script.names.items script.lines.items) }
    ensures short { IfOk result (λ script. length script.lines.items ≤ SCRIPT_BYTES + 1) }
    ensures stop { IfErr result (λ stop. IsRefusal grammar bytes.now stop) }
{
    match parse(alloc, bytes, grammar) {
        Ok(script) => Ok(script),
        Err(ParseError::Memory) => Err(Stop::Memory),
        Err(ParseError::Fault(fault)) => Err(bad_line(alloc, fault)),
    }
}

// What is to be told of a script's first bad line.
fn bad_line(alloc: Global, fault: ScriptFault) -> Stop
    ensures { (result ≡ stop.BadLine (line_text (line.BadLine fault.line fault.kind))) ⊎ (result ≡ stop.Memory) }
{
    let line = Line::BadLine {
        line: fault.line,
        kind: fault.kind,
    };
    match line_text(alloc, &line) {
        Ok(text) => Stop::BadLine(text),
        Err(_) => Stop::Memory,
    }
}

/// What is to be told of a script that was run: the text of its report, as far as there is one.
pub fn script_text(alloc: Global, ended: Result<Vec<Line>, RunStop>) -> Result<Text, Stop>
    requires { AreInTables ended }
    ensures { TellsEnded ended result }
{
    match ended {
        Ok(lines) => Ok(lines_text(alloc, &lines)?),
        Err(RunStop::Unopened(stop)) => Err(not_opened(alloc, stop)),
        Err(RunStop::DiskFault(lines)) => Err(Stop::Cut(lines_text(alloc, &lines)?)),
        Err(RunStop::Memory) => Err(Stop::Memory),
    }
}

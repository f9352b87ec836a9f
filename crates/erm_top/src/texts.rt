//! The texts of lines.
ghost use Rattle.std.specs.Prelude.{◌≡◌, ◌⊎◌, IfOk, OnOk, ℕ, List, Option};
ghost use Rattle.std.specs.List.{All};
ghost use Rattle.erm_outside.specs.Disk.{Step};
ghost use Rattle.erm_report.specs.Printable.{FitsTypes, IsInTables};
ghost use Rattle.erm_report.specs.Texts.{line_text, text_of};
ghost use Rattle.erm_disk_run.specs.Stops.{CountsStop, StopsFor, StopsRun};
ghost use Rattle.erm_top.specs.Stopped.{NotOpened, NotSaved};
ghost use Rattle.erm_top.specs.declared.printing.Stop.TheVariants as stop;

use crate::printing::Stop;
use erm_disk_run::DiskStop;
use erm_report::{Line, Text};
use std::alloc::{AllocError, Global};

/// The text of lines, one after the other. The numbers and values of the lines fit their types, where their tables are those that there are.
pub fn lines_text(alloc: Global, lines: &[Line]) -> Result<Text, AllocError>
    ensures text { IfOk result (λ text. text ≡ text_of lines.now) }
    ensures fits { OnOk result (All IsInTables lines.now → All FitsTypes lines.now) }
{
    let mut text = Text::new(alloc);
    for line in lines {
        text.add(line)?;
    }
    Ok(text)
}

/// The text of one line, whose numbers and values fit their types, where its table is one of those that there are.
pub fn line_text(alloc: Global, line: &Line) -> Result<Text, AllocError>
    ensures text { IfOk result (λ text. text ≡ line_text line.now) }
    ensures fits { OnOk result (IsInTables line.now → FitsTypes line.now) }
{
    let mut text = Text::new(alloc);
    text.add(line)?;
    Ok(text)
}

/// Makes the text of each line, and keeps none. The numbers and values of the lines fit their types, where their tables are those that there are.
pub fn try_each_text(alloc: Global, lines: &[Line]) -> Result<(), AllocError>
    ensures { OnOk result (All IsInTables lines.now → All FitsTypes lines.now) }
{
    for line in lines {
        line_text(alloc, line)?;
    }
    Ok(())
}

// What is to be told by a line that says that nothing comes behind what the disk holds.
fn at_end(alloc: Global, line: &Line) -> Stop
    ensures { (result ≡ stop.AtEnd (line_text line.now)) ⊎ (result ≡ stop.Memory) }
{
    match line_text(alloc, line) {
        Ok(text) => Stop::AtEnd(text),
        Err(_) => Stop::Memory,
    }
}

/// What is to be told where nothing was run on a disk, or no checkpoint was taken.
pub fn not_opened(alloc: Global, stop: DiskStop) -> Stop
    ensures run { (before after : Option (List Step)) (faults now : ℕ) → StopsRun stop before after → CountsStop stop faults now → NotOpened result before after faults now }
    ensures checkpoint { (before after : Option (List Step)) (faults now : ℕ) → StopsFor stop before after → CountsStop stop faults now → NotSaved result before after faults now }
{
    match stop {
        DiskStop::DiskFault => Stop::DiskFault,
        DiskStop::NoBase => Stop::NoBase,
        DiskStop::RunsEnd { run } => at_end(alloc, &Line::RunsEnd { run }),
        DiskStop::LogEnd { tail } => at_end(alloc, &Line::LogEnd { tail }),
        DiskStop::Memory => Stop::Memory,
    }
}

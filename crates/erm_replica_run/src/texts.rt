//! The text of what a replica answers.
ghost use Rattle.std.specs.Prelude.{◌≡◌, ◌++◌, OnOk, IfOk};
ghost use Rattle.erm_report.specs.Texts.{text_of};
ghost use Rattle.erm_replica_rows.specs.Keeping.{shown};
ghost use Rattle.erm_replica_run.specs.Texts.{TellsMap, TellsShown, head_text};

use erm_follow_run::{push_count, push_number};
use erm_inspect::push_map;
use erm_replica_rows::Replica;
use erm_report::{Line, Text};
use std::alloc::{AllocError, Global};

/// The line of a replica's stamps, then the lines of the map at its safe stamp, and the end.
pub(crate) fn shown_text(alloc: Global, replica: &Replica) -> Result<Vec<u8>, AllocError>
    ensures { IfOk result (λ text. TellsShown (shown replica.now) text.items) }
{
    let mut text = Vec::new(alloc);
    push_head(&mut text, replica)?;
    let lines = map_lines(alloc, replica)?;
    push_lines(alloc, &mut text, &lines)?;
    Ok(text)
}

// Adds the line of a replica's stamps.
fn push_head(text: &mut Vec<u8>, replica: &Replica) -> Result<(), AllocError>
    ensures { OnOk result (text.new.items ≡ text.old.items ++ head_text (shown replica.now)) }
{
    let safe = replica.safe().unwrap_or(0);
    push_count(text, b"replica ", replica.stamp())?;
    push_count(text, b" safe ", safe)?;
    push_number(text, b" rest ", replica.rest() as u64)
}

// The lines of the map at a replica's safe stamp, and the end.
fn map_lines(alloc: Global, replica: &Replica) -> Result<Vec<Line>, AllocError>
    ensures { IfOk result (λ lines. TellsMap (shown replica.now) lines.items) }
{
    let mut lines = Vec::new(alloc);
    match replica.rows() {
        Some(rows) => push_map(alloc, rows.rows, &mut lines)?,
        None => {
            lines.push(Line::Map { pairs: 0 })?;
            lines.push(Line::End)?;
        }
    }
    Ok(lines)
}

// Adds lines.
fn push_lines(alloc: Global, text: &mut Vec<u8>, lines: &[Line]) -> Result<(), AllocError>
    ensures { OnOk result (text.new.items ≡ text.old.items ++ text_of lines.now) }
{
    let mut more = Text::new(alloc);
    for line in lines {
        more.add(line)?;
    }
    text.extend_from_slice(more.as_slice())?;
    Ok(())
}

//! The lines that are printed.
ghost use Rattle.std.specs.Prelude.{◌≡◌, IfOk};
ghost use Rattle.erm_made.specs.Counts.{made_lines};

use crate::Made;
use erm_model::Seat;
use erm_report::Line;
use std::alloc::{AllocError, Global};

/// The lines that tell the counts of a workload of so many transactions and sessions.
pub fn made_lines(
    alloc: Global,
    count: u32,
    sessions: Seat,
    made: &Made,
) -> Result<Vec<Line>, AllocError>
    ensures { IfOk result (λ lines. lines.items ≡ made_lines count sessions made.now) }
{
    let mut lines = Vec::with_capacity(alloc, 6)?;
    lines.push(Line::Made { count, sessions })?;
    lines.push(Line::Committed {
        count: made.committed as usize,
    })?;
    lines.push(Line::Excluded {
        count: made.excluded as usize,
    })?;
    lines.push(Line::Owned {
        count: made.owned as usize,
    })?;
    lines.push(Line::Pairs {
        count: made.pairs as usize,
    })?;
    lines.push(Line::End)?;
    Ok(lines)
}

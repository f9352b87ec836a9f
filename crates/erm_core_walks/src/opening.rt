//! Openings of the machine.
ghost use Rattle.std.specs.Prelude.{IfOk};
ghost use Rattle.erm_core.specs.Ready.{IsReady};

use crate::numbers::{Numbers, cell, seat};
use erm_core::State;
use erm_machine::{MOST_CELLS, OBJECT_LIMIT, SESSIONS, STOP};
use erm_model::ROW_WORDS;
use std::alloc::{AllocError, Global};

/// A machine as it is opened, in run 1, whose rows have 3 for each word. The numbers are how many sessions there are, the place
/// where the log begins, the number of the first object that is made, and how many cells there are.
pub fn open(alloc: Global, numbers: &Numbers) -> Result<State, AllocError>
    ensures { IfOk result IsReady }
{
    let rows = vec![in alloc; [3; ROW_WORDS]; OBJECT_LIMIT as usize]?;
    let sessions = seat(numbers[0]).min(SESSIONS);
    let tail = numbers[1].clamp(1, STOP + 4);
    let first = numbers[2].min(OBJECT_LIMIT as u64);
    let cells = cell(numbers[3]).clamp(OBJECT_LIMIT, MOST_CELLS);
    let state = State::open(alloc, sessions, rows.as_slice(), tail, 1, first, cells)?;
    Ok(state)
}

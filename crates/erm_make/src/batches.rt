//! Batches of transactions.
ghost use Rattle.std.specs.Prelude.{◌≡◌, ◌+◌, ◌*◌, ◌<◌, ◌≤◌, OnOk, vec_len};
ghost use Rattle.erm_make.specs.Draws.{state_after};
ghost use Rattle.erm_make.specs.Workload.{Adds, accesses, all_accesses, batch, flush_after};

use crate::draws::Draws;
use crate::lines::{push, push_begins, push_commits};
use erm_model::{Seat, Value};
use erm_script::{Command, NO_SESSION, ScriptLine};
use std::alloc::AllocError;

/// After so many batches there is a flush.
const FLUSHED: u32 = 64;

/// Adds the lines of a batch, by the number of its first transaction and how many it has.
pub fn push_batch(
    lines: &mut Vec<ScriptLine>,
    draws: &mut Draws,
    first: u32,
    size: Seat,
) -> Result<(), AllocError>
    requires room { vec_len lines.old + 5 * size ≤ u32.MAX }
    requires number { first + size ≤ u32.MAX }
    requires draws { draws.old.state ≡ state_after (2 * first) }
    ensures added { OnOk result (Adds (batch first size) lines.old.items lines.new.items) }
    ensures many { OnOk result (vec_len lines.new ≡ vec_len lines.old + 5 * size) }
    ensures draws { OnOk result (draws.new.state ≡ state_after (2 * (first + size))) }
{
    push_begins(lines, size)?;
    push_all_accesses(lines, draws, first, size)?;
    push_commits(lines, size)
}

// adds what the transactions of a batch read and write
fn push_all_accesses(
    lines: &mut Vec<ScriptLine>,
    draws: &mut Draws,
    first: u32,
    size: Seat,
) -> Result<(), AllocError>
    requires room { vec_len lines.old + 3 * size ≤ u32.MAX }
    requires number { first + size ≤ u32.MAX }
    requires draws { draws.old.state ≡ state_after (2 * first) }
    ensures added { OnOk result (Adds (all_accesses first size) lines.old.items lines.new.items) }
    ensures many { OnOk result (vec_len lines.new ≡ vec_len lines.old + 3 * size) }
    ensures draws { OnOk result (draws.new.state ≡ state_after (2 * (first + size))) }
{
    for place in 0..size {
        push_accesses(lines, draws, place + 1, first + u32::from(place))?;
    }
    Ok(())
}

// adds what one transaction reads and writes
fn push_accesses(
    lines: &mut Vec<ScriptLine>,
    draws: &mut Draws,
    seat: Seat,
    number: u32,
) -> Result<(), AllocError>
    requires room { vec_len lines.old + 3 ≤ u32.MAX }
    requires draws { draws.old.state ≡ state_after (2 * number) }
    ensures added { OnOk result (Adds (accesses seat number) lines.old.items lines.new.items) }
    ensures many { OnOk result (vec_len lines.new ≡ vec_len lines.old + 3) }
    ensures draws { OnOk result (draws.new.state ≡ state_after (2 * (number + 1))) }
{
    let key = draws.draw();
    let other = draws.draw();
    let value = Value::new(&u64::from(number).to_be_bytes()).unwrap();
    push(lines, seat, Command::Get { table: 0, key })?;
    push(
        lines,
        seat,
        Command::Get {
            table: 0,
            key: other,
        },
    )?;
    push(
        lines,
        seat,
        Command::Put {
            table: 0,
            key,
            value,
        },
    )
}

/// Adds the flush that comes after a batch, if one does, by the batch's number from 0.
pub fn push_flush_after(lines: &mut Vec<ScriptLine>, number: u32) -> Result<(), AllocError>
    requires room { vec_len lines.old + 1 ≤ u32.MAX }
    requires number { number < u32.MAX }
    ensures added { OnOk result (Adds (flush_after number) lines.old.items lines.new.items) }
    ensures few { OnOk result (vec_len lines.new ≤ vec_len lines.old + 1) }
{
    if (number + 1) % FLUSHED != 0 {
        return Ok(());
    }
    push(lines, NO_SESSION, Command::Flush)
}

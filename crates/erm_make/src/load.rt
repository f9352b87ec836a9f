//! The load, before the batches.
ghost use Rattle.std.specs.Prelude.{◌≡◌, ◌+◌, ◌<◌, ◌≤◌, OnOk, vec_len};
ghost use Rattle.erm_make.specs.Workload.{Adds, load, load_transaction, loaded, loads};

use crate::lines::push;
use erm_model::{Seat, Value};
use erm_script::{Command, NO_SESSION, ScriptLine};
use std::alloc::AllocError;

/// How many transactions load keys.
const LOADS: u64 = 16;

/// How many keys each of them loads.
const LOADED: u64 = 4;

/// The session that loads.
const LOADER: Seat = 1;

/// Adds the lines of the load.
pub fn push_load(lines: &mut Vec<ScriptLine>) -> Result<(), AllocError>
    requires { vec_len lines.old + 97 ≤ u32.MAX }
    ensures added { OnOk result (Adds load lines.old.items lines.new.items) }
    ensures many { OnOk result (vec_len lines.new ≡ vec_len lines.old + 97) }
{
    push_loads(lines)?;
    push(lines, NO_SESSION, Command::Flush)
}

// adds the transactions that load
fn push_loads(lines: &mut Vec<ScriptLine>) -> Result<(), AllocError>
    requires { vec_len lines.old + 96 ≤ u32.MAX }
    ensures added { OnOk result (Adds (loads 16) lines.old.items lines.new.items) }
    ensures many { OnOk result (vec_len lines.new ≡ vec_len lines.old + 96) }
{
    for number in 0..LOADS {
        push_load_transaction(lines, number)?;
    }
    Ok(())
}

// adds one of them, by its number from 0
fn push_load_transaction(lines: &mut Vec<ScriptLine>, number: u64) -> Result<(), AllocError>
    requires room { vec_len lines.old + 6 ≤ u32.MAX }
    requires number { number < 16 }
    ensures added { OnOk result (Adds (load_transaction number) lines.old.items lines.new.items) }
    ensures many { OnOk result (vec_len lines.new ≡ vec_len lines.old + 6) }
{
    push(lines, LOADER, Command::Begin)?;
    push_loaded(lines, LOADED * number)?;
    push(lines, LOADER, Command::Commit)
}

// adds the lines that load some keys, from the first one on
fn push_loaded(lines: &mut Vec<ScriptLine>, first: u64) -> Result<(), AllocError>
    requires room { vec_len lines.old + 4 ≤ u32.MAX }
    requires first { first < 64 }
    ensures added { OnOk result (Adds (loaded first 4) lines.old.items lines.new.items) }
    ensures many { OnOk result (vec_len lines.new ≡ vec_len lines.old + 4) }
{
    for place in 0..LOADED {
        let value = Value::new(&[]).unwrap();
        push(
            lines,
            LOADER,
            Command::Put {
                table: 0,
                key: first + place,
                value,
            },
        )?;
    }
    Ok(())
}

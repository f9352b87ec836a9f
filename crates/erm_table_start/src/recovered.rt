//! The world over the word table, on rows that were recovered.
ghost use Rattle.std.specs.Prelude.{◌≡◌, ◌≤◌, ◌+◌, ◌<◌, IfOk, length};
ghost use Rattle.erm_model.specs.Rows.{rows_of};
ghost use Rattle.erm_model.specs.RowTransaction.{SameLaw};
ghost use Rattle.erm_model.specs.declared.limits.TheConstants.{LAST_RUN, OID_LIMIT, SESSIONS, STOP, TABLE_CELLS};
ghost use Rattle.erm_node.specs.Sound.{sound_law};
ghost use Rattle.erm_start.specs.Recovered.{IsOpenedLog, IsOpenedWith};
ghost use Rattle.erm_table_world.specs.Stands.{table_log, world_view};

use erm_model::{Row, Seat, Stamp};
use erm_node::SoundRows;
use erm_rule::Opening;
use erm_start::first_object;
use erm_table_world::{TableWorld, standing_worlds_have_laws};
use erm_world::RowWorld;
use std::alloc::{AllocError, Global};

/// A world of so many sessions over the words that threads share, on a row for each object, which are sound. Its log goes on at `tail`,
/// behind the block that opened it, and is written as this run. It has the table's cells, and a call cuts off no more versions than these.
/// `Err` where memory ran out.
pub fn open_table(
    alloc: Global,
    rows: Vec<Row>,
    tail: Stamp,
    run: u64,
    sessions: Seat,
) -> Result<TableWorld<SoundRows>, AllocError>
    requires some { 0 < sessions }
    requires few { sessions ≤ SESSIONS }
    requires rows { length rows.items ≡ OID_LIMIT }
    requires meets { sound_law.meets (rows_of rows.items) }
    requires positive { 13 ≤ tail }
    requires low { tail ≤ STOP + 4 }
    requires run_high { run ≤ LAST_RUN }
    ensures stands { IfOk result ⟦<TableWorld<SoundRows> as RowWorld>⟧.stands }
    ensures law { SameLaw ⟦<TableWorld<SoundRows> as RowWorld>⟧.law sound_law }
    ensures opened { IfOk result (λ w. IsOpenedWith (rows_of rows.items) tail run sessions TABLE_CELLS TABLE_CELLS (world_view w)) }
    ensures log { IfOk result (λ w. IsOpenedLog (rows_of rows.items) tail run (table_log w)) }
{
    erm_node::zero_rows_are_not_reached();
    standing_worlds_have_laws::<SoundRows>();
    let first = first_object(&rows);
    let opening = Opening {
        sessions,
        tail,
        run,
        first,
        rows,
    };
    TableWorld::open(alloc, &opening)
}

//! A world on rows that were recovered.
ghost use Rattle.std.specs.Prelude.{◌≡◌, ◌≤◌, ◌+◌, ◌<◌, IfOk, length};
ghost use Rattle.erm_model.specs.Rows.{rows_of};
ghost use Rattle.erm_model.specs.RowTransaction.{SameLaw};
ghost use Rattle.erm_model.specs.declared.limits.TheConstants.{LAST_RUN, OID_LIMIT, SESSIONS, STOP};
ghost use Rattle.erm_node.specs.Sound.{sound_law};
ghost use Rattle.erm_plain.specs.Logs.{plain_log};
ghost use Rattle.erm_plain.specs.Stands.{plain_view};
ghost use Rattle.erm_start.specs.Recovered.{IsFirstObject, IsOpenedLog, IsOpenedOn};

use erm_model::{OID_LIMIT, Oid, ROW_WORDS, Row, Seat, Stamp, TABLES};
use erm_node::SoundRows;
use erm_plain::Plain;
use erm_world::RowWorld;
use std::alloc::{AllocError, Global};

/// A world of so many sessions on a row for each object, which are sound. Its log goes on at `tail`, behind the block that
/// opened it, and is written as this run. `Err` where memory ran out.
pub fn open_world(
    alloc: Global,
    rows: &[Row],
    tail: Stamp,
    run: u64,
    sessions: Seat,
) -> Result<Plain<SoundRows>, AllocError>
    requires some { 0 < sessions }
    requires few { sessions ≤ SESSIONS }
    requires rows { length rows.now ≡ OID_LIMIT }
    requires meets { sound_law.meets (rows_of rows.now) }
    requires positive { 13 ≤ tail }
    requires low { tail ≤ STOP + 4 }
    requires run_low { 1 ≤ run }
    requires run_high { run ≤ LAST_RUN }
    ensures stands { IfOk result ⟦<Plain<SoundRows> as RowWorld>⟧.stands }
    ensures law { SameLaw ⟦<Plain<SoundRows> as RowWorld>⟧.law sound_law }
    ensures opened { IfOk result (λ p. IsOpenedOn (rows_of rows.now) tail run sessions (plain_view p)) }
    ensures log { IfOk result (λ p. IsOpenedLog (rows_of rows.now) tail run (plain_log p)) }
{
    erm_node::zero_rows_are_not_reached();
    let first = first_object(rows);
    Plain::open(alloc, rows, tail, run, u64::from(first), sessions)
}

/// The first object that a world on these rows makes: one above the greatest one that is in use, or the first behind the tables.
pub fn first_object(rows: &[Row]) -> Oid
    requires { length rows.now ≡ OID_LIMIT }
    ensures { IsFirstObject (rows_of rows.now) result }
{
    let mut first = Oid::from(TABLES);
    for oid in Oid::from(TABLES)..OID_LIMIT {
        if rows[oid as usize] != [0; ROW_WORDS] {
            first = oid + 1;
        }
    }
    first
}

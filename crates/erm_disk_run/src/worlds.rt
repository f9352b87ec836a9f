//! The worlds over which scripts are run on a disk.
ghost use Rattle.std.specs.Prelude.{◌≡◌, ◌≤◌, ◌+◌, ◌<◌, IfOk, length};
ghost use Rattle.erm_model.specs.RowTransaction.{SameLaw};
ghost use Rattle.erm_model.specs.Rows.{rows_of};
ghost use Rattle.erm_model.specs.declared.limits.TheConstants.{LAST_RUN, OID_LIMIT, SESSIONS, STOP};
ghost use Rattle.erm_node.specs.Sound.{sound_law};
ghost use Rattle.erm_start.specs.Recovered.{IsOpenedLog, IsOpenedWith};
ghost use Rattle.erm_disk_run.specs.Limits.{AreLimits, Limits};
ghost use Rattle.erm_disk_run.specs.Worlds.{IsSoundLaw};

use erm_model::{Row, Seat, Stamp};
use erm_node::SoundRows;
use erm_plain::Plain;
use erm_start::open_world;
use erm_table_start::open_table;
use erm_table_world::TableWorld;
use erm_world::ScriptWorld;
use std::alloc::{AllocError, Global};

/// A world that is opened on the rows to which a disk recovers.
pub(crate) trait StartWorld: ScriptWorld + Drop {
    /// How many cells it has, and how many versions a call cuts off at most.
    ghost limits: { Limits };

    /// A world of so many sessions on a row for each object, which are sound. Its log goes on at `tail`, behind the block that opened it,
    /// and is written as this run. `Err` where memory ran out.
    fn start(
        alloc: Global,
        rows: Vec<Row>,
        tail: Stamp,
        run: u64,
        sessions: Seat,
    ) -> Result<Self, AllocError>
        requires some { 0 < sessions }
        requires few { sessions ≤ SESSIONS }
        requires rows { length rows.items ≡ OID_LIMIT }
        requires meets { sound_law.meets (rows_of rows.items) }
        requires positive { 13 ≤ tail }
        requires low { tail ≤ STOP + 4 }
        requires run_low { 1 ≤ run }
        requires run_high { run ≤ LAST_RUN }
        ensures stands { IfOk result Self.stands }
        ensures opened { IfOk result (λ w. IsOpenedWith (rows_of rows.items) tail run sessions limits.cells limits.cuts (Self.view w)) }
        ensures log { IfOk result (λ w. IsOpenedLog (rows_of rows.items) tail run (Self.log w)) };

    /// It has cells enough, and no more than there may be.
    ghost fits: { AreLimits limits };

    /// Its rows are kept sound.
    ghost keeps_sound: { SameLaw Self.law sound_law };

    /// So its log is one of sound rows.
    ghost logs_sound: { IsSoundLaw Self.rows_law };
}

/// The world over the words that threads share. Only its opening takes memory.
impl StartWorld for TableWorld<SoundRows> {
    ghost use Rattle.std.proofs.Common.{arith};
    ghost use Rattle.erm_core_steps.specs.Keeping.{one_law};
    ghost use Rattle.erm_node.specs.Sound.{sound_law};
    ghost use Rattle.erm_disk_run.specs.Limits.{in_table};
    ghost use Rattle.erm_disk_run.specs.Worlds.{sound_is_sound};

    ghost limits = { in_table };

    fn start(
        alloc: Global,
        rows: Vec<Row>,
        tail: Stamp,
        run: u64,
        sessions: Seat,
    ) -> Result<TableWorld<SoundRows>, AllocError> {
        open_table(alloc, rows, tail, run, sessions)
    }

    ghost fits = { record { least = Prim.omega arith; most = Prim.omega arith } };

    ghost keeps_sound = { one_law sound_law };

    ghost logs_sound = { sound_is_sound };
}

/// The world in lists, which grow with each call.
impl StartWorld for Plain<SoundRows> {
    ghost use Rattle.std.proofs.Common.{arith};
    ghost use Rattle.erm_core_steps.specs.Keeping.{one_law};
    ghost use Rattle.erm_node.specs.Sound.{sound_law};
    ghost use Rattle.erm_disk_run.specs.Limits.{in_lists};
    ghost use Rattle.erm_disk_run.specs.Worlds.{sound_is_sound};

    ghost limits = { in_lists };

    fn start(
        alloc: Global,
        rows: Vec<Row>,
        tail: Stamp,
        run: u64,
        sessions: Seat,
    ) -> Result<Plain<SoundRows>, AllocError> {
        open_world(alloc, &rows, tail, run, sessions)
    }

    ghost fits = { record { least = Prim.omega arith; most = Prim.omega arith } };

    ghost keeps_sound = { one_law sound_law };

    ghost logs_sound = { sound_is_sound };
}

//! Rows as of a pin.
ghost use Rattle.std.specs.Prelude.{◌≡◌, ◌<◌, ℕ, length, IfErr, IsSome, OnOk};
ghost use Rattle.erm_log_view.specs.Views.{IsPinned};
ghost use Rattle.erm_model.specs.declared.limits.TheConstants.{OID_LIMIT};
ghost use Rattle.erm_world.specs.Log.{IsWait, Log};
ghost use Rattle.erm_checkpoint.specs.Saved.{AreRowsAt, WaitsFrom};

use erm_flush::WorldLog;
use erm_log_view::PinnedLog;
use erm_model::{OID_LIMIT, Row};
use erm_world::{LogWorld, SeatWait};

/// Reads the row of every object as of the place pinned, of a log that others may go on writing. It waits at the first that isn't known yet.
pub fn read_pinned<V: PinnedLog>(log: &mut V, rows: &mut [Row]) -> Result<(), SeatWait>
    requires stands { V.stands log.old }
    requires pinned { IsPinned V.knows log.old }
    requires count { length rows.old ≡ OID_LIMIT }
    ensures stands { V.stands log.new }
    ensures keeps { V.keeps log.old log.new }
    ensures count { length rows.new ≡ OID_LIMIT }
    ensures same { (l : Log) → V.knows log.old l → V.knows log.new l }
    ensures rows { OnOk result ((l : Log) → V.knows log.old l → AreRowsAt l rows.new) }
    ensures wait { IfErr result (λ wait. WaitsFrom V.knows V.waits log.old wait log.new) }
{
    V::pins_are_known();
    for oid in 0..OID_LIMIT {
        rows[oid as usize] = log.row_at(oid)?;
    }
    Ok(())
}

/// Reads the row of every object as of the place pinned. It waits at the first that isn't known yet.
pub fn read_rows<W: LogWorld>(world: &mut W, rows: &mut [Row]) -> Result<(), SeatWait>
    requires stands { W.log_stands world.old }
    requires pinned { IsSome (W.log world.old).pinned }
    requires count { length rows.old ≡ OID_LIMIT }
    ensures stands { W.log_stands world.new }
    ensures keeps { W.keeps world.old world.new }
    ensures count { length rows.new ≡ OID_LIMIT }
    ensures same { W.log world.new ≡ W.log world.old }
    ensures rows { OnOk result (AreRowsAt (W.log world.old) rows.new) }
    ensures wait { IfErr result (λ wait. (oid : ℕ) × (oid < OID_LIMIT) × IsWait (W.log world.old) oid wait) }
{
    read_pinned(&mut WorldLog { world }, rows)
}

//! The commands `recover` and `audit`.
ghost use Rattle.std.specs.Prelude.{◌≡◌, ◌⊎◌, ℕ, List, Option};
ghost use Rattle.erm_inspect.specs.Audits.{HasAuditForm, IsAudit};
ghost use Rattle.erm_inspect.specs.Recoveries.{HasRecoveryForm, IsRecovery};
ghost use Rattle.erm_top.specs.Inspections.{InspectionEnds};
ghost use Rattle.erm_top.specs.Stopped.{TellsFound};

use crate::Ended;
use crate::printing::{Stop, put_told};
use crate::texts::lines_text;
use erm_inspect::{audited, recovered};
use erm_outside::{Disk, Sink};
use erm_recover::RecoverStop;
use erm_report::{Line, Text};
use std::alloc::Global;

/// Tells what the disk recovers to.
pub fn recover<K: Sink, D: Disk>(alloc: Global, sink: &mut K, disk: D) -> Ended<D>
    ensures { (left : Option (List ℕ)) (faults : ℕ) → InspectionEnds IsRecovery HasRecoveryForm result.status (record {
      left_before = left;
      left_after = left;
      source_before = faults;
      source_after = faults;
      written_before = K.written sink.old;
      written_after = K.written sink.new;
      sink_before = K.faults sink.old;
      sink_after = K.faults sink.new;
      told_before = D.told disk;
      told_after = D.told result.disk;
      disk_before = D.faults disk;
      disk_after = D.faults result.disk;
    }) }
{
    let mut disk = disk;
    let found = recovered(alloc, &mut disk);
    let told = found_text(alloc, found);
    let status = put_told(sink, &told);
    Ended { status, disk }
}

/// Tells the commits of the disk's log, and what it recovers to.
pub fn audit<K: Sink, D: Disk>(alloc: Global, sink: &mut K, disk: D) -> Ended<D>
    ensures { (left : Option (List ℕ)) (faults : ℕ) → InspectionEnds IsAudit HasAuditForm result.status (record {
      left_before = left;
      left_after = left;
      source_before = faults;
      source_after = faults;
      written_before = K.written sink.old;
      written_after = K.written sink.new;
      sink_before = K.faults sink.old;
      sink_after = K.faults sink.new;
      told_before = D.told disk;
      told_after = D.told result.disk;
      disk_before = D.faults disk;
      disk_after = D.faults result.disk;
    }) }
{
    let mut disk = disk;
    let found = audited(alloc, &mut disk);
    let told = found_text(alloc, found);
    let status = put_told(sink, &told);
    Ended { status, disk }
}

// What is to be told of what was found on a disk: the text of its lines, if there are any.
fn found_text(alloc: Global, found: Result<Vec<Line>, RecoverStop>) -> Result<Text, Stop>
    ensures { TellsFound found result }
{
    match found {
        Ok(lines) => Ok(lines_text(alloc, &lines)?),
        Err(RecoverStop::DiskFault) => Err(Stop::DiskFault),
        Err(RecoverStop::NoBase) => Err(Stop::NoBase),
        Err(RecoverStop::Memory) => Err(Stop::Memory),
    }
}

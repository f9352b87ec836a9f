//! The command `checkpoint`.
ghost use Rattle.std.specs.Prelude.{◌≡◌, ℕ, List, Option, IfSome};
ghost use Rattle.erm_disk_run.specs.Found.{IsKept};
ghost use Rattle.erm_disk_run.specs.Saved.{CountsCheckpoint, EndsCheckpoint};
ghost use Rattle.erm_outside.specs.Disk.{Step};
ghost use Rattle.erm_top.specs.Inspections.{CheckpointEnds};
ghost use Rattle.erm_top.specs.Stopped.{TellsSaved};

use crate::Ended;
use crate::printing::{Stop, put_told};
use crate::texts::{lines_text, not_opened};
use erm_disk_run::{DiskStop, OnDisk, checkpoint_on_disk};
use erm_outside::{Disk, Sink};
use erm_recover::SoundTest;
use erm_report::{Line, Text};
use std::alloc::Global;

/// Takes a checkpoint of the disk, and tells where.
pub fn checkpoint<K: Sink, D: Disk>(alloc: Global, sink: &mut K, disk: D) -> Ended<D>
    requires kept { IfSome (D.told disk) IsKept }
    ensures { (left : Option (List ℕ)) (faults : ℕ) → CheckpointEnds result.status (record {
      left_before = left;
      left_after = left;
      source_before = faults;
      source_after = faults;
      written_before = K.written sink.old;
      written_after = K.written sink.new;
      sink_before = K.faults sink.old;
      sink_after = K.faults sink.new;
      told_before = D.told disk;
      told_after = D.told result.disk;
      disk_before = D.faults disk;
      disk_after = D.faults result.disk;
    }) }
{
    erm_ckpt::one_recovery::<SoundTest>();
    let OnDisk { disk, ended } = checkpoint_on_disk(alloc, disk);
    let told = checkpoint_text(alloc, ended);
    let status = put_told(sink, &told);
    Ended { status, disk }
}

// What is to be told of a checkpoint: the text of its lines, if it was taken.
fn checkpoint_text(alloc: Global, ended: Result<Vec<Line>, DiskStop>) -> Result<Text, Stop>
    ensures { (before after : Option (List Step)) (faults now : ℕ) → EndsCheckpoint ended before after → CountsCheckpoint ended faults now
        → TellsSaved result before after faults now }
{
    match ended {
        Ok(lines) => Ok(lines_text(alloc, &lines)?),
        Err(stop) => Err(not_opened(alloc, stop)),
    }
}

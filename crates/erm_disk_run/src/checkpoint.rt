//! A checkpoint of a disk.
ghost use Rattle.std.specs.Prelude.{◌≡◌, ◌≤◌, [], ◌∷◌, IfSome, vec_capacity};
ghost use Rattle.erm_report.specs.declared.line.Line.TheVariants as line;
ghost use Rattle.erm_disk_run.specs.Found.{IsKept};
ghost use Rattle.erm_disk_run.specs.Saved.{CountsCheckpoint, EndsCheckpoint};

use crate::opening::{Opened, open_disk};
use crate::{DiskStop, OnDisk};
use erm_model::Stamp;
use erm_node::SoundRows;
use erm_outside::Disk;
use erm_report::Line;
use erm_table_world::TableWorld;
use std::alloc::Global;

/// Recovers a disk, opens its log for the next run, and takes a checkpoint. It gives the lines that tell where.
pub fn checkpoint_on_disk<D: Disk>(alloc: Global, mut disk: D) -> OnDisk<D, DiskStop>
    requires kept { IfSome (D.told disk) IsKept }
    ensures ended { EndsCheckpoint result.ended (D.told disk) (D.told result.disk) }
    ensures counts { CountsCheckpoint result.ended (D.faults disk) (D.faults result.disk) }
{
    let ended = open_and_save(alloc, &mut disk);
    OnDisk { disk, ended }
}

// The same of a disk that is lent.
fn open_and_save<D: Disk>(alloc: Global, disk: &mut D) -> Result<Vec<Line>, DiskStop>
    requires kept { IfSome (D.told disk.old) IsKept }
    ensures ended { EndsCheckpoint result (D.told disk.old) (D.told disk.new) }
    ensures counts { CountsCheckpoint result (D.faults disk.old) (D.faults disk.new) }
{
    erm_crash::checkpoints_keep::<SoundRows>();
    erm_crash::kept_images_may_open::<SoundRows>();
    erm_node::same_rows_same_map();
    let lines = Vec::with_capacity(alloc, 3)?;
    let Opened {
        mut world,
        start,
        mut flusher,
        mut checkpointer,
        mut slots,
    } = open_disk::<TableWorld<SoundRows>, D>(alloc, disk, 1)?;
    match checkpointer.checkpoint_turn(&mut flusher, disk, &mut world, &mut slots, start.run) {
        Ok(place) => Ok(checkpoint_lines(lines, start.stamp, start.run, place)),
        // All is decided in a log that was just opened: only a fault stops the checkpoint.
        Err(_) => Err(DiskStop::DiskFault),
    }
}

// The lines of a checkpoint, put into some that are empty and have room for them.
fn checkpoint_lines(mut lines: Vec<Line>, stamp: Stamp, run: u64, place: Stamp) -> Vec<Line>
    requires none { lines.items ≡ [] }
    requires room { 3 ≤ vec_capacity lines }
    ensures { result.items ≡ line.Open stamp run ∷ line.Checkpointed place ∷ line.End ∷ [] }
{
    let _ = lines.push(Line::Open { stamp, run });
    let _ = lines.push(Line::Checkpointed { stamp: place });
    let _ = lines.push(Line::End);
    lines
}

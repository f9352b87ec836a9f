//! Opening a disk: what is found on it, and a world there, whose log goes on in the next run.
ghost use Rattle.std.specs.Prelude.{◌≡◌, ◌<◌, ◌≤◌, IfErr, IfOk, IfSome, OnOk};
ghost use Rattle.erm_ckpt.specs.Recovered.{State};
ghost use Rattle.erm_model.specs.declared.limits.TheConstants.{SESSIONS};
ghost use Rattle.erm_disk_run.specs.Found.{IsKept};
ghost use Rattle.erm_disk_run.specs.Opened.{WasOpened};
ghost use Rattle.erm_disk_run.specs.Stops.{CountsStop, StopsRun};

use crate::DiskStop;
use crate::log::{OpenedLog, open_log_on_disk};
use crate::worlds::StartWorld;
use erm_checkpoint::Checkpointer;
use erm_ckpt::Slots;
use erm_flush::Flusher;
use erm_model::Seat;
use erm_node::SoundRows;
use erm_outside::Disk;
use erm_summary::Start;
use std::alloc::Global;

/// A disk's log that was just opened for the next run: a world on what was found, and what keeps the log on the disk.
#[derive(Drop)]
pub(crate) struct Opened<W> {
    /// The world, whose log goes on behind the block that opened it.
    pub world: W,
    /// What a report of the run starts from.
    pub start: Start,
    /// Writes the log to the disk.
    pub flusher: Flusher,
    /// Takes checkpoints of the log.
    pub checkpointer: Checkpointer,
    /// What the disk's two slots say.
    pub slots: Slots,
}

/// Recovers a disk, opens its log for the next run, and a world of so many sessions behind the block that opens it. Where it stops it
/// says why, and has done no more to the disk than to wait for what was pending and to open its log, so that it recovers to the map found, if
/// anything was found.
pub(crate) fn open_disk<W: StartWorld, D: Disk>(
    alloc: Global,
    disk: &mut D,
    sessions: Seat,
) -> Result<Opened<W>, DiskStop>
    requires some { 0 < sessions }
    requires few { sessions ≤ SESSIONS }
    requires kept { IfSome (D.told disk.old) IsKept }
    ensures opened { IfOk result (λ o. (state : State) × WasOpened W.limits (D.told disk.old) (D.told disk.new) state sessions (W.view o.world) (W.log o.world) o) }
    ensures stands { IfOk result (λ o. W.stands o.world) }
    ensures stops { IfErr result (λ stop. StopsRun stop (D.told disk.old) (D.told disk.new)) }

    // The disk's count of faults rises exactly where a fault is why it stops.
    ensures counts { IfErr result (λ stop. CountsStop stop (D.faults disk.old) (D.faults disk.new)) }
    ensures sound { OnOk result (D.faults disk.new ≡ D.faults disk.old) }
{
    erm_crash::kept_images_may_open::<SoundRows>();
    let flusher = Flusher::new(alloc)?;
    let checkpointer = Checkpointer::new(alloc)?;
    let OpenedLog {
        rows,
        tail,
        start,
        slots,
    } = open_log_on_disk(alloc, disk)?;
    let world = W::start(alloc, rows, tail, start.run, sessions)?;
    Ok(Opened {
        world,
        start,
        flusher,
        checkpointer,
        slots,
    })
}

//! Checkpoints of disks in memory.
use crate::told::{empty, is_told, stopping};
use erm_disk_run::{DiskStop, checkpoint_on_disk};
use erm_outside::{Disk, Failed, File};
use erm_outside_mem::{MemDisk, Pick, Silent};
use erm_report::Line;
use std::alloc::{AllocError, Global};
use std::test::Fail;

// What is told where a checkpoint is taken again and again, of a disk that was empty at first.
const TOLD: [&str; 4] = [
    "open 8 run 1\ncheckpoint 13\nend\n",
    "open 13 run 2\ncheckpoint 18\nend\n",
    "open 18 run 3\ncheckpoint 23\nend\n",
    "open 23 run 4\ncheckpoint 28\nend\n",
];

// The first of these texts that isn't told.
fn first_untold(alloc: Global) -> Result<Option<&'static str>, AllocError> {
    let mut disk = empty(alloc);
    for told in TOLD {
        let taken = checkpoint_on_disk(alloc, disk);
        disk = taken.disk;
        if !is_told(alloc, taken.ended.ok(), told)? {
            return Ok(Some(told));
        }
    }
    Ok(None)
}

#[test]
fn checkpoints_go_on(rt: HostRuntime) -> Result<(), Fail> {
    assert_eq!(rt; first_untold(rt.alloc())?, None);
    Ok(())
}

fn is_fault(ended: Result<Vec<Line>, DiskStop>) -> bool {
    matches!(ended, Err(DiskStop::DiskFault))
}

fn has_no_base(ended: Result<Vec<Line>, DiskStop>) -> bool {
    matches!(ended, Err(DiskStop::NoBase))
}

// So many calls take a checkpoint of an empty disk: the slots are read, three lengths and the log; removals are waited for, these files, and a
// segment more; and then the log and the slot are written, and each is waited for.
const CALLS: u64 = 15;

#[test]
fn faults_stop_checkpoints(rt: HostRuntime) -> Result<(), Fail> {
    for calls in 0..CALLS {
        let disk = stopping(rt.alloc(), calls);
        assert!(rt;
            is_fault(checkpoint_on_disk(rt.alloc(), disk).ended),
            "{calls}"
        );
    }
    let mut disk = empty(rt.alloc());
    disk.write(File::Slot0, 0, b"x")?;
    assert!(rt; has_no_base(checkpoint_on_disk(rt.alloc(), disk).ended));
    Ok(())
}

// A segment that no opening can name.
const FAR: File = File::Segment(9);

// A disk from which it is removed, which is the last thing done to it.
fn removed(alloc: Global) -> Result<MemDisk, Failed> {
    let mut disk = MemDisk::new(alloc);
    disk.write(FAR, 0, b"x")?;
    disk.sync(FAR)?;
    disk.remove(FAR)?;
    Ok(disk)
}

// Whether a crash that keeps only what was waited for leaves so many bytes of it.
fn leaves(disk: &MemDisk, bytes: u64) -> Result<bool, AllocError> {
    Ok(disk.image(Pick::Nothing)?.len(FAR) == Ok(bytes))
}

// The next run waits for the removal before it writes.
#[test]
fn openings_wait_for_removals(rt: HostRuntime) -> Result<(), Fail> {
    let disk = removed(rt.alloc())?;
    assert!(rt; leaves(&disk, 1)?);
    let taken = checkpoint_on_disk(rt.alloc(), Silent { disk });
    assert!(rt; taken.ended.is_ok() && leaves(&taken.disk.disk, 0)?);
    Ok(())
}

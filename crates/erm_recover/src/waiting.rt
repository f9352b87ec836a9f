//! What an opening waits for before it writes: what recovery read, and removals, which an earlier run may have left pending.
ghost use Rattle.std.specs.Prelude.{◌≡◌, IfSome, OnErr, OnOk};
ghost use Rattle.erm_outside.specs.Disk.{IsSettled, OnlyWaits, Tells};
ghost use Rattle.erm_outside.specs.Faults.{Rose};
ghost use Rattle.erm_recover.specs.Waiting.{IsSettledBeyond, IsSettledIn};

use erm_model::{SEGMENT_WORDS, Stamp};
use erm_outside::{Disk, Failed, File};

/// Waits until all lasts of what recovery may have read from a base on, up to a place: both slots, and the segments up to the one
/// behind that of the place; and until each removal lasts that was the last thing done to its file. It writes nothing, and takes no memory.
pub(crate) fn sync_pending<D: Disk>(disk: &mut D, base: Stamp, place: Stamp) -> Result<(), Failed>
    requires beyond { IfSome (D.told disk.old) (IsSettledBeyond base place) }

    // Nothing else is done, whatever comes of it.
    ensures waits { Tells OnlyWaits (D.told disk.old) (D.told disk.new) }
    ensures settled { OnOk result (IfSome (D.told disk.new) IsSettled) }

    // The disk's count of faults rises exactly where the call fails.
    ensures sound { OnOk result (D.faults disk.new ≡ D.faults disk.old) }
    ensures failed { OnErr result (Rose (D.faults disk.old) (D.faults disk.new)) }
{
    disk.sync_removals()?;
    disk.sync(File::Slot0)?;
    disk.sync(File::Slot1)?;
    sync_segments(disk, base / SEGMENT_WORDS, place / SEGMENT_WORDS + 2)
}

// Waits for each segment from `first` up to below `end`.
fn sync_segments<D: Disk>(disk: &mut D, first: u64, end: u64) -> Result<(), Failed>
    ensures waits { Tells OnlyWaits (D.told disk.old) (D.told disk.new) }
    ensures settled { OnOk result (IfSome (D.told disk.new) (IsSettledIn first end)) }
    ensures sound { OnOk result (D.faults disk.new ≡ D.faults disk.old) }
    ensures failed { OnErr result (Rose (D.faults disk.old) (D.faults disk.new)) }
{
    for number in first..end {
        disk.sync(File::Segment(number))?;
    }
    Ok(())
}

//! Segments of the log, removed.
ghost use Rattle.std.specs.Prelude.{◌≡◌, ◌<◌, ◌≤◌, IfOk, IfSome, OnErr, OnOk};
ghost use Rattle.erm_outside.specs.Disk.{Tells, contents};
ghost use Rattle.erm_outside.specs.Faults.{Rose};
ghost use Rattle.erm_checkpoint.specs.Steps.{IsNextBelow, RemovesAll, RemovesOne, RemovesPart, StartsRemoval};

use erm_outside::{Disk, Failed, File};

/// Removes each segment from `first` up to below `end` that has bytes, the least first, and waits for each removal. It asks the
/// disk for no other segment, and takes no memory.
pub fn remove_segments<D: Disk>(disk: &mut D, first: u64, end: u64) -> Result<(), Failed>
    ensures removed { OnOk result (Tells (RemovesAll first end) (D.told disk.old) (D.told disk.new)) }
    ensures part { OnErr result (Tells (RemovesPart first end) (D.told disk.old) (D.told disk.new)) }

    // The disk's count of faults rises exactly where the call fails.
    ensures sound { OnOk result (D.faults disk.new ≡ D.faults disk.old) }
    ensures failed { OnErr result (Rose (D.faults disk.old) (D.faults disk.new)) }
{
    let mut from = first;
    while let Some(segment) = next_below(disk, from, end)? {
        remove_one(disk, segment)?;
        from = segment + 1;
    }
    Ok(())
}

// The least segment from `from` up to below `end` that has bytes.
fn next_below<D: Disk>(disk: &mut D, from: u64, end: u64) -> Result<Option<u64>, Failed>
    ensures within { IfOk result (λ found. IfSome found (λ n. (from ≤ n) × (n < end))) }
    ensures next { IfOk result (λ found. IfSome (D.told disk.old) (λ steps. IsNextBelow (contents steps) from end found)) }
    ensures told { D.told disk.new ≡ D.told disk.old }
    ensures sound { OnOk result (D.faults disk.new ≡ D.faults disk.old) }
    ensures failed { OnErr result (Rose (D.faults disk.old) (D.faults disk.new)) }
{
    match disk.next_segment(from)? {
        Some(segment) if segment < end => Ok(Some(segment)),
        _ => Ok(None),
    }
}

// Removes a segment, and waits until it lasts.
fn remove_one<D: Disk>(disk: &mut D, segment: u64) -> Result<(), Failed>
    ensures removed { OnOk result (Tells (RemovesOne segment) (D.told disk.old) (D.told disk.new)) }
    ensures part { OnErr result (Tells (StartsRemoval segment) (D.told disk.old) (D.told disk.new)) }
    ensures sound { OnOk result (D.faults disk.new ≡ D.faults disk.old) }
    ensures failed { OnErr result (Rose (D.faults disk.old) (D.faults disk.new)) }
{
    disk.remove(File::Segment(segment))?;
    disk.sync(File::Segment(segment))
}

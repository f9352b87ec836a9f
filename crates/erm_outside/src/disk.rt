//! Where the log and the checkpoints lie.
ghost use Rattle.std.specs.Prelude.{◌≡◌, ◌≤◌, ◌⊎◌, ℕ, List, Option, length, IfOk, OnOk, OnErr, IfSome};
ghost use Rattle.erm_outside.specs.Disk.{Change, Step, contents, Does, MayTry, OnlyWaits, Reads, RemovalsLast, Tells, IsNextSegment};
ghost use Rattle.erm_outside.specs.Disk.Change.{Wrote, Synced, Removed};
ghost use Rattle.erm_outside.specs.Faults.{Rose};

use crate::Failed;

/// A file of the store.
#[derive(Clone, Copy, Debug, PartialEq, Eq, PartialOrd, Ord)]
pub enum File {
    /// The first checkpoint slot.
    Slot0,
    /// The second checkpoint slot.
    Slot1,
    /// A segment of the log, by its number.
    Segment(u64),
}

/// A folder of files that are read and written at places. A file that isn't there is empty.
///
/// Between two calls of `sync` for a file a crash may leave any bytes where it was written and past its old end; its
/// other bytes stay. After a removal that isn't synced the file may still be whole.
///
/// Any call may answer `Failed`, for causes of the disk's own, of which the trait says nothing: want of memory may be one.
/// The count of faults rises exactly then; and what the call leaves behind is said at each. A call that answers `Ok` had
/// its whole effect. Whoever calls may ask again, but can't tell by a `Failed` how much of a write or a removal was done.
pub trait Disk {
    /// How often it has failed. It stands still at 2^64 - 1.
    ghost faults: { Self → ℕ };

    /// What was done to it since it was empty, the newest first, or `None` where it doesn't tell. What reads give, and
    /// what a crash may leave at each moment, follow.
    ghost told: { Self → Option (List Step) };

    /// The length of a file, in bytes.
    fn len(&mut self, file: File) -> Result<u64, Failed>
        ensures length { IfOk result (λ n. IfSome (told self.old) (λ steps. n ≡ length (contents steps file))) }
        ensures told { told self.new ≡ told self.old }

        // The count rises exactly where the call fails.
        ensures sound { OnOk result (faults self.new ≡ faults self.old) }
        ensures failed { OnErr result (Rose (faults self.old) (faults self.new)) };

    /// Reads bytes from `at` on into `buf`: as many as there are, at most as many as fit. It answers how many.
    fn read(&mut self, file: File, at: u64, buf: &mut [u8]) -> Result<usize, Failed>
        ensures within { IfOk result (λ n. n ≤ length buf.old) }
        ensures bytes { IfOk result (λ n. IfSome (told self.old) (λ steps. Reads (contents steps file) at n buf.old buf.new)) }
        ensures told { told self.new ≡ told self.old }
        ensures sound { OnOk result (faults self.new ≡ faults self.old) }
        ensures failed { OnErr result (Rose (faults self.old) (faults self.new)) };

    /// The least segment at or above `from` that has bytes, if one has.
    fn next_segment(&mut self, from: u64) -> Result<Option<u64>, Failed>
        ensures above { IfOk result (λ found. IfSome found (λ n. from ≤ n)) }
        ensures next { IfOk result (λ found. IfSome (told self.old) (λ steps. IsNextSegment (contents steps) from found)) }
        ensures told { told self.new ≡ told self.old }
        ensures sound { OnOk result (faults self.new ≡ faults self.old) }
        ensures failed { OnErr result (Rose (faults self.old) (faults self.new)) };

    /// Writes bytes from `at` on; a write of no bytes changes nothing. Where `at` lies behind the file's end, zeros come
    /// between. A call that fails did nothing, or left some bytes in the range.
    fn write(&mut self, file: File, at: u64, bytes: &[u8]) -> Result<(), Failed>
        ensures told { OnOk result (Does file (Wrote at bytes.now) (told self.old) (told self.new)) }
        ensures tried { OnErr result (MayTry file at bytes.now (told self.old) (told self.new)) }
        ensures sound { OnOk result (faults self.new ≡ faults self.old) }
        ensures failed { OnErr result (Rose (faults self.old) (faults self.new)) };

    /// Waits until what was done to a file lasts, also that it isn't there. A call that fails did nothing.
    fn sync(&mut self, file: File) -> Result<(), Failed>
        ensures told { OnOk result (Does file Synced (told self.old) (told self.new)) }
        ensures tried { OnErr result (told self.new ≡ told self.old) }
        ensures sound { OnOk result (faults self.new ≡ faults self.old) }
        ensures failed { OnErr result (Rose (faults self.old) (faults self.new)) };

    /// Removes a file, which is empty from then on, if it is there. A call that fails has removed it or did nothing.
    fn remove(&mut self, file: File) -> Result<(), Failed>
        ensures told { OnOk result (Does file Removed (told self.old) (told self.new)) }
        ensures tried { OnErr result ((told self.new ≡ told self.old) ⊎ Does file Removed (told self.old) (told self.new)) }
        ensures sound { OnOk result (faults self.new ≡ faults self.old) }
        ensures failed { OnErr result (Rose (faults self.old) (faults self.new)) };

    /// Waits until each removal lasts behind which nothing was done to its file, of whatever file: also of one that the caller can't name,
    /// as it reads as empty. It may wait for more; and nothing else is done, also by a call that fails.
    fn sync_removals(&mut self) -> Result<(), Failed>
        ensures waits { Tells OnlyWaits (told self.old) (told self.new) }
        ensures last { OnOk result (IfSome (told self.new) RemovalsLast) }
        ensures sound { OnOk result (faults self.new ≡ faults self.old) }
        ensures failed { OnErr result (Rose (faults self.old) (faults self.new)) };
}

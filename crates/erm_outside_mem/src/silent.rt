//! A disk that tells nothing.
ghost use Rattle.std.specs.Prelude.{◌≡◌, ◌≤◌, ◌⊎◌, length, None, IfOk, OnOk, OnErr, IfSome};
ghost use Rattle.erm_outside.specs.Disk.{contents, Does, MayTry, OnlyWaits, Reads, RemovalsLast, Tells, IsNextSegment};
ghost use Rattle.erm_outside.specs.Disk.Change.{Wrote, Synced, Removed};
ghost use Rattle.erm_outside.specs.Faults.{Rose};

use erm_outside::{Disk, Failed, File};

/// Another disk, of which nothing is told but its faults. Each call is passed on, and does to that disk what it does there.
#[derive(Drop)]
pub struct Silent<D: Disk> {
    /// The disk.
    pub disk: D,
}

impl<D: Disk> Disk for Silent<D> {
    ghost faults = { λ silent. D.faults silent.disk };

    ghost told = { λ _. None };

    fn len(&mut self, file: File) -> Result<u64, Failed>
        ensures length { IfOk result (λ n. IfSome (D.told self.old.disk) (λ steps. n ≡ length (contents steps file))) }
        ensures told { D.told self.new.disk ≡ D.told self.old.disk }
        ensures sound { OnOk result (D.faults self.new.disk ≡ D.faults self.old.disk) }
        ensures failed { OnErr result (Rose (D.faults self.old.disk) (D.faults self.new.disk)) }
    {
        self.disk.len(file)
    }

    fn read(&mut self, file: File, at: u64, buf: &mut [u8]) -> Result<usize, Failed>
        ensures within { IfOk result (λ n. n ≤ length buf.old) }
        ensures bytes { IfOk result (λ n. IfSome (D.told self.old.disk) (λ steps. Reads (contents steps file) at n buf.old buf.new)) }
        ensures told { D.told self.new.disk ≡ D.told self.old.disk }
        ensures sound { OnOk result (D.faults self.new.disk ≡ D.faults self.old.disk) }
        ensures failed { OnErr result (Rose (D.faults self.old.disk) (D.faults self.new.disk)) }
    {
        self.disk.read(file, at, buf)
    }

    fn next_segment(&mut self, from: u64) -> Result<Option<u64>, Failed>
        ensures above { IfOk result (λ found. IfSome found (λ n. from ≤ n)) }
        ensures next { IfOk result (λ found. IfSome (D.told self.old.disk) (λ steps. IsNextSegment (contents steps) from found)) }
        ensures told { D.told self.new.disk ≡ D.told self.old.disk }
        ensures sound { OnOk result (D.faults self.new.disk ≡ D.faults self.old.disk) }
        ensures failed { OnErr result (Rose (D.faults self.old.disk) (D.faults self.new.disk)) }
    {
        self.disk.next_segment(from)
    }

    fn write(&mut self, file: File, at: u64, bytes: &[u8]) -> Result<(), Failed>
        ensures told { OnOk result (Does file (Wrote at bytes.now) (D.told self.old.disk) (D.told self.new.disk)) }
        ensures tried { OnErr result (MayTry file at bytes.now (D.told self.old.disk) (D.told self.new.disk)) }
        ensures sound { OnOk result (D.faults self.new.disk ≡ D.faults self.old.disk) }
        ensures failed { OnErr result (Rose (D.faults self.old.disk) (D.faults self.new.disk)) }
    {
        self.disk.write(file, at, bytes)
    }

    fn sync(&mut self, file: File) -> Result<(), Failed>
        ensures told { OnOk result (Does file Synced (D.told self.old.disk) (D.told self.new.disk)) }
        ensures tried { OnErr result (D.told self.new.disk ≡ D.told self.old.disk) }
        ensures sound { OnOk result (D.faults self.new.disk ≡ D.faults self.old.disk) }
        ensures failed { OnErr result (Rose (D.faults self.old.disk) (D.faults self.new.disk)) }
    {
        self.disk.sync(file)
    }

    fn remove(&mut self, file: File) -> Result<(), Failed>
        ensures told { OnOk result (Does file Removed (D.told self.old.disk) (D.told self.new.disk)) }
        ensures tried { OnErr result ((D.told self.new.disk ≡ D.told self.old.disk) ⊎ Does file Removed (D.told self.old.disk) (D.told self.new.disk)) }
        ensures sound { OnOk result (D.faults self.new.disk ≡ D.faults self.old.disk) }
        ensures failed { OnErr result (Rose (D.faults self.old.disk) (D.faults self.new.disk)) }
    {
        self.disk.remove(file)
    }

    fn sync_removals(&mut self) -> Result<(), Failed>
        ensures waits { Tells OnlyWaits (D.told self.old.disk) (D.told self.new.disk) }
        ensures last { OnOk result (IfSome (D.told self.new.disk) RemovalsLast) }
        ensures sound { OnOk result (D.faults self.new.disk ≡ D.faults self.old.disk) }
        ensures failed { OnErr result (Rose (D.faults self.old.disk) (D.faults self.new.disk)) }
    {
        self.disk.sync_removals()
    }
}

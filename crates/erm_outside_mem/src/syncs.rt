//! How often files are synced.
ghost use Rattle.std.specs.Prelude.{◌≡◌, ◌+◌, ◌-◌, ◌<◌, ◌^◌, if◌then◌else◌, true, IfOk, OnOk};
ghost use Rattle.std.specs.BTreeMap.{get};
ghost use Rattle.std.specs.Map.{count_at};
ghost use Rattle.erm_outside.specs.declared.disk.File.{File as DiskFile};
ghost use Rattle.erm_outside.specs.contracts.disk.FileOrd.TheImpl as file_order;
ghost use Rattle.erm_outside.specs.Disk.{same_file};
ghost use Rattle.erm_outside_mem.specs.Syncs.{is_sync as syncs, syncs_in, with_sync};

use crate::notes::{Done, Work};
use erm_outside::File;
use std::alloc::{AllocError, Global};
use std::collections::BTreeMap;

/// A number for each file, 0 where there is none.
pub type Counts = BTreeMap<File, usize>;

/// Whether a note is that of a sync.
pub fn is_sync(work: &Work) -> bool
    ensures { result ≡ syncs work.now }
{
    matches!(work, Work::Synced)
}

/// The number of a file.
pub fn count_of(counts: &Counts, file: File) -> usize
    ensures { result ≡ count_at (get file_order.ghosts.cmp counts.now) file }
{
    counts.get(&file).copied().unwrap_or(0)
}

/// Sets the number of a file.
pub fn set_count(counts: &mut Counts, file: File, count: usize) -> Result<(), AllocError>
    ensures { OnOk result ((other : DiskFile) → count_at (get file_order.ghosts.cmp counts.new) other
        ≡ (if same_file file other then count else count_at (get file_order.ghosts.cmp counts.old) other)) }
{
    counts.insert(file, count)?;
    Ok(())
}

// Counts a note, if it is that of a sync.
fn count_note(counts: &mut Counts, note: &Done) -> Result<(), AllocError>
    requires { with_sync true (syncs note.now.work) (count_at (get file_order.ghosts.cmp counts.old) note.now.file) < 2 ^ 64 }
    ensures { OnOk result ((other : DiskFile) → count_at (get file_order.ghosts.cmp counts.new) other
        ≡ with_sync (same_file note.now.file other) (syncs note.now.work) (count_at (get file_order.ghosts.cmp counts.old) other)) }
{
    if is_sync(&note.work) {
        let count = count_of(counts, note.file);
        set_count(counts, note.file, count + 1)?;
    }
    Ok(())
}

/// How often these notes sync each file.
pub fn count_syncs(alloc: Global, done: &[Done]) -> Result<Counts, AllocError>
    ensures { IfOk result (λ counts. (file : DiskFile) → count_at (get file_order.ghosts.cmp counts) file ≡ syncs_in file done.now) }
{
    let mut counts = BTreeMap::new(alloc);
    for note in done {
        count_note(&mut counts, note)?;
    }
    Ok(counts)
}

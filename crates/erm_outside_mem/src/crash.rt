//! What a crash leaves of a disk in memory.
ghost use Rattle.std.specs.Prelude.{◌≡◌, ◌==◌, ◌-◌, List, if◌then◌else◌, IfOk, OnOk};
ghost use Rattle.std.specs.BTreeMap.{get};
ghost use Rattle.std.specs.Map.{count_at};
ghost use Rattle.erm_outside.specs.declared.disk.File.{File as DiskFile};
ghost use Rattle.erm_outside.specs.contracts.disk.FileOrd.TheImpl as file_order;
ghost use Rattle.erm_outside.specs.Disk.{same_file, changes_of, contents, IsImage, IsSettled, Same};
ghost use Rattle.erm_outside_mem.specs.DiskNotes.{change_of, empty_disk, steps_of};
ghost use Rattle.erm_outside_mem.specs.declared.picks.Pick.TheVariants.{All};
ghost use Rattle.erm_outside_mem.specs.Picks.{played, picked, how_of};
ghost use Rattle.erm_outside_mem.specs.Syncs.{is_sync as syncs, less_sync};

use crate::MemDisk;
use crate::notes::Done;
use crate::picks::Pick;
use crate::syncs::{Counts, count_of, count_syncs, is_sync, set_count};
use std::alloc::{AllocError, Global};

// Counts a note off, if it is that of a sync.
fn count_off(left: &mut Counts, note: &Done) -> Result<(), AllocError>
    ensures { OnOk result ((other : DiskFile) → count_at (get file_order.ghosts.cmp left.new) other
        ≡ less_sync (same_file note.now.file other) (syncs note.now.work) (count_at (get file_order.ghosts.cmp left.old) other)) }
{
    if is_sync(&note.work) {
        let count = count_of(left, note.file);
        set_count(left, note.file, count.saturating_sub(1))?;
    }
    Ok(())
}

// How a note is played: whole where its file is synced after it, else as the pick says.
fn how(left: &Counts, note: &Done, pick: Pick) -> Pick
    ensures { result ≡ how_of (count_at (get file_order.ghosts.cmp left.now) note.now.file == 0) pick }
{
    if count_of(left, note.file) == 0 {
        pick
    } else {
        Pick::All
    }
}

// Plays a note on the disk that a crash leaves, where so many syncs of each file are left from it on.
fn play_note(
    image: &mut MemDisk,
    left: &mut Counts,
    note: &Done,
    pick: Pick,
) -> Result<(), AllocError>
    ensures counts { OnOk result ((other : DiskFile) → count_at (get file_order.ghosts.cmp left.new) other
        ≡ less_sync (same_file note.now.file other) (syncs note.now.work) (count_at (get file_order.ghosts.cmp left.old) other)) }
    ensures lands { OnOk result ((other : DiskFile) → contents image.new.steps other
        ≡ (if same_file note.now.file other
        then played (how_of (count_at (get file_order.ghosts.cmp left.old) note.now.file == 0) pick) (change_of note.now.work) (contents image.old.steps other)
        else contents image.old.steps other)) }
    ensures settled { OnOk result (IsSettled image.old.steps → IsSettled image.new.steps) }
    ensures others { image.new ≡ record image.old { steps = image.new.steps; room = image.new.room } }
{
    let how = how(left, note, pick);
    image.land(note, how)?;
    count_off(left, note)
}

/// The disk that a crash leaves after these notes, as a pick says.
pub fn play(alloc: Global, done: &[Done], pick: Pick) -> Result<MemDisk, AllocError>
    ensures image { IfOk result (λ disk. IsImage (steps_of done.now) (contents disk.steps)) }
    ensures picked { IfOk result (λ disk. (file : DiskFile) → contents disk.steps file ≡ picked pick (changes_of file (steps_of done.now))) }
    ensures all { IfOk result (λ disk. pick ≡ All → Same (contents disk.steps) (contents (steps_of done.now))) }
    ensures settled { IfOk result (λ disk. IsSettled disk.steps) }
    ensures fresh { IfOk result (λ disk. disk ≡ record empty_disk { steps = disk.steps; room = disk.room }) }
{
    let mut left = count_syncs(alloc, done)?;
    let mut image = MemDisk::new(alloc);
    for note in done {
        play_note(&mut image, &mut left, note, pick)?;
    }
    Ok(image)
}

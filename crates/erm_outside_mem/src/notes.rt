//! What was done to a disk in memory, as it notes it.
ghost use Rattle.std.specs.Prelude.{◌≡◌, ◌≤◌, ◌++◌, [], ◌∷◌, List, length, IsTrue, OnOk, OnErr, vec_capacity, ◌↔◌};
ghost use Rattle.erm_outside.specs.Disk.{OnlyWaits, RemovalsLast};
ghost use Rattle.erm_outside_mem.specs.DiskNotes.{IsRemoval, change_of, steps_of};
ghost use Rattle.erm_outside_mem.specs.declared.notes.Done.{Done as DoneNote};

use erm_outside::File;
use std::alloc::AllocError;

/// What was done to a file.
#[derive(Drop)]
pub enum Work {
    /// These bytes were written from a place on.
    Wrote {
        at: u64,
        bytes: Vec<u8>,
    },
    /// A write of these bytes from a place on failed, and left so many from the front.
    Tried {
        at: u64,
        bytes: Vec<u8>,
        left: usize,
    },
    /// It was waited for what was done before to last.
    Synced,
    /// It was removed.
    Removed,
}

/// What was done to a disk.
#[derive(Drop)]
pub struct Done {
    pub file: File,
    pub work: Work,
}

/// Notes what is done to a file.
pub fn note(done: &mut Vec<Done>, file: File, work: Work) -> Result<(), AllocError>
    ensures steps { OnOk result (steps_of done.new.items ≡ record { file = file; change = change_of work } ∷ steps_of done.old.items) }
    ensures items { OnOk result (done.new.items ≡ done.old.items ++ record { file = file; work = work } ∷ []) }
    ensures none { OnErr result (done.new.items ≡ done.old.items) }
    ensures full { OnErr result (vec_capacity done.old ≤ length (steps_of done.old.items)) }
    ensures room { vec_capacity done.old ≤ vec_capacity done.new }
{
    done.push(Done { file, work })?;
    Ok(())
}

/// Notes a wait for each file that was removed once.
pub fn note_removals(done: &mut Vec<Done>) -> Result<(), AllocError>
    ensures waits { OnlyWaits (steps_of done.old.items) (steps_of done.new.items) }
    ensures last { OnOk result (RemovalsLast (steps_of done.new.items)) }
    ensures full { OnErr result (vec_capacity done.old ≤ length (steps_of done.new.items)) }
    ensures room { vec_capacity done.old ≤ vec_capacity done.new }
{
    for at in 0..done.len() {
        let noted = &done[at];
        let file = noted.file;
        if is_removal(&noted.work) {
            note(done, file, Work::Synced)?;
        }
    }
    Ok(())
}

// Whether a note is that of a removal.
fn is_removal(work: &Work) -> bool
    ensures { IsTrue result ↔ IsRemoval work.now }
{
    matches!(work, Work::Removed)
}

/// Takes the last note back.
pub fn forget(done: &mut Vec<Done>)
    ensures items { (before : List DoneNote) (last : DoneNote) → done.old.items ≡ before ++ last ∷ [] → done.new.items ≡ before }
    ensures room { vec_capacity done.new ≡ vec_capacity done.old }
{
    let count = done.len();
    done.truncate(count.saturating_sub(1));
}

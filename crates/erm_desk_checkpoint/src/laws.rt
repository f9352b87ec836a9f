//! Laws of desks that take checkpoints. Each holds for every value, and its function does nothing.
ghost use Rattle.std.specs.Prelude.{◌≡◌, ℕ, false, List, Option};
ghost use Rattle.erm_ckpt.specs.declared.slot.Slots.{Slots as DiskSlots};
ghost use Rattle.erm_desk.specs.Desk.{IsDesk, Sees, TakesIn};
ghost use Rattle.erm_desk_checkpoint.specs.Kept.{IsKept};
ghost use Rattle.erm_outside.specs.Disk.{Step};
ghost use Rattle.erm_rule.specs.declared.view.Book.{Book};
ghost use Rattle.erm_rule.specs.declared.view.Start.{Start};

use erm_model::RowLaw;

/// What is so of a desk that takes checkpoints is so of it once its pass has taken in others.
pub fn checkpoint_desks_take_in<L: RowLaw>()
    ensures { (o : Start) (began : Option (List Step)) (faults : ℕ) (slots : DiskSlots) (s : Sees) (e : Book) → IsKept L.law o began faults slots s → TakesIn s.book e
        → IsKept L.law o began faults slots (record s { book = e }) }
{
    erm_core_stays::decided_blocks_stay();
}

/// A desk that takes checkpoints is a desk that might be set up now, while it hasn't failed: whoever has its parts may go on with them as one.
pub fn checkpoint_desks_are_desks<L: RowLaw>()
    ensures { (o : Start) (began : Option (List Step)) (faults : ℕ) (slots : DiskSlots) (s : Sees) → IsKept L.law o began faults slots s → s.failed ≡ false
        → IsDesk L.law o s.told faults s }
{
    erm_crash::kept_logs_begin::<L>();
}
